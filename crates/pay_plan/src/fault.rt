//! Why a message has no pay.

ghost use Rattle.std.specs.Prelude.{◌≡◌};
ghost use Rattle.pay_plan.specs.declared.fault.PlanFault.TheVariants.{Code as Refused, Memory as NoMemory};

use corr_text::{Code, Memory};

/// A cover payment whose beneficiary institution is the home bank.
pub const P34: Code = Code(*b"P34");

/// A charge that isn't below the amount out of which it is taken.
pub const P39: Code = Code(*b"P39");

/// A charge for which there is no account of fees in the amount's currency and decimals.
pub const P40: Code = Code(*b"P40");

/// Why a message has no pay.
#[derive(Clone, Copy, Debug, PartialEq, Eq)]
pub enum PlanFault {
    /// The first test that fails: P34, a code of `route`, P39 or P40.
    Code(Code),
    /// There was no memory for the pay.
    Memory,
}

impl From<Memory> for PlanFault {
    ghost from_gives = { λ _ e. e ≡ NoMemory };

    fn from(_e: Memory) -> PlanFault {
        PlanFault::Memory
    }
}

impl From<Code> for PlanFault {
    ghost from_gives = { λ code e. e ≡ Refused code };

    fn from(code: Code) -> PlanFault {
        PlanFault::Code(code)
    }
}
