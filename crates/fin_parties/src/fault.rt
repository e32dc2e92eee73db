//! Why a field was not read as a party.

ghost use Rattle.std.specs.Prelude.{◌≡◌};
ghost use Rattle.fin_parties.specs.declared.fault.PartyFault.TheVariants.{Memory as NoMemory};

use corr_text::Memory;

/// The fault of a field.
#[derive(Clone, Copy, Debug, PartialEq, Eq)]
pub enum PartyFault {
    /// The field isn't in the grammar of its tag and letter.
    P24,
    /// There was no memory for the party.
    Memory,
}

impl From<Memory> for PartyFault {
    ghost from_gives = { λ _ e. e ≡ NoMemory };

    fn from(_e: Memory) -> PartyFault {
        PartyFault::Memory
    }
}
