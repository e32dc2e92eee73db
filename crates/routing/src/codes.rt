//! The codes with which a payment that has no route is refused, which are this program's own (docs/messages.md, "All codes").

use corr_text::Code;

/// No instruction is in force for the bank that the payment is for, in its currency, on its value date.
pub const P30: Code = Code(*b"P30");

/// No account is held in the amount's currency for or with the sender.
pub const P31: Code = Code(*b"P31");

/// The account that 53B names, or our account with the bank that covers the payment, isn't there or doesn't fit.
pub const P32: Code = Code(*b"P32");

/// The customer that the payment is for has no account that fits.
pub const P33: Code = Code(*b"P33");

/// A bank that has to be known is named without its BIC.
pub const P35: Code = Code(*b"P35");

/// The account that the instruction names doesn't exist, or doesn't fit.
pub const P36: Code = Code(*b"P36");

/// Debit and credit fall on one account.
pub const P38: Code = Code(*b"P38");
