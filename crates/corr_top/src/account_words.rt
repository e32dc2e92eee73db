//! The words of the commands that change the accounts of a journal.

ghost use Rattle.std.specs.Prelude.{◌≡◌};

use std::marker::Model;

/// A word of the command line, which something else holds.
#[derive(Drop)]
pub struct Word<'a> {
    bytes: &'a [u8],
}

impl<'a> Model for Word<'a> {
    ghost use Rattle.std.specs.Prelude.{List, ℕ};

    ghost Value = { List ℕ };

    ghost view = { λ word. word.bytes.now };
}

impl<'a> Word<'a> {
    /// These bytes as a word.
    pub fn of(bytes: &'a [u8]) -> Word<'a>
        ensures { result ≡ bytes.now }
    {
        Word { bytes }
    }

    /// The bytes.
    pub fn bytes(&self) -> &'a [u8]
        ensures { result.now ≡ self.now }
    {
        self.bytes
    }
}

/// The words of `open-account`: the columns of a row of the table of accounts but for its opening, each as it is.
#[derive(Drop)]
pub struct AccountWords<'a> {
    pub id: Word<'a>,
    pub kind: Word<'a>,
    pub owner: Word<'a>,
    pub ccy: Word<'a>,
    pub floor: Word<'a>,
    pub ceil: Word<'a>,
}

/// A floor and a ceiling, in minor units.
#[derive(Clone, Copy, Drop)]
pub struct Ends {
    pub floor: i64,
    pub ceil: i64,
}

/// What changes in the accounts of a journal.
#[derive(Drop)]
pub enum AccountChange<'a> {
    /// `open-account ID KIND OWNER CCY FLOOR CEIL`: an account is opened, with opening 0.
    Open(AccountWords<'a>),
    /// `set-limits ID FLOOR CEIL`: an account gets another floor and ceiling.
    Limit { id: Word<'a>, ends: Ends },
}
