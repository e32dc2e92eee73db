//! The versions of a journal's records.

ghost use Rattle.std.specs.Prelude.{◌≡◌};
ghost use Rattle.jrn_book.specs.Versions.{number_of, other};

/// Which records a journal has: those of version 1, whose accounts don't change, or those of version 2.
#[derive(Clone, Copy, Drop)]
pub enum Version {
    One,
    Two,
}

impl Version {
    /// Its number in a header.
    pub(crate) fn number(self) -> u8
        ensures { result ≡ number_of self }
    {
        match self {
            Version::One => 1,
            Version::Two => 2,
        }
    }

    /// The other one.
    pub(crate) fn other(self) -> Version
        ensures { result ≡ other self }
    {
        match self {
            Version::One => Version::Two,
            Version::Two => Version::One,
        }
    }
}
