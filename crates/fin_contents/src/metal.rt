//! Precious metals.

ghost use Rattle.std.specs.Prelude.{◌≡◌};
ghost use Rattle.fin_contents.specs.Money.{is_metal};

/// The codes of gold, silver, palladium and platinum (ISO 4217).
pub const METALS: [[u8; 3]; 4] = [*b"XAU", *b"XAG", *b"XPD", *b"XPT"];

/// Whether a currency is a precious metal.
pub fn is_metal(code: &[u8]) -> bool
    ensures { result ≡ is_metal code.now }
{
    METALS.iter().any(|metal| metal.as_slice() == code)
}
