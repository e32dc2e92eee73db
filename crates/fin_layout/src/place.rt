//! A place in the order of a message type's fields.

ghost use Rattle.std.specs.Prelude.{◌≡◌, ◌==◌};
ghost use Rattle.std.specs.List.{list_any};
ghost use Rattle.fin_layout.specs.Order.{fits, place_tag};

use fin_fields::{FieldLines, letter_of};

/// One place in the order of a message type's fields.
///
/// Example: field 50a of the options A, F and K, which must be there, is
/// `Place { tag: 50, options: *b"AFKK", many: false, must: true }`.
#[derive(Clone, Copy, Debug, PartialEq, Eq)]
pub struct Place {
    /// The field's number, at most 99.
    pub tag: u8,
    /// The letters that may stand here, the last one repeated up to four; a space stands for no letter.
    pub options: [u8; 4],
    /// Whether more than one field may stand here.
    pub many: bool,
    /// Whether a field must stand here.
    pub must: bool,
}

/// A place that must be taken once: `one!(50, b"AFKK")`.
#[macro_export]
macro_rules! one {
    ($tag:literal, $options:literal) => {
        $crate::Place {
            tag: $tag,
            options: *$options,
            many: false,
            must: true,
        }
    };
}

/// A place that may be taken once: `may!(52, b"ADDD")`.
#[macro_export]
macro_rules! may {
    ($tag:literal, $options:literal) => {
        $crate::Place {
            tag: $tag,
            options: *$options,
            many: false,
            must: false,
        }
    };
}

/// A place that may be taken more than once: `any!(13, b"CCCC")`.
#[macro_export]
macro_rules! any {
    ($tag:literal, $options:literal) => {
        $crate::Place {
            tag: $tag,
            options: *$options,
            many: true,
            must: false,
        }
    };
}

fn is_option(options: &[u8; 4], letter: u8) -> bool
    ensures { result ≡ list_any (λ option. option == letter) options.now }
{
    options.iter().any(|option| *option == letter)
}

/// Whether a field may stand at a place: it has the place's number and one of its letters.
pub fn fits(p: &Place, f: &FieldLines<'_>) -> bool
    ensures { result ≡ fits p.now f.now }
{
    p.tag == f.tag() && is_option(&p.options, letter_of(f))
}

/// The tag of a place: two digits and a space where it has several options, else the whole tag.
pub fn place_tag(p: &Place) -> [u8; 3]
    ensures { result ≡ place_tag p.now }
{
    let [first, second, third, fourth] = p.options;
    let letter = if first == second && second == third && third == fourth {
        first
    } else {
        b' '
    };
    [b'0' + p.tag / 10, b'0' + p.tag % 10, letter]
}
