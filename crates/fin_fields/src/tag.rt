//! How a fault names a field: by its tag, and by which of that tag it is.

ghost use Rattle.std.specs.Prelude.{◌≡◌, ◌≤◌, ◌<◌, count_by, length};
ghost use Rattle.fin_fields.specs.Faults.{is_like, letter_of, nth_of, tag_of};
ghost use Rattle.fin_fields.specs.Fields.{most_text_lines};

use crate::field_lines::FieldLines;

/// The letter of a field, a space where it has none.
pub fn letter_of(f: &FieldLines<'_>) -> u8
    ensures { result ≡ letter_of f.now }
{
    f.letter().unwrap_or(b' ')
}

/// The tag of a field as a fault tells it: two digits and the letter, as `50K`, or a space where it has none.
pub fn tag_of(f: &FieldLines<'_>) -> [u8; 3]
    ensures { result ≡ tag_of f.now }
{
    [b'0' + f.tag() / 10, b'0' + f.tag() % 10, letter_of(f)]
}

fn alike(fields: &[FieldLines<'_>], f: &FieldLines<'_>) -> usize
    ensures value { result ≡ count_by (is_like f.now) fields.now }
    ensures bound { result ≤ length fields.now }
{
    fields
        .iter()
        .filter(|g| g.tag() == f.tag() && letter_of(g) == letter_of(f))
        .count()
}

/// Which field of its tag and letter the field at `at`, from 0, is: counted from 1 and from the start of the fields.
pub fn nth_of(fields: &[FieldLines<'_>], at: usize) -> u16
    requires few { length fields.now ≤ most_text_lines }
    requires within { at < length fields.now }
    ensures { result ≡ nth_of fields.now at }
{
    alike(&fields[..at + 1], &fields[at]) as u16
}
