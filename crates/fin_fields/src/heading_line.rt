//! The lines that begin a field.

ghost use Rattle.std.specs.Prelude.{◌≡◌, option_map};
ghost use Rattle.fin_fields.specs.Fields.{heading_of, after_tag, after_letter};
ghost use Rattle.fin_fields.specs.Headings.{heading_in};

/// What a line says that begins a field, as `:32A:` or `:20:`: the handbook's tag, and what stands behind it in the line.
#[derive(Clone, Copy)]
pub struct HeadingLine<'a> {
    /// The number of the tag, 0 to 99.
    pub tag: u8,
    /// Its letter, a capital one, if it has one.
    pub letter: Option<u8>,
    /// What the line holds behind the second colon.
    pub content: &'a [u8],
}

fn after_the_letter(tag: u8, letter: u8, rest: &[u8]) -> Option<HeadingLine<'_>>
    ensures { option_map heading_in result ≡ after_letter tag letter rest.now }
{
    match rest {
        [b':', content @ ..] => Some(HeadingLine {
            tag,
            letter: Some(letter),
            content,
        }),
        _ => None,
    }
}

fn after_the_tag(tag: u8, rest: &[u8]) -> Option<HeadingLine<'_>>
    ensures { option_map heading_in result ≡ after_tag tag rest.now }
{
    match rest {
        [b':', content @ ..] => Some(HeadingLine {
            tag,
            letter: None,
            content,
        }),
        [letter, rest @ ..] if letter.is_ascii_uppercase() => after_the_letter(tag, *letter, rest),
        _ => None,
    }
}

/// What a line says that begins `:20:` or `:50K:`; none of any other line.
pub fn heading(line: &[u8]) -> Option<HeadingLine<'_>>
    ensures { option_map heading_in result ≡ heading_of line.now }
{
    match line {
        [b':', tens, ones, rest @ ..] if tens.is_ascii_digit() && ones.is_ascii_digit() => {
            after_the_tag(10 * (*tens - b'0') + (*ones - b'0'), rest)
        }
        _ => None,
    }
}
