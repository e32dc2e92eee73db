//! A field whose lines stay in the text.

ghost use Rattle.std.specs.Prelude.{◌≡◌, ◌++◌, [], ◌∷◌, true, false, IfOk, OnErr, OnOk};
ghost use Rattle.std.specs.List.{list_any};
ghost use Rattle.fin_fields.specs.Faults.{has_other_byte};
ghost use Rattle.fin_fields.specs.Lent.{lines_in};
ghost use Rattle.fin_fields.specs.inner.Lent.{HasRoom};

use crate::field::Field;
use crate::line::{Line, copy_lines};
use arrayvec::ArrayVec;
use corr_text::{List, Memory};
use std::alloc::Global;
use std::marker::Model;

/// How many lines a field has in their place.
const FEW: usize = 2;

/// For how many lines there is room where a field gets more than these.
const LINE_ROOM: usize = 6;

/// The lines of a field: a few in their place, or a list.
#[derive(Debug, Drop)]
enum Lines<'a> {
    Few(ArrayVec<Line<'a>, FEW>),
    Listed(List<Line<'a>>),
}

/// A field whose lines stay in the text that they were cut from. Contracts see it as the `Field` of the same tag, letter and
/// lines.
#[derive(Debug, Drop)]
pub struct FieldLines<'a> {
    tag: u8,
    letter: Option<u8>,
    // whether the lines are known to have bytes of set X alone
    plain: bool,
    lines: Lines<'a>,
}

impl<'a> Model for FieldLines<'a> {
    ghost use Rattle.fin_fields.specs.declared.field.Field.{Field};

    ghost Value = { Field };

    ghost use Rattle.fin_fields.specs.Lent.{lines_in};

    ghost view = { λ f. record { tag = f.tag; letter = f.letter; lines = lines_in f.lines } };

    ghost use Rattle.std.specs.Prelude.{◌≡◌, true, false};
    ghost use Rattle.std.specs.List.{list_any};
    ghost use Rattle.fin_fields.specs.Faults.{has_other_byte};

    ghost invariant = { λ f. f.plain ≡ true → list_any has_other_byte (lines_in f.lines) ≡ false };
}

/// A list of these lines and one more.
#[inline(never)]
fn listed<'a>(alloc: Global, few: &[Line<'a>], line: &'a [u8]) -> Result<List<Line<'a>>, Memory>
    ensures { IfOk result (λ all. all ≡ few.now ++ line.now ∷ []) }
{
    let mut all = List::with_room(alloc, LINE_ROOM)?;
    for known in few {
        all.push(Line::of(known.bytes()))?;
    }
    all.push(Line::of(line))?;
    Ok(all)
}

impl<'a> Lines<'a> {
    /// The lines.
    fn as_slice(&self) -> &[Line<'a>]
        ensures { result.now ≡ lines_in self.now }
    {
        match self {
            Lines::Few(lines) => lines.as_slice(),
            Lines::Listed(lines) => lines.as_slice(),
        }
    }

    /// Whether the lines stand in their place, and no more fit there.
    fn is_full(&self) -> bool
        ensures { result ≡ false → HasRoom self.now }
    {
        match self {
            Lines::Few(lines) => lines.is_full(),
            Lines::Listed(_) => false,
        }
    }

    /// Adds a line after the others, where one more fits or memory is had for it.
    fn push(&mut self, line: &'a [u8]) -> Result<(), Memory>
        requires { HasRoom self.old }
        ensures ok { OnOk result (lines_in self.new ≡ lines_in self.old ++ line.now ∷ []) }
        ensures err { OnErr result (lines_in self.new ≡ lines_in self.old) }
    {
        match self {
            Lines::Few(lines) => {
                lines.push(Line::of(line));
                Ok(())
            }
            Lines::Listed(lines) => lines.push(Line::of(line)),
        }
    }
}

/// Adds a line after the others; where there is no room, nothing is added.
fn add_to<'a>(alloc: Global, lines: &mut Lines<'a>, line: &'a [u8]) -> Result<(), Memory>
    ensures ok { OnOk result (lines_in lines.new ≡ lines_in lines.old ++ line.now ∷ []) }
    ensures err { OnErr result (lines_in lines.new ≡ lines_in lines.old) }
{
    if lines.is_full() {
        let all = listed(alloc, lines.as_slice(), line)?;
        *lines = Lines::Listed(all);
        return Ok(());
    }
    lines.push(line)
}

impl<'a> FieldLines<'a> {
    /// A field of one line.
    pub fn of_line(tag: u8, letter: Option<u8>, line: &'a [u8]) -> FieldLines<'a>
        ensures { result ≡ record { tag = tag; letter = letter; lines = line.now ∷ [] } }
    {
        FieldLines::of_known(tag, letter, line, false)
    }

    /// A field of one line, and whether that is known to have bytes of set X alone.
    pub(crate) fn of_known(
        tag: u8,
        letter: Option<u8>,
        line: &'a [u8],
        plain: bool,
    ) -> FieldLines<'a>
        requires { plain ≡ true → has_other_byte line.now ≡ false }
        ensures { result ≡ record { tag = tag; letter = letter; lines = line.now ∷ [] } }
    {
        let mut few = ArrayVec::new();
        few.push(Line::of(line));
        FieldLines {
            tag,
            letter,
            plain,
            lines: Lines::Few(few),
        }
    }

    /// The field of this tag and letter with the lines of a list.
    pub fn of_lines(tag: u8, letter: Option<u8>, lines: List<Line<'a>>) -> FieldLines<'a>
        ensures { result ≡ record { tag = tag; letter = letter; lines = lines.entry } }
    {
        FieldLines {
            tag,
            letter,
            plain: false,
            lines: Lines::Listed(lines),
        }
    }

    /// Adds a line after the others.
    ///
    /// `Memory`: there was no room for it; then nothing was added.
    pub fn add(&mut self, alloc: Global, line: &'a [u8]) -> Result<(), Memory>
        ensures ok { OnOk result (self.new ≡ record self.old { lines = self.old.lines ++ line.now ∷ [] }) }
        ensures err { OnErr result (self.new ≡ self.old) }
    {
        self.add_known(alloc, line, false)
    }

    /// As `add`, of a line of which is told whether it is known to have bytes of set X alone.
    pub(crate) fn add_known(
        &mut self,
        alloc: Global,
        line: &'a [u8],
        plain: bool,
    ) -> Result<(), Memory>
        requires { plain ≡ true → has_other_byte line.now ≡ false }
        ensures ok { OnOk result (self.new ≡ record self.old { lines = self.old.lines ++ line.now ∷ [] }) }
        ensures err { OnErr result (self.new ≡ self.old) }
    {
        self.plain &= plain;
        add_to(alloc, &mut self.lines, line)
    }

    /// Whether the lines are known to have bytes of set X alone, since they were cut from a text and tested there.
    pub fn is_plain(&self) -> bool
        ensures { result ≡ true → list_any has_other_byte self.now.lines ≡ false }
    {
        self.plain
    }

    /// The field's number.
    pub fn tag(&self) -> u8
        ensures { result ≡ self.now.tag }
    {
        self.tag
    }

    /// The field's letter, if it has one.
    pub fn letter(&self) -> Option<u8>
        ensures { result ≡ self.now.letter }
    {
        self.letter
    }

    /// The field's lines.
    pub fn lines(&self) -> &[Line<'a>]
        ensures { result.now ≡ self.now.lines }
    {
        self.lines.as_slice()
    }

    /// The field with lines of its own.
    pub fn to_owned(&self, alloc: Global) -> Result<Field, Memory>
        ensures { IfOk result (λ f. f ≡ self.now) }
    {
        Ok(Field {
            tag: self.tag(),
            letter: self.letter(),
            lines: copy_lines(alloc, self.lines())?,
        })
    }
}
