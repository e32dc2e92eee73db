//! A file of rows.

use crate::calls::answer;
use crate::head::{Head, read_head};
use crate::many::read_many;
use crate::named::{Named, find_text};
use corr_text::{Memory, Text, put_digits};
use row_words::stop::Stop;
use std::alloc::Global;
use std::mem;

/// What the lines so far have begun.
#[derive(Drop)]
enum Open {
    Nothing,
    /// A text of this name.
    Text(Text),
    /// The row that begins at this line, with these words.
    Row(u64, Vec<Text>),
}

/// A file whose rows are run.
#[derive(Drop)]
struct Reading<'a> {
    alloc: Global,
    file: &'a [u8],
    texts: Vec<Named>,
    open: Open,
    body: Text,
    rows: u64,
    differ: u64,
    report: Text,
}

/// Runs the rows of a file, and tells those that differ and how many there are.
pub fn run_file(alloc: Global, file: &[u8], rows: &[u8]) -> Result<Text, Memory> {
    let mut reading = Reading::new(alloc, file)?;
    for (i, line) in rows.split(|b| *b == b'\n').enumerate() {
        reading.take(i as u64 + 1, line)?;
    }
    reading.finish()
}

impl<'a> Reading<'a> {
    fn new(alloc: Global, file: &'a [u8]) -> Result<Reading<'a>, Memory> {
        Ok(Reading {
            alloc,
            file,
            texts: Vec::new(alloc),
            open: Open::Nothing,
            body: Text::from_bytes(alloc, b"")?,
            rows: 0,
            differ: 0,
            report: Text::from_bytes(alloc, b"")?,
        })
    }

    /// Takes the next line, counted from 1.
    fn take(&mut self, at: u64, line: &[u8]) -> Result<(), Memory> {
        match line {
            [] | [b'#', ..] => Ok(()),
            [b'|'] => self.body_line(at, b""),
            [b'|', b' ', line @ ..] => self.body_line(at, line),
            [b'@', name @ ..] => self.named_lines(at, name),
            [b'=', b' ', want @ ..] => self.end_row(at, want),
            [b't', b'e', b'x', b't', b' ', name @ ..] => self.begin_text(name),
            [b'm', b'a', b'n', b'y', b' ', words @ ..] => self.add_many(at, words),
            _ => self.begin_row(at, line),
        }
    }

    /// Adds a line to the body of what is open.
    fn body_line(&mut self, at: u64, line: &[u8]) -> Result<(), Memory> {
        if matches!(self.open, Open::Nothing) {
            return self.differs(at, b"unreadable", b"");
        }
        self.body.push(line)?;
        self.body.push(b"\r\n")
    }

    /// Adds the lines of a named text to the body of what is open.
    fn named_lines(&mut self, at: u64, name: &[u8]) -> Result<(), Memory> {
        match (&self.open, find_text(self.texts.as_slice(), name)) {
            (Open::Text(_) | Open::Row(_, _), Some(lines)) => self.body.push(lines),
            _ => self.differs(at, b"unreadable", b""),
        }
    }

    /// Begins a named text.
    fn begin_text(&mut self, name: &[u8]) -> Result<(), Memory> {
        self.close()?;
        self.open = Open::Text(Text::from_bytes(self.alloc, name)?);
        Ok(())
    }

    fn many(&self, words: &[u8]) -> Result<Named, Stop> {
        read_many(self.alloc, words, self.texts.as_slice())
    }

    /// Names a text of so many pieces.
    fn add_many(&mut self, at: u64, words: &[u8]) -> Result<(), Memory> {
        self.close()?;
        match self.many(words) {
            Ok(text) => {
                self.texts.push(text)?;
                Ok(())
            }
            Err(Stop::Unreadable) => self.differs(at, b"unreadable", b""),
            Err(Stop::Memory) => Err(Memory),
        }
    }

    /// The words of a head line, and its answer.
    fn head(&self, line: &[u8]) -> Result<Head, Stop> {
        read_head(self.alloc, line, self.texts.as_slice())
    }

    /// Begins a row, and runs it where its answer stands on the same line.
    fn begin_row(&mut self, at: u64, line: &[u8]) -> Result<(), Memory> {
        self.close()?;
        match self.head(line) {
            Ok(head) => self.begin_words(at, head),
            Err(Stop::Unreadable) => self.differs(at, b"unreadable", b""),
            Err(Stop::Memory) => Err(Memory),
        }
    }

    fn begin_words(&mut self, at: u64, head: Head) -> Result<(), Memory> {
        let Head { words, answer } = head;
        match answer {
            Some(want) => self.run(at, words.as_slice(), want.bytes()),
            None => {
                self.open = Open::Row(at, words);
                Ok(())
            }
        }
    }

    /// Runs the row that is open, its body as its last word.
    fn end_row(&mut self, at: u64, want: &[u8]) -> Result<(), Memory> {
        match mem::replace(&mut self.open, Open::Nothing) {
            Open::Row(line, mut words) => {
                let body = self.take_body()?;
                words.push(body)?;
                self.run(line, words.as_slice(), want)
            }
            _ => self.differs(at, b"unreadable", b""),
        }
    }

    fn take_body(&mut self) -> Result<Text, Memory> {
        let empty = Text::from_bytes(self.alloc, b"")?;
        Ok(mem::replace(&mut self.body, empty))
    }

    /// Closes what is open: a text is kept, and a row without an answer is unreadable.
    fn close(&mut self) -> Result<(), Memory> {
        match mem::replace(&mut self.open, Open::Nothing) {
            Open::Nothing => Ok(()),
            Open::Text(name) => {
                let bytes = self.take_body()?;
                self.texts.push(Named { name, bytes })?;
                Ok(())
            }
            Open::Row(at, _) => self.differs(at, b"unreadable", b""),
        }
    }

    /// Runs a row.
    fn run(&mut self, at: u64, words: &[Text], want: &[u8]) -> Result<(), Memory> {
        match answer(self.alloc, words) {
            Ok(got) if got.bytes() == want => {
                self.rows = self.rows.saturating_add(1);
                Ok(())
            }
            Ok(got) => self.differs(at, b"got ", got.bytes()),
            Err(Stop::Unreadable) => self.differs(at, b"unreadable", b""),
            Err(Stop::Memory) => Err(Memory),
        }
    }

    /// Counts a row that differs, and tells its line.
    fn differs(&mut self, at: u64, what: &[u8], got: &[u8]) -> Result<(), Memory> {
        self.rows = self.rows.saturating_add(1);
        self.differ = self.differ.saturating_add(1);
        let mut line = Text::from_bytes(self.alloc, self.file)?;
        line.push(b":")?;
        put_digits(self.alloc, at, 1, &mut line)?;
        line.push(b": ")?;
        line.push(what)?;
        line.push(got)?;
        line.push(b"\n")?;
        self.report.push(line.bytes())
    }

    /// The line of the counts.
    fn counts(&self) -> Result<Text, Memory> {
        let mut line = Text::from_bytes(self.alloc, self.file)?;
        line.push(b": ")?;
        put_digits(self.alloc, self.rows, 1, &mut line)?;
        line.push(b" rows, ")?;
        put_digits(self.alloc, self.differ, 1, &mut line)?;
        line.push(b" differ\n")?;
        Ok(line)
    }

    /// The report, with the counts as its last line.
    fn finish(mut self) -> Result<Text, Memory> {
        self.close()?;
        let counts = self.counts()?;
        self.report.push(counts.bytes())?;
        let Reading { report, .. } = self;
        Ok(report)
    }
}
