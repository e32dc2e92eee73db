//! Room for one commit.

ghost use Rattle.std.specs.Prelude.{◌≡◌, ◌+◌, ◌<◌, ◌≤◌, ◌^◌, ◌++◌, [], length, IfOk, IsOk, IsTrue};
ghost use Rattle.std.specs.Bool.{OnTrue};
ghost use Rattle.corr_ids.specs.Day.{InCentury};
ghost use Rattle.day_model.specs.Shape.{HasShape};
ghost use Rattle.jrn_file.specs.Journal.{frame_of};
ghost use Rattle.jrn_file.specs.Reading.{with_length};
ghost use Rattle.jrn_codec.specs.Record.{IsEntry, entry_bytes, most_record_bytes};
ghost use Rattle.jrn_book.specs.Room.{longest_record};

use corr_ids::Day;
use corr_text::{Buf, Memory};
use day_model::{Entry, Leg, Outcome, Pay};
use jrn_codec::{put_entry, record_len};
use std::alloc::Global;
use std::marker::Model;

/// What one commit of a pay takes: a copy of it, and room for its record's frame.
///
/// Contracts see the pay.
#[derive(Drop)]
pub(crate) struct Room {
    pay: Pay,
    frame: Buf,
}

impl Model for Room {
    ghost use Rattle.std.specs.Prelude.{◌≡◌, ◌+◌, ◌≤◌, []};
    ghost use Rattle.day_model.specs.declared.pay.Pay.{Pay as ThePay};
    ghost use Rattle.day_model.specs.Shape.{HasShape};
    ghost use Rattle.jrn_book.specs.Room.{longest_record};

    ghost Value = { ThePay };

    ghost view = { λ r. r.pay };

    ghost invariant = { λ r. HasShape r.pay × (r.frame.bytes ≡ []) × (longest_record r.pay + 5 ≤ r.frame.spare) };
}

/// Puts a record into an empty buffer as it is appended: its length in four bytes, the record and a byte 0.
pub(crate) fn put_frame(frame: &mut Buf, body: &[u8]) -> Result<(), Memory>
    requires empty { frame.old.bytes ≡ [] }
    requires few { length body.now < 2 ^ 32 }
    requires room { length body.now + 5 ≤ frame.old.spare }
    ensures frame { frame.new.bytes ≡ frame_of body.now }
    ensures ok { IsOk result }
{
    frame.push(&(body.len() as u32).to_be_bytes())?;
    frame.push(body)?;
    frame.push(&[0])
}

/// Adds the record of an entry, which has so many bytes, after its length. There is room for it.
pub(crate) fn put_record(out: &mut Buf, e: &Entry, len: u64)
    requires shape { HasShape e.now.pay }
    requires day { InCentury e.now.day }
    requires len { len ≡ length (entry_bytes e.now) }
    requires few { len ≤ most_record_bytes }
    requires room { len + 4 ≤ out.old.spare }
    ensures added { out.new.bytes ≡ out.old.bytes ++ with_length (entry_bytes e.now) }
    ensures written { IsEntry e.now }
    ensures left { out.old.spare ≤ out.new.spare + (len + 4) }
{
    let len = len as u32;
    out.push(&len.to_be_bytes()).unwrap();
    put_entry(e, out).unwrap();
}

/// The most bytes that an order takes in a record.
const ORDER_BYTES: u64 = 25;

/// The most bytes of a record beside its text and its orders.
const OTHER_BYTES: u64 = 178;

/// As many bytes as the record of a pay takes at most: its text, its orders, and what else there is.
pub(crate) fn most_bytes(p: &Pay) -> u64
    requires { HasShape p.now }
    ensures room { longest_record p.now ≤ result }
    ensures few { result ≤ 39321 }
{
    let orders = p.orders.as_slice().len() as u64;
    p.text.bytes().len() as u64 + orders * ORDER_BYTES + OTHER_BYTES
}

impl Room {
    /// Room for a commit of this pay: as much as its longest record takes.
    pub(crate) fn new(alloc: Global, p: &Pay) -> Result<Room, Memory>
        requires shape { HasShape p.now }
        ensures pay { IfOk result (λ room. room ≡ p.now) }
    {
        let mut frame = Buf::new(alloc);
        frame.reserve(most_bytes(p) + 5)?;
        Ok(Room {
            pay: p.copy(alloc)?,
            frame,
        })
    }

    /// The legs of its pay.
    pub(crate) fn legs(&self) -> &[Leg]
        ensures { result.now ≡ self.now.legs }
    {
        self.pay.legs.as_slice()
    }

    /// Whether it is for this pay.
    pub(crate) fn is_for(&self, p: &Pay) -> bool
        ensures same { OnTrue result (self.now ≡ p.now) }
        ensures all { self.now ≡ p.now → IsTrue result }
    {
        self.pay.equals(p)
    }

    /// The entry that the pay becomes, and its record as it is appended. Takes no memory.
    pub(crate) fn write(self, day: Day, outcome: Outcome) -> (Entry, Buf)
        requires day { InCentury day }
        ensures entry { result.0 ≡ record { pay = self; day = day; outcome = outcome } }
        ensures written { IsEntry result.0 }
        ensures frame { result.1.bytes ≡ frame_of (entry_bytes result.0) }
        ensures few { length (entry_bytes result.0) ≤ most_record_bytes }
    {
        let Room { pay, mut frame } = self;
        let entry = Entry { pay, day, outcome };
        let len = record_len(&entry);
        put_record(&mut frame, &entry, len);
        frame.push(&[0]).unwrap();
        (entry, frame)
    }
}
