//! Writing entries.

ghost use Rattle.std.specs.Prelude.{◌≡◌, ◌++◌, [], ◌∷◌, ◌≤◌, ◌+◌, length, flat_map, All, IsOk, OnErr, OnOk};
ghost use Rattle.corr_ids.specs.Day.{InCentury};
ghost use Rattle.day_model.specs.Shape.{HasShape, IsLeg, most_text};
ghost use Rattle.day_model.specs.declared.entry.Outcome.TheVariants.{Unfunded};
ghost use Rattle.jrn_codec.specs.Record.{IsEntry, IsOutcome, back_bytes, day_bytes, entry_bytes, fate_bytes, front_bytes, leg_bytes, mt_mark, order_bytes, outcome_bytes, posting_bytes, side_mark, skip_mark, stamp_bytes, most_record_bytes};
ghost use Rattle.jrn_codec.specs.Spelling.{bic_bytes, listed_bytes, long_bytes, optional_bytes};
ghost use Rattle.jrn_codec.specs.inner.Writing.{WritesInRoom, IsFrontOf};
ghost use Rattle.day_model.specs.Chart.{most_accounts};

use crate::writing::{push, push_all};
use corr_ids::{Bic, Day, Uetr, with_branch};
use corr_text::{Buf, Memory};
use day_model::{Entry, Leg, Mt, Order, Outcome, Quote, Side, Skip};

fn mt_mark(mt: Mt) -> u8
    ensures { result ≡ mt_mark mt }
{
    match mt {
        Mt::Transfer => 1,
        Mt::Cover => 2,
    }
}

fn side_mark(side: Side) -> u8
    ensures { result ≡ side_mark side }
{
    match side {
        Side::Debit => 0,
        Side::Credit => 1,
    }
}

fn skip_mark(skip: Skip) -> u8
    ensures { result ≡ skip_mark skip }
{
    match skip {
        Skip::Keep => 0,
        Skip::Mid => 1,
        Skip::Both => 2,
    }
}

/// The mark of an entry, the message's reference and its type.
#[inline]
fn stamp_head(e: &Entry) -> [u8; 30]
    ensures { result ≡ 0 ∷ (e.now.pay.mir.0 ++ mt_mark e.now.pay.mt ∷ []) }
{
    let mut bytes = [0; 30];
    bytes[29] = mt_mark(e.pay.mt);
    bytes[1..29].copy_from_slice(&e.pay.mir.0);
    bytes
}

/// A payment's reference after its mark.
#[inline]
fn marked_uetr(uetr: &Uetr) -> [u8; 37]
    ensures { result ≡ 1 ∷ uetr.now.0 }
{
    let mut bytes = [1; 37];
    bytes[1..].copy_from_slice(&uetr.0);
    bytes
}

fn put_uetr(out: &mut Buf, uetr: &Option<Uetr>) -> Result<(), Memory>
    ensures ok { OnOk result (out.new.bytes ≡ out.old.bytes ++ optional_bytes (λ u. u.0) uetr.now) }
    ensures room { WritesInRoom (optional_bytes (λ u. u.0) uetr.now) out.old.spare out.new.spare result }
    ensures front { IsFrontOf out.old.bytes out.new.bytes }
{
    match uetr {
        None => push(out, &[0]),
        Some(uetr) => push(out, &marked_uetr(uetr)),
    }
}

#[tactic(auto, using(crate::proofs::Fronts::goes_on), unfolding(crate::specs::Record::stamp_bytes))]
fn put_stamp(out: &mut Buf, e: &Entry) -> Result<(), Memory>
    ensures ok { OnOk result (out.new.bytes ≡ out.old.bytes ++ 0 ∷ stamp_bytes e.now.pay.mir e.now.pay.mt e.now.pay.uetr) }
    ensures room { WritesInRoom (0 ∷ stamp_bytes e.now.pay.mir e.now.pay.mt e.now.pay.uetr) out.old.spare out.new.spare result }
    ensures front { IsFrontOf out.old.bytes out.new.bytes }
{
    push(out, &stamp_head(e))?;
    put_uetr(out, &e.pay.uetr)
}

/// The two days of a booked entry and the mark of that outcome.
#[inline]
#[tactic(auto, unfolding(crate::specs::Spelling::signed_bytes))]
fn booked_fate(day: Day, value: Day) -> [u8; 9]
    ensures { result ≡ day_bytes day ++ (day_bytes value ++ 0 ∷ []) }
{
    let mut bytes = [0; 9];
    bytes[4..8].copy_from_slice(&value.0.to_be_bytes());
    bytes[..4].copy_from_slice(&day.0.to_be_bytes());
    bytes
}

/// The two days of an entry that isn't funded, the mark of that outcome, the leg that failed and its account's balance.
#[tactic(auto, unfolding(crate::specs::Spelling::signed_bytes))]
fn unfunded_fate(day: Day, value: Day, leg: u8, balance: i64) -> [u8; 18]
    ensures bytes { result ≡ day_bytes day ++ (day_bytes value ++ outcome_bytes (Unfunded leg balance)) }
    ensures fits { IsOutcome (Unfunded leg balance) }
{
    let mut bytes = [1; 18];
    bytes[10..].copy_from_slice(&balance.to_be_bytes());
    bytes[9] = leg;
    bytes[4..8].copy_from_slice(&value.0.to_be_bytes());
    bytes[..4].copy_from_slice(&day.0.to_be_bytes());
    bytes
}

#[tactic(auto, unfolding(crate::specs::Record::fate_bytes))]
fn put_fate(out: &mut Buf, e: &Entry) -> Result<(), Memory>
    ensures ok { OnOk result (out.new.bytes ≡ out.old.bytes ++ fate_bytes e.now.day e.now.pay.value e.now.outcome) }
    ensures room { WritesInRoom (fate_bytes e.now.day e.now.pay.value e.now.outcome) out.old.spare out.new.spare result }
    ensures front { IsFrontOf out.old.bytes out.new.bytes }
    ensures fits { OnOk result (IsOutcome e.now.outcome) }
{
    let value = e.pay.value;
    match e.outcome {
        Outcome::Booked => push(out, &booked_fate(e.day, value)),
        Outcome::Unfunded { leg, balance } => push(out, &unfunded_fate(e.day, value, leg, balance)),
    }
}

/// What a leg books, and two bytes more.
#[inline]
#[tactic(auto, unfolding(crate::specs::Record::posting_bytes))]
fn posting_with(leg: &Leg, mark: u8, count: u8) -> [u8; 13]
    requires { leg.now.account.0 ≤ most_accounts }
    ensures { result ≡ posting_bytes leg.now ++ mark ∷ count ∷ [] }
{
    let account = leg.account.0 as u16;
    let mut bytes = [0; 13];
    bytes[12] = count;
    bytes[11] = mark;
    bytes[3..11].copy_from_slice(&leg.amount.0.to_be_bytes());
    bytes[2] = side_mark(leg.side);
    bytes[..2].copy_from_slice(&account.to_be_bytes());
    bytes
}

#[tactic(auto, unfolding(crate::specs::Record::leg_bytes))]
fn put_leg(out: &mut Buf, leg: &Leg) -> Result<(), Memory>
    requires { IsLeg leg.now }
    ensures ok { OnOk result (out.new.bytes ≡ out.old.bytes ++ leg_bytes leg.now) }
    ensures room { WritesInRoom (leg_bytes leg.now) out.old.spare out.new.spare result }
    ensures front { IsFrontOf out.old.bytes out.new.bytes }
{
    match &leg.quote {
        Quote::Theirs(text) => {
            let text = text.bytes();
            push_all(out, &[&posting_with(leg, 0, text.len() as u8), text])
        }
        Quote::Ours(k) => push(out, &posting_with(leg, 1, *k)),
    }
}

#[tactic(auto, using(crate::proofs::Fronts::goes_on))]
fn put_legs(out: &mut Buf, legs: &[Leg]) -> Result<(), Memory>
    requires { All IsLeg legs.now }
    ensures ok { OnOk result (out.new.bytes ≡ out.old.bytes ++ flat_map leg_bytes legs.now) }
    ensures room { WritesInRoom (flat_map leg_bytes legs.now) out.old.spare out.new.spare result }
    ensures front { IsFrontOf out.old.bytes out.new.bytes }
{
    match legs {
        [] => Ok(()),
        [leg, others @ ..] => {
            put_leg(out, leg)?;
            put_legs(out, others)
        }
    }
}

/// A bank after a mark.
fn marked_bic(bic: &Bic) -> [u8; 12]
    ensures { result ≡ 1 ∷ bic_bytes bic.now }
{
    let mut bytes = [1; 12];
    bytes[1..].copy_from_slice(&with_branch(bic));
    bytes
}

fn put_via(out: &mut Buf, via: &Option<Bic>) -> Result<(), Memory>
    ensures ok { OnOk result (out.new.bytes ≡ out.old.bytes ++ optional_bytes bic_bytes via.now) }
    ensures room { WritesInRoom (optional_bytes bic_bytes via.now) out.old.spare out.new.spare result }
    ensures front { IsFrontOf out.old.bytes out.new.bytes }
{
    match via {
        None => push(out, &[0]),
        Some(via) => push(out, &marked_bic(via)),
    }
}

/// The kind of an order, the bank that its message goes to, and a byte more.
#[inline]
fn notice(kind: u8, to: &Bic, last: u8) -> [u8; 13]
    ensures { result ≡ kind ∷ (bic_bytes to.now ++ last ∷ []) }
{
    let mut bytes = [last; 13];
    bytes[1..12].copy_from_slice(&with_branch(to));
    bytes[0] = kind;
    bytes
}

/// The order of a cover.
fn cover(to: &Bic, end: &Bic, skip: Skip) -> [u8; 24]
    ensures { result ≡ 2 ∷ (bic_bytes to.now ++ (bic_bytes end.now ++ skip_mark skip ∷ [])) }
{
    let mut bytes = [2; 24];
    bytes[23] = skip_mark(skip);
    bytes[12..23].copy_from_slice(&with_branch(end));
    bytes[1..12].copy_from_slice(&with_branch(to));
    bytes
}

#[tactic(auto, using(crate::proofs::Fronts::goes_on))]
fn put_order(out: &mut Buf, order: &Order) -> Result<(), Memory>
    ensures ok { OnOk result (out.new.bytes ≡ out.old.bytes ++ order_bytes order.now) }
    ensures room { WritesInRoom (order_bytes order.now) out.old.spare out.new.spare result }
    ensures front { IsFrontOf out.old.bytes out.new.bytes }
{
    match order {
        Order::Transfer { to, skip, via } => {
            push(out, &notice(1, to, skip_mark(*skip)))?;
            put_via(out, via)
        }
        Order::Cover { to, end, skip } => push(out, &cover(to, end, *skip)),
        Order::Pass { to, skip } => push(out, &notice(3, to, skip_mark(*skip))),
        Order::Debit { to, leg } => push(out, &notice(4, to, *leg)),
        Order::Credit { to, leg } => push(out, &notice(5, to, *leg)),
    }
}

#[tactic(auto, using(crate::proofs::Fronts::goes_on))]
fn put_orders(out: &mut Buf, orders: &[Order]) -> Result<(), Memory>
    ensures ok { OnOk result (out.new.bytes ≡ out.old.bytes ++ flat_map order_bytes orders.now) }
    ensures room { WritesInRoom (flat_map order_bytes orders.now) out.old.spare out.new.spare result }
    ensures front { IsFrontOf out.old.bytes out.new.bytes }
{
    match orders {
        [] => Ok(()),
        [order, others @ ..] => {
            put_order(out, order)?;
            put_orders(out, others)
        }
    }
}

fn put_count(out: &mut Buf, count: usize) -> Result<(), Memory>
    requires { count ≤ 255 }
    ensures ok { OnOk result (out.new.bytes ≡ out.old.bytes ++ count ∷ []) }
    ensures room { WritesInRoom (count ∷ []) out.old.spare out.new.spare result }
    ensures front { IsFrontOf out.old.bytes out.new.bytes }
{
    push(out, &[count as u8])
}

#[tactic(auto, using(crate::proofs::Fronts::goes_on))]
fn put_listed(out: &mut Buf, legs: &[Leg], orders: &[Order]) -> Result<(), Memory>
    requires each_leg { All IsLeg legs.now }
    requires few_legs { length legs.now ≤ 255 }
    requires few_orders { length orders.now ≤ 255 }
    ensures ok { OnOk result (out.new.bytes ≡ out.old.bytes ++ listed_bytes leg_bytes legs.now ++ listed_bytes order_bytes orders.now) }
    ensures room { WritesInRoom (listed_bytes leg_bytes legs.now ++ listed_bytes order_bytes orders.now) out.old.spare out.new.spare result }
    ensures front { IsFrontOf out.old.bytes out.new.bytes }
{
    put_count(out, legs.len())?;
    put_legs(out, legs)?;
    put_count(out, orders.len())?;
    put_orders(out, orders)
}

#[tactic(auto, unfolding(crate::specs::Spelling::long_bytes))]
fn put_text(out: &mut Buf, text: &[u8]) -> Result<(), Memory>
    requires { length text.now ≤ most_text }
    ensures ok { OnOk result (out.new.bytes ≡ out.old.bytes ++ long_bytes text.now) }
    ensures room { WritesInRoom (long_bytes text.now) out.old.spare out.new.spare result }
    ensures front { IsFrontOf out.old.bytes out.new.bytes }
{
    push_all(out, &[&(text.len() as u32).to_be_bytes(), text])
}

#[tactic(auto, using(crate::proofs::Fronts::goes_on))]
fn put_front(out: &mut Buf, e: &Entry) -> Result<(), Memory>
    ensures ok { OnOk result (out.new.bytes ≡ out.old.bytes ++ 0 ∷ front_bytes e.now) }
    ensures room { WritesInRoom (0 ∷ front_bytes e.now) out.old.spare out.new.spare result }
    ensures front { IsFrontOf out.old.bytes out.new.bytes }
    ensures fits { OnOk result (IsOutcome e.now.outcome) }
{
    put_stamp(out, e)?;
    put_fate(out, e)
}

#[tactic(auto, using(crate::proofs::Fronts::goes_on))]
fn put_back(out: &mut Buf, e: &Entry) -> Result<(), Memory>
    requires { HasShape e.now.pay }
    ensures ok { OnOk result (out.new.bytes ≡ out.old.bytes ++ back_bytes e.now) }
    ensures room { WritesInRoom (back_bytes e.now) out.old.spare out.new.spare result }
    ensures front { IsFrontOf out.old.bytes out.new.bytes }
{
    put_listed(out, e.pay.legs.as_slice(), e.pay.orders.as_slice())?;
    put_text(out, e.pay.text.bytes())
}

#[tactic(auto, using(crate::proofs::Fronts::goes_on))]
fn put_record(out: &mut Buf, e: &Entry) -> Result<(), Memory>
    requires { HasShape e.now.pay }
    ensures ok { OnOk result (out.new.bytes ≡ out.old.bytes ++ entry_bytes e.now) }
    ensures room { WritesInRoom (entry_bytes e.now) out.old.spare out.new.spare result }
    ensures front { IsFrontOf out.old.bytes out.new.bytes }
    ensures fits { OnOk result (IsOutcome e.now.outcome) }
{
    put_front(out, e)?;
    put_back(out, e)
}

/// Adds the record of an entry.
///
/// It needs no memory where there is room for the record, and takes no more room than the record's bytes. Where memory runs
/// out, the buffer's bytes are as before. A record has at most 1,048,576 bytes. `e` has the shape of a pay, and its day is one of
/// 1980 to 2079.
#[tactic(auto, using(crate::proofs::laws::Records::few_bytes))]
pub fn put_entry(e: &Entry, out: &mut Buf) -> Result<(), Memory>
    requires shape { HasShape e.now.pay }
    requires day { InCentury e.now.day }
    ensures ok { OnOk result (out.new.bytes ≡ out.old.bytes ++ entry_bytes e.now) }
    ensures succeeds { length (entry_bytes e.now) ≤ out.old.spare → IsOk result }
    ensures room { length (entry_bytes e.now) ≤ out.old.spare → out.old.spare ≤ out.new.spare + length (entry_bytes e.now) }
    ensures entry { OnOk result (IsEntry e.now) }
    ensures few { length (entry_bytes e.now) ≤ most_record_bytes }
    ensures err { OnErr result (out.new.bytes ≡ out.old.bytes) }
{
    let before = out.bytes().len();
    let written = put_record(out, e);
    if written.is_err() {
        out.truncate(before);
    }
    written
}
