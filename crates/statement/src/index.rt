//! An index of a history by its accounts.

ghost use Rattle.std.specs.Prelude.{◌≡◌, ◌<◌, ◌≤◌, ◌-◌, ◌&&◌, not, None, if◌then◌else◌, [], ◌∷◌, ◌++◌, true, All, IfOk, OnErr, OnOk, Some, length, map, slice_get};
ghost use Rattle.corr_ids.specs.Day.{InCentury};
ghost use Rattle.corr_money.specs.Amounts.{amount_end};
ghost use Rattle.day_model.specs.Balance.{balance_of, is_booked};
ghost use Rattle.day_model.specs.Chart.{HasCode, IsChart, IsListed, accounts_of};
ghost use Rattle.day_model.specs.Legal.{IsLegal};
ghost use Rattle.pay_returns.specs.Opposite.{credit_notice, debit_notice, origin_of, told_of};
ghost use Rattle.pay_returns.specs.References.{IsByteQuote};
ghost use Rattle.statement.specs.Index.{AreLedgersOf, HasAccount, IsIndexOf, TakesNext, grown, is_next_return, ledger_with, movement_of};
ghost use Rattle.statement.specs.inner.Index.{IsOnAccount, bookings_of};
ghost use Rattle.statement.specs.Legs.{HasQuotes, before_day, legs_on};
ghost use Rattle.statement.specs.Lines.{lines_on, up_to_day};
ghost use Rattle.statement.specs.Running.{placed_by};
ghost use Rattle.statement.specs.Seen.{SeenBook};

use crate::ledger::{Booking, Ledger, at, day_after, push_each};
use crate::movement::Movement;
use corr_ids::{Bic, Day};
use corr_text::{List, Memory};
use day_model::{Accounts, AcctNo, Entry, History, Kind, Leg, Order, Outcome};
use pay_returns::{Notices, Origin, first_credit, is_opposite, named_place, quote_text};
use std::alloc::Global;

/// An index of a history: for each account its booked legs in their order, each with the balance after it. So a statement goes
/// through the legs of its account, and not through the whole history.
///
/// Contracts see whose index it is by `IsIndexOf`: of which accounts, and of which entries.
#[derive(Debug, Drop)]
pub struct HistoryIndex {
    alloc: Global,
    home: Bic,
    ledgers: Vec<Ledger>,
    // at each place what a return would take over, if a payment stands there
    payments: Vec<Option<Origin>>,
    entries: u32,
}

/// A ledger without movements for each account.
fn ledgers(alloc: Global, a: &Accounts) -> Result<Vec<Ledger>, Memory>
    ensures value { IfOk result (λ ledgers. ledgers.items ≡ map (λ account. ledger_with account []) (accounts_of a.now)) }
    ensures sound { IsChart a.now }
    ensures codes { OnOk result (All HasCode (accounts_of a.now)) }
{
    let mut ledgers = Vec::new(alloc);
    for n in 0..a.count() {
        ledgers.push(Ledger::new(alloc, a.get(AcctNo(n + 1)))?)?;
    }
    Ok(ledgers)
}

/// What a return takes over from an entry; none of one that isn't booked, or is a return itself.
fn payment_of(alloc: Global, e: &Entry, returned: bool) -> Result<Option<Origin>, Memory>
    ensures { IfOk result (λ payment. payment ≡ if is_booked e.now.outcome && not returned then Some (origin_of e.now) else None) }
{
    match e.outcome {
        Outcome::Booked if !returned => Ok(Some(Origin::of(alloc, e)?)),
        _ => Ok(None),
    }
}

impl HistoryIndex {
    /// The index of a history that is legal for the accounts. `Memory`: there was no room for it.
    pub fn new(alloc: Global, a: &Accounts, h: &History) -> Result<HistoryIndex, Memory>
        requires legal { IsLegal a.now h.now.entries }
        ensures { IfOk result (λ ix. IsIndexOf ix (record { chart = a.now; entries = h.now.entries })) }
    {
        let mut index = HistoryIndex {
            alloc,
            home: *a.home(),
            ledgers: ledgers(alloc, a)?,
            payments: Vec::new(alloc),
            entries: 0,
        };
        for at in 0..h.len() {
            index.add(h.get(at + 1))?;
        }
        Ok(index)
    }

    /// The bank that is told of a leg of a return: the owner of its account, if that is a vostro account.
    fn told_of(&self, leg: &Leg) -> Option<Bic>
        requires from_one { 0 < leg.now.account.0 }
        requires there { leg.now.account.0 - 1 < length self.now.ledgers.items }
        ensures { (book : SeenBook) → IsIndexOf self.now book → result ≡ told_of book.chart leg.now }
    {
        let ledger = self.ledger(leg.account);
        if ledger.kind == Kind::Vostro.letter() {
            Some(ledger.owner)
        } else {
            None
        }
    }

    fn credit_notice(&self, legs: &[Leg]) -> Option<Order>
        requires listed { All (λ leg. IsOnAccount (length self.now.ledgers.items) leg) legs.now }
        requires few { length legs.now ≤ 3 }
        ensures { (book : SeenBook) → IsIndexOf self.now book → result ≡ credit_notice book.chart legs.now }
    {
        let at = first_credit(legs)?;
        let to = self.told_of(&legs[at])?;
        Some(Order::Credit {
            to,
            leg: at as u8 + 1,
        })
    }

    fn debit_notice(&self, legs: &[Leg]) -> Option<Order>
        requires { All (λ leg. IsOnAccount (length self.now.ledgers.items) leg) legs.now }
        ensures { (book : SeenBook) → IsIndexOf self.now book → result ≡ debit_notice book.chart legs.now }
    {
        match legs {
            [] => None,
            [first, ..] => {
                let to = self.told_of(first)?;
                Some(Order::Debit { to, leg: 1 })
            }
        }
    }

    /// Whether the next entry takes a payment back.
    fn takes_back(&self, e: &Entry) -> bool
        requires { (book : SeenBook) × TakesNext self.now e.now book }
        ensures { (book : SeenBook) → TakesNext self.now e.now book → result ≡ is_next_return book.chart book.entries e.now }
    {
        let Some(place) = named_place(&e.pay) else {
            return false;
        };
        if place == 0 || place > self.entries as u64 {
            return false;
        }
        let Some(origin) = &self.payments[place as usize - 1] else {
            return false;
        };
        let legs = e.pay.legs.as_slice();
        let notices = Notices {
            credit: self.credit_notice(legs),
            debit: self.debit_notice(legs),
        };
        is_opposite(&self.home, origin.lend(), place as u32, &e.pay, notices)
    }

    /// A leg of the next entry, the only one on its account, with the balance after it.
    fn movement(&self, e: &Entry, returned: bool, leg: &Leg) -> Result<Movement, Memory>
        requires next { (book : SeenBook) × TakesNext self.now e.now book × IsListed book.chart leg.now.account.0 }
        requires returned { (book : SeenBook) → TakesNext self.now e.now book → returned ≡ is_next_return book.chart book.entries e.now }
        requires only { legs_on leg.now.account.0 e.now ≡ leg.now ∷ [] }
        requires amount { leg.now.amount.0 < amount_end }
        ensures quote { OnOk result (IsByteQuote leg.now.quote) }
        ensures value { IfOk result (λ m. (book : SeenBook) → TakesNext self.now e.now book → m ≡ movement_of book.chart leg.now.account.0 book.entries e.now leg.now) }
    {
        let place = self.entries + 1;
        Ok(Movement {
            place,
            day: e.day,
            value: e.pay.value,
            mt: e.pay.mt,
            side: leg.side,
            returned,
            amount: leg.amount,
            reference: quote_text(self.alloc, place, &leg.quote)?,
            balance: self.ledger(leg.account).balance_with(leg),
        })
    }

    /// What a booked entry moves: a movement for each of its legs, in their order.
    fn bookings(&self, e: &Entry, returned: bool) -> Result<List<Booking>, Memory>
        requires next { (book : SeenBook) × TakesNext self.now e.now book }
        requires returned { (book : SeenBook) → TakesNext self.now e.now book → returned ≡ is_next_return book.chart book.entries e.now }
        requires booked { is_booked e.now.outcome ≡ true }
        ensures value { IfOk result (λ bookings. (book : SeenBook) → TakesNext self.now e.now book → bookings ≡ bookings_of book.chart book.entries e.now e.now.pay.legs) }
        ensures quotes { OnOk result (HasQuotes e.now) }
    {
        let mut bookings = List::new(self.alloc);
        for leg in e.pay.legs.as_slice() {
            bookings.push(Booking {
                account: leg.account,
                movement: self.movement(e, returned, leg)?,
            })?;
        }
        Ok(bookings)
    }

    /// The legs of a booked entry, which are on distinct accounts.
    fn book(&mut self, e: &Entry, returned: bool) -> Result<(), Memory>
        requires next { (book : SeenBook) × TakesNext self.old e.now book }
        requires returned { (book : SeenBook) → TakesNext self.old e.now book → returned ≡ is_next_return book.chart book.entries e.now }
        requires booked { is_booked e.now.outcome ≡ true }
        ensures ok { OnOk result ((book : SeenBook) → TakesNext self.old e.now book → AreLedgersOf self.new.ledgers.items book.chart (book.entries ++ e.now ∷ [])) }
        ensures quotes { OnOk result (HasQuotes e.now) }
        ensures err { OnErr result (self.new.ledgers.items ≡ self.old.ledgers.items) }
        ensures home { self.new.home ≡ self.old.home }
        ensures payments { self.new.payments ≡ self.old.payments }
        ensures count { self.new.entries ≡ self.old.entries }
    {
        let bookings = self.bookings(e, returned)?;
        push_each(&mut self.ledgers, bookings)
    }

    /// Adds the next entry of the history, which stays legal with it. Where memory runs out, the index is as it was.
    pub fn add(&mut self, e: &Entry) -> Result<(), Memory>
        requires { (book : SeenBook) × TakesNext self.old e.now book }
        ensures ok { OnOk result ((book : SeenBook) → TakesNext self.old e.now book → IsIndexOf self.new (grown book e.now)) }
        ensures err { OnErr result ((book : SeenBook) → IsIndexOf self.old book → IsIndexOf self.new book) }
    {
        let returned = self.takes_back(e);
        let payment = payment_of(self.alloc, e, returned)?;
        self.payments.reserve(1)?;
        match e.outcome {
            Outcome::Booked => self.book(e, returned)?,
            Outcome::Unfunded { .. } => {}
        }
        self.payments.push_reserved(payment);
        self.entries += 1;
        Ok(())
    }

    /// What the index keeps of an account.
    pub(crate) fn ledger(&self, n: AcctNo) -> &Ledger
        requires from_one { 0 < n.0 }
        requires there { n.0 - 1 < length self.now.ledgers.items }
        ensures { slice_get self.now.ledgers.items (n.0 - 1) ≡ Some result.now }
    {
        &self.ledgers[at(n)]
    }

    /// The home bank.
    pub(crate) fn home(&self) -> &Bic
        ensures { result.now ≡ self.now.home }
    {
        &self.home
    }

    /// The allocator.
    pub(crate) fn alloc(&self) -> Global {
        self.alloc
    }

    /// The balance of an account of the index by the entries of earlier days, in minor units. Takes no memory.
    pub fn balance_before(&self, n: AcctNo, day: Day) -> i64
        requires { (book : SeenBook) × HasAccount self.now n.0 book }
        ensures { (book : SeenBook) → HasAccount self.now n.0 book → result ≡ balance_of book.chart (before_day day book.entries) n.0 }
    {
        self.ledger(n).balance_before(day)
    }

    /// The balance of an account of the index by the entries up to and on a day of 1980 to 2079, in minor units. Takes no memory.
    pub fn balance_up_to(&self, n: AcctNo, day: Day) -> i64
        requires account { (book : SeenBook) × HasAccount self.now n.0 book }
        requires day { InCentury day }
        ensures { (book : SeenBook) → HasAccount self.now n.0 book → result ≡ balance_of book.chart (up_to_day day book.entries) n.0 }
    {
        self.ledger(n).balance_before(day_after(day))
    }

    /// What is booked on an account of the index on a day of 1980 to 2079, in the order of the journal. Takes no memory.
    pub fn booked_on(&self, n: AcctNo, day: Day) -> &[Movement]
        requires account { (book : SeenBook) × HasAccount self.now n.0 book }
        requires day { InCentury day }
        ensures { (book : SeenBook) → HasAccount self.now n.0 book → map placed_by result.now ≡ lines_on book.chart n.0 day book.entries }
    {
        self.ledger(n).on(day)
    }
}
