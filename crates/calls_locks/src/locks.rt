//! Account locks: purses taken in rising order, also by two threads, and totals that agree with the sides. Each test that waits for locks
//! is watched, so that it fails where it would wait for ever.

ghost use Rattle.std.specs.Prelude.{◌≡◌, ◌<◌, ◌≤◌, [], length, IfOk};
ghost use Rattle.day_model.specs.Chart.{accounts_of};
ghost use Rattle.day_model.specs.Legal.{IsLegal};
ghost use Rattle.acct_locks.specs.Holdings.{Holds};

use acct_locks::{BookSides, Held, Loose, Name, Purses};
use corr_ids::{Bic, Day, Mir};
use corr_money::{Ccy, Minor};
use corr_text::{List, Memory, Text};
use day_model::{
    Account, Accounts, AcctNo, Entry, History, Leg, Mt, Pay, Quote, Side, decide, rows_hold,
};
use std::alloc::Global;
use std::marker::{Brand, PhantomData};
use std::process::Abort;
use std::sync::atomic::AtomicBool;
use std::sync::atomic::Ordering::SeqCst;
use std::sync::{Mutex, Wait};
use std::test::*;
use std::thread::{Threads, join, sleep, yield_now};
use std::time::{Clock, Duration};

fn bic(head: [u8; 8]) -> Bic {
    Bic {
        head,
        branch: *b"XXX",
    }
}

fn customer(alloc: Global, id: &[u8]) -> Result<Account, Memory> {
    Ok(Account {
        id: Text::from_bytes(alloc, id)?,
        kind: b'C',
        owner: bic(*b"HOMEUS33"),
        ccy: Ccy(*b"EUR"),
        decimals: 2,
        floor: -90_000_000,
        ceil: 90_000_000,
        opening: 0,
    })
}

fn three_accounts<R: Abort>(rt: &R, alloc: Global) -> Result<Accounts, Fail>
    ensures count { IfOk result (λ a. length (accounts_of a) ≡ 3) }
    ensures unchanged { IfOk result (λ a. a.changes ≡ []) }
{
    let mut rows = List::new(alloc);
    for id in [b"CUST1", b"CUST2", b"CUST3"] {
        rows.push(customer(alloc, id)?)?;
    }
    assert!(rt; rows_hold(rows.as_slice()));
    let accounts = Accounts::new(bic(*b"HOMEUS33"), rows)?;
    assert!(rt; accounts.count() == 3);
    Ok(accounts)
}

pub(crate) fn leg(account: u32, side: Side, amount: u64) -> Leg
    ensures { (result.account.0 ≡ account) × (result.side ≡ side) × (result.amount.0 ≡ amount) }
{
    Leg {
        account: AcctNo(account),
        side,
        amount: Minor(amount),
        quote: Quote::Ours(1),
    }
}

fn pay(alloc: Global, debit: u32, credit: u32, amount: u64) -> Result<Pay, Memory> {
    let mut legs = List::new(alloc);
    legs.push(leg(debit, Side::Debit, amount))?;
    legs.push(leg(credit, Side::Credit, amount))?;
    Ok(Pay {
        mir: Mir(*b"240603BETAFRPPAXXX0001000001"),
        mt: Mt::Transfer,
        uetr: None,
        text: Text::from_bytes(alloc, b"-")?,
        value: Day(19_877),
        legs,
        orders: List::new(alloc),
    })
}

// 250.00 from account 1 to account 2.
#[tactic(auto, using(day_model::proofs::laws::Growth::legal_here, crate::proofs::Entering::first_entry))]
fn one_entry<R: Abort>(rt: &R, alloc: Global, a: &Accounts) -> Result<History, Fail>
    requires unchanged { a.now.changes ≡ [] }
    ensures { IfOk result (λ h. IsLegal a.now h.entries) }
{
    let mut history = History::new(alloc);
    let pay = pay(alloc, 1, 2, 25_000)?;
    assert!(rt; a.fits(&pay));
    let outcome = decide(a, &history, &pay);
    history.push(Entry {
        pay,
        day: Day(19_877),
        outcome,
    })?;
    Ok(history)
}

pub(crate) fn opened<R: Abort>(rt: &R, alloc: Global) -> Result<(Loose, BookSides), Fail>
    ensures { IfOk result (λ r. (r.0.table ≡ r.1.table) × (length r.0.purses ≡ 3)) }
{
    let accounts = three_accounts(rt, alloc)?;
    let history = one_entry(rt, alloc, &accounts)?;
    let parts = Loose::new(alloc, &accounts, &history)?;
    Ok(parts)
}

// The sides under a lock, of the table that N names.
#[derive(Drop)]
pub(crate) struct Desk<N: Name> {
    sides: BookSides,
    of: PhantomData<N>,
    ghost named: { sides.table ≡ N.table },
}

impl<N: Name> Desk<N> {
    pub(crate) fn new(sides: BookSides) -> Desk<N>
        requires { sides.table ≡ N.table }
    {
        Desk {
            sides,
            of: PhantomData,
        }
    }

    pub(crate) fn agree<H: Held>(&mut self, held: &mut H, n: AcctNo)
        requires held { Holds (H.held held.old) n.0 }
        requires table { H.table held.old ≡ N.table }
        ensures { (H.held held.new ≡ H.held held.old) × (H.table held.new ≡ H.table held.old) }
    {
        held.agree(&mut self.sides, n);
    }
}

// How many milliseconds a thread waits for a sign that another gives.
const PATIENCE: u32 = 20_000;

// Whether a sign is given while a thread waits for it.
fn is_given(clock: &impl Clock, sign: &AtomicBool) -> bool {
    for _ in 0..PATIENCE {
        if sign.load(SeqCst) {
            return true;
        }
        sleep(clock, Duration::from_millis(1));
    }
    false
}

// Lets a thread do some work. Where it doesn't come to its end, the other thread ends the program.
pub(crate) fn watched<T: Send, F: FnOnce() -> T + Send, R: Threads + Abort + Clock + Sync>(
    rt: &R,
    work: F,
) -> T
    requires { F.pre work }
    ensures { F.post work result }
{
    let done = AtomicBool::new(false);
    let sign = &done;
    let (answer, ()) = join(
        rt,
        move || -> T
            requires { F.pre work }
            ensures { F.post work result }
        {
            let answer = work();
            sign.store(true, SeqCst);
            answer
        },
        || { assert!(rt; is_given(rt, &done)) },
    );
    answer
}

fn take_two<N: Name>(
    rt: &impl Wait,
    purses: &Purses<N>,
    desk: &Mutex<Desk<N>>,
    low: AcctNo,
    high: AcctNo,
) -> bool
    requires { (0 < low.0) × (low.0 < high.0) × (high.0 ≤ purses.now) }
{
    let mut held = purses.hold().take(rt, low).take(rt, high);
    let before = (held.totals(low), held.totals(high));
    desk.lock(rt).agree(&mut held, low);
    desk.lock(rt).agree(&mut held, high);
    let same = (held.totals(low), held.totals(high)) == before;
    held.give_back();
    same
}

// The totals of all three accounts, which are held together.
fn all_totals<N: Name>(rt: &impl Wait, purses: &Purses<N>) -> [(u64, u64); 3]
    requires { purses.now ≡ 3 }
{
    let held = purses
        .hold()
        .take(rt, AcctNo(1))
        .take(rt, AcctNo(2))
        .take(rt, AcctNo(3));
    let all = [
        held.totals(AcctNo(1)),
        held.totals(AcctNo(2)),
        held.totals(AcctNo(3)),
    ];
    held.give_back();
    all
}

// Each of two threads takes two accounts in rising order, and then the sides; then one takes all three. Whether the totals stayed, and
// what they are.
fn take_at_once<N: Name + Send + Sync, R: Threads + Wait + Sync>(
    rt: &R,
    purses: &Purses<N>,
    desk: &Mutex<Desk<N>>,
) -> (bool, [(u64, u64); 3])
    requires { purses.now ≡ 3 }
{
    let (one, two) = join(
        rt,
        || -> bool
            requires { purses.now ≡ 3 }
        { take_two(rt, purses, desk, AcctNo(1), AcctNo(2)) },
        || -> bool
            requires { purses.now ≡ 3 }
        { take_two(rt, purses, desk, AcctNo(2), AcctNo(3)) },
    );
    (one && two, all_totals(rt, purses))
}

fn in_two_threads<N: Name + Send + Sync, R: Threads + Wait + Abort + Clock + Sync>(
    rt: &R,
    alloc: Global,
    loose: Loose,
    sides: BookSides,
) -> Result<(), Fail>
    requires { (loose.table ≡ N.table) × (sides.table ≡ N.table) × (length loose.purses ≡ 3) }
{
    let purses = loose.lock::<N>(alloc)?;
    let desk = Mutex::new(Desk::<N>::new(sides));
    let (same, totals) = watched(
        rt,
        || -> (bool, [(u64, u64); 3])
            requires { purses ≡ 3 }
        { take_at_once(rt, &purses, &desk) },
    );
    assert!(rt; same);
    assert_eq!(rt; totals, [(0, 25_000), (25_000, 0), (0, 0)]);
    Ok(())
}

#[test]
fn two_threads_take_two_accounts_each(rt: HostRuntime) -> Result<(), Fail> {
    let (loose, sides) = opened(&rt, rt.alloc())?;
    in_two_threads::<Brand, _>(&rt, rt.alloc(), loose, sides)
}

// The totals of accounts 1 and 2 before 700 go from one to the other, and then.
fn settle_pair<N: Name>(rt: &impl Wait, purses: &Purses<N>, mut sides: BookSides) -> [(u64, u64); 4]
    requires { (purses.now ≡ 3) × (sides.table ≡ N.table) }
{
    let mut held = purses.hold().take(rt, AcctNo(1)).take(rt, AcctNo(2));
    let before = (held.totals(AcctNo(1)), held.totals(AcctNo(2)));
    if before != ((0, 25_000), (25_000, 0)) {
        held.give_back();
        return [before.0, before.1, (0, 0), (0, 0)];
    }
    let legs = [leg(1, Side::Debit, 700), leg(2, Side::Credit, 700)];
    held.settle(&mut sides, &legs);
    held.agree(&mut sides, AcctNo(1));
    held.agree(&mut sides, AcctNo(2));
    let after = (held.totals(AcctNo(1)), held.totals(AcctNo(2)));
    held.give_back();
    [before.0, before.1, after.0, after.1]
}

fn settled<N: Name + Send + Sync, R: Threads + Wait + Abort + Clock + Sync>(
    rt: &R,
    alloc: Global,
    loose: Loose,
    sides: BookSides,
) -> Result<(), Fail>
    requires { (loose.table ≡ N.table) × (sides.table ≡ N.table) × (length loose.purses ≡ 3) }
{
    let purses = loose.lock::<N>(alloc)?;
    let totals = watched(
        rt,
        || -> [(u64, u64); 4]
            requires { (purses ≡ 3) × (sides.table ≡ N.table) }
        { settle_pair(rt, &purses, sides) },
    );
    assert_eq!(rt;
        totals,
        [(0, 25_000), (25_000, 0), (0, 25_700), (25_700, 0)]
    );
    Ok(())
}

#[test]
fn a_debit_and_a_credit_are_settled(rt: HostRuntime) -> Result<(), Fail> {
    let (loose, sides) = opened(&rt, rt.alloc())?;
    settled::<Brand, _>(&rt, rt.alloc(), loose, sides)
}

// Whether each of two threads is inside an account.
#[derive(Drop)]
struct Inside {
    first: AtomicBool,
    third: AtomicBool,
}

// Whether nobody else was inside on the way in, nor came in before the way out.
pub(crate) fn is_alone(inside: &AtomicBool) -> bool {
    let entered = !inside.swap(true, SeqCst);
    yield_now();
    inside.swap(false, SeqCst) && entered
}

// How often each of two threads takes the same accounts.
const ROUNDS: u32 = 1000;

// Holds account 1, then 3, each alone; account 2 is free meanwhile.
fn hold_one<N: Name>(rt: &impl Wait, purses: &Purses<N>, inside: &Inside) -> bool
    requires { purses.now ≡ 3 }
{
    for _ in 0..ROUNDS {
        let one = purses.hold().take(rt, AcctNo(1));
        purses.hold().take(rt, AcctNo(2)).give_back();
        let first = is_alone(&inside.first);
        one.give_back();
        let one = purses.hold().take(rt, AcctNo(3));
        let third = is_alone(&inside.third);
        one.give_back();
        if !first || !third {
            return false;
        }
    }
    true
}

// Holds accounts 1 and 3, then all three.
fn hold_more<N: Name>(rt: &impl Wait, purses: &Purses<N>, inside: &Inside) -> bool
    requires { purses.now ≡ 3 }
{
    for _ in 0..ROUNDS {
        let two = purses.hold().take(rt, AcctNo(1)).take(rt, AcctNo(3));
        let pair = is_alone(&inside.first) && is_alone(&inside.third);
        two.give_back();
        let three = purses
            .hold()
            .take(rt, AcctNo(1))
            .take(rt, AcctNo(2))
            .take(rt, AcctNo(3));
        let all = is_alone(&inside.first) && is_alone(&inside.third);
        three.give_back();
        if !pair || !all {
            return false;
        }
    }
    true
}

// Whether two threads are each alone in an account that they hold.
fn hold_at_once<N: Name + Send + Sync, R: Threads + Wait + Sync>(
    rt: &R,
    purses: &Purses<N>,
) -> (bool, bool)
    requires { purses.now ≡ 3 }
{
    let inside = Inside {
        first: AtomicBool::new(false),
        third: AtomicBool::new(false),
    };
    join(
        rt,
        || -> bool
            requires { purses.now ≡ 3 }
        { hold_one(rt, purses, &inside) },
        || -> bool
            requires { purses.now ≡ 3 }
        { hold_more(rt, purses, &inside) },
    )
}

// An account that is held is taken by no other thread, and one that was given back is.
fn given_back<N: Name + Send + Sync, R: Threads + Wait + Abort + Clock + Sync>(
    rt: &R,
    alloc: Global,
    loose: Loose,
) -> Result<(bool, bool), Fail>
    requires { (loose.table ≡ N.table) × (length loose.purses ≡ 3) }
{
    let purses = loose.lock::<N>(alloc)?;
    purses.hold().give_back();
    let alone = watched(
        rt,
        || -> (bool, bool)
            requires { purses ≡ 3 }
        { hold_at_once(rt, &purses) },
    );
    Ok(alone)
}

#[test]
fn locks_that_are_given_back_are_free(rt: HostRuntime) -> Result<(), Fail> {
    let (loose, _) = opened(&rt, rt.alloc())?;
    let (one, more) = given_back::<Brand, _>(&rt, rt.alloc(), loose)?;
    assert!(rt; one && more);
    Ok(())
}

// Takes each account alone and gives it back, twice.
fn take_each_twice<N: Name>(rt: &impl Wait, purses: &Purses<N>)
    requires { purses.now ≡ 3 }
{
    for number in 1..4u32 {
        purses.hold().take(rt, AcctNo(number)).give_back();
        purses.hold().take(rt, AcctNo(number)).give_back();
    }
}

// A thread takes each account again that it gave back.
fn taken_twice<N: Name + Send + Sync, R: Threads + Wait + Abort + Clock + Sync>(
    rt: &R,
    alloc: Global,
    loose: Loose,
) -> Result<(), Fail>
    requires { (loose.table ≡ N.table) × (length loose.purses ≡ 3) }
{
    let purses = loose.lock::<N>(alloc)?;
    watched(
        rt,
        || -> ()
            requires { purses ≡ 3 }
        { take_each_twice(rt, &purses) },
    );
    Ok(())
}

#[test]
fn each_account_is_taken_again(rt: HostRuntime) -> Result<(), Fail> {
    let (loose, _) = opened(&rt, rt.alloc())?;
    taken_twice::<Brand, _>(&rt, rt.alloc(), loose)
}

// The totals of accounts 1 and 3 before they get the greatest that there are, and when they are taken again.
fn take_at_the_ends<N: Name>(
    rt: &impl Wait,
    purses: &Purses<N>,
    mut sides: BookSides,
) -> [(u64, u64); 4]
    requires { (purses.now ≡ 3) × (sides.table ≡ N.table) }
{
    let mut held = purses.hold().take(rt, AcctNo(1)).take(rt, AcctNo(3));
    let before = (held.totals(AcctNo(1)), held.totals(AcctNo(3)));
    if before != ((0, 25_000), (0, 0)) {
        held.give_back();
        return [before.0, before.1, (0, 0), (0, 0)];
    }
    let legs = [
        leg(1, Side::Credit, u64::MAX),
        leg(3, Side::Debit, u64::MAX),
    ];
    held.settle(&mut sides, &legs);
    held.give_back();
    let again = purses.hold().take(rt, AcctNo(1)).take(rt, AcctNo(3));
    let after = (again.totals(AcctNo(1)), again.totals(AcctNo(3)));
    again.give_back();
    [before.0, before.1, after.0, after.1]
}

// The first and the last account are taken whatever their totals are, the least and the greatest too.
fn taken_at_the_ends<N: Name + Send + Sync, R: Threads + Wait + Abort + Clock + Sync>(
    rt: &R,
    alloc: Global,
    loose: Loose,
    sides: BookSides,
) -> Result<(), Fail>
    requires { (loose.table ≡ N.table) × (sides.table ≡ N.table) × (length loose.purses ≡ 3) }
{
    let purses = loose.lock::<N>(alloc)?;
    let totals = watched(
        rt,
        || -> [(u64, u64); 4]
            requires { (purses ≡ 3) × (sides.table ≡ N.table) }
        { take_at_the_ends(rt, &purses, sides) },
    );
    assert_eq!(rt;
        totals,
        [(0, 25_000), (0, 0), (u64::MAX, 25_000), (0, u64::MAX)]
    );
    Ok(())
}

#[test]
fn purses_at_the_ends_of_their_range_are_taken(rt: HostRuntime) -> Result<(), Fail> {
    let (loose, sides) = opened(&rt, rt.alloc())?;
    taken_at_the_ends::<Brand, _>(&rt, rt.alloc(), loose, sides)
}

// The totals of account 2, which is taken after those of account 1 agreed with the sides.
fn take_after_agreeing<N: Name>(
    rt: &impl Wait,
    purses: &Purses<N>,
    mut sides: BookSides,
) -> (u64, u64)
    requires { (purses.now ≡ 3) × (sides.table ≡ N.table) }
{
    let mut one = purses.hold().take(rt, AcctNo(1));
    one.agree(&mut sides, AcctNo(1));
    let two = one.take(rt, AcctNo(2));
    let totals = two.totals(AcctNo(2));
    two.give_back();
    totals
}

// After an agreement another account can be taken still.
fn taken_after_agreeing<N: Name + Send + Sync, R: Threads + Wait + Abort + Clock + Sync>(
    rt: &R,
    alloc: Global,
    loose: Loose,
    sides: BookSides,
) -> Result<(), Fail>
    requires { (loose.table ≡ N.table) × (sides.table ≡ N.table) × (length loose.purses ≡ 3) }
{
    let purses = loose.lock::<N>(alloc)?;
    let totals = watched(
        rt,
        || -> (u64, u64)
            requires { (purses ≡ 3) × (sides.table ≡ N.table) }
        { take_after_agreeing(rt, &purses, sides) },
    );
    assert_eq!(rt; totals, (25_000, 0));
    Ok(())
}

#[test]
fn an_account_is_taken_after_an_agreement(rt: HostRuntime) -> Result<(), Fail> {
    let (loose, sides) = opened(&rt, rt.alloc())?;
    taken_after_agreeing::<Brand, _>(&rt, rt.alloc(), loose, sides)
}
