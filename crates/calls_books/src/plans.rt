//! The pay of a transfer, and the charge that is taken out of it.

ghost use Rattle.std.specs.Prelude.{◌≡◌, ◌≤◌, IfOk, Some, length};
ghost use Rattle.pay_plan.specs.Readable.{IsTransferRead};

use crate::given::{FIRST, HOME, OTHER, bank_and_customer, bank_customer_and_fees};
use corr_ids::{Envelope, Mir};
use corr_money::Minor;
use corr_text::{Code, List, Text};
use day_model::{Accounts, AcctNo, Pay};
use fin_fields::{Field, FieldFault, cut_fields};
use mt103::{Mt103, read_mt103};
use pay_plan::{Ask, Charge, Charged, P39, P40, PlanFault, accounts_of, asked_of, pay_on, plan};
use ref_tables::{Charges, RefTables, TableFault, read_charges, read_tables};
use ssi_versions::Ssi;
use std::alloc::Global;
use std::test::Fail;

fn envelope(mir: Mir) -> Envelope
    ensures { result.mir ≡ Some mir }
{
    Envelope {
        mir: Some(mir),
        sender: OTHER,
        receiver: HOME,
        uetr: None,
    }
}

// Generic, so that a large value is let go as one.
fn let_go<M: Drop>(_m: M) {}

#[tactic(auto, using(fin_fields::proofs::laws::Bounds::lines_few))]
fn cut(alloc: Global, text: &[u8]) -> Result<List<Field>, FieldFault>
    ensures { IfOk result (λ fields. length fields ≤ 1000) }
{
    if text.len() > 1000 {
        return Err(FieldFault::Memory);
    }
    let fields = cut_fields(alloc, text)?;
    if fields.as_slice().len() > 1000 {
        return Err(FieldFault::Memory);
    }
    Ok(fields)
}

fn read(alloc: Global, tables: &RefTables, text: &Text) -> Result<Mt103, Fail>
    ensures { IfOk result (IsTransferRead tables.now) }
{
    let fields = cut(alloc, text.bytes())?;
    match read_mt103(alloc, fields.as_slice(), tables) {
        Ok(m) => Ok(m),
        Err(_) => Err("no transfer")?,
    }
}

// What a transfer is planned with.
#[derive(Drop)]
struct Desk {
    tables: RefTables,
    ssi: Ssi,
    charges: Charges,
    book: Accounts,
}

// Tables of one currency. Promises nothing, so that a desk is cheap to prove; likewise the next two.
fn tables(alloc: Global) -> Result<RefTables, TableFault> {
    read_tables(alloc, b"", b"EUR,2\n", b"")
}

fn instructions(alloc: Global, tables: &RefTables) -> Result<Ssi, TableFault> {
    Ssi::read(alloc, b"", tables)
}

fn charges(alloc: Global, tables: &RefTables, file: &[u8]) -> Result<Charges, TableFault> {
    read_charges(alloc, file, tables)
}

fn open_desk(alloc: Global, book: Accounts, charged: &[u8]) -> Result<Desk, Fail> {
    let tables = tables(alloc)?;
    let ssi = instructions(alloc, &tables)?;
    let charges = charges(alloc, &tables, charged)?;
    Ok(Desk {
        tables,
        ssi,
        charges,
        book,
    })
}

// A desk that charges 0,05, with an account for it.
fn charging(alloc: Global) -> Result<Desk, Fail> {
    open_desk(alloc, bank_customer_and_fees(alloc)?, b"EUR,5\n")
}

// The pay of a transfer. Promises nothing, so that the test carries none of what a plan is.
fn planned(alloc: Global, desk: &Desk, m: &Mt103, text: &Text) -> Result<Pay, PlanFault>
    requires { IsTransferRead desk.now.tables m.now }
{
    plan(
        alloc,
        &envelope(FIRST),
        text,
        Ask::Transfer(m),
        &desk.ssi,
        &desk.book,
        &desk.charges,
    )
}

// The accounts of a transfer and its charge. Promises nothing.
fn accounts(desk: &Desk, m: &Mt103) -> Result<Charged, Code> {
    let ask = Ask::Transfer(m);
    let asked = asked_of(desk.book.home(), ask);
    accounts_of(
        &envelope(FIRST),
        ask,
        &asked,
        &desk.ssi,
        &desk.book,
        &desk.charges,
    )
}

// The same pay, first its accounts and then the pay on them. Promises nothing.
fn planned_apart(alloc: Global, desk: &Desk, m: &Mt103, text: &Text) -> Result<Pay, PlanFault>
    requires { IsTransferRead desk.now.tables m.now }
{
    let ask = Ask::Transfer(m);
    let asked = asked_of(desk.book.home(), ask);
    let envelope = envelope(FIRST);
    let charged = accounts_of(&envelope, ask, &asked, &desk.ssi, &desk.book, &desk.charges)?;
    let lines = text.copy(alloc)?;
    Ok(pay_on(alloc, FIRST, &envelope, lines, &asked, &charged, &desk.book)?)
}

// A transfer of 1,00 to account C, whose charges somebody bears.
fn transfer(alloc: Global, whose: &[u8]) -> Result<Text, Fail> {
    let mut text = Text::from_bytes(alloc, b":20:R\n:23B:CRED\n:32A:240603EUR1,\n:50K:P\n")?;
    text.push(b":59:/C\nQ\n:71A:")?;
    text.push(whose)?;
    text.push(b"\n")?;
    Ok(text)
}

// The legs of the transfer of a text, and the messages that are sent on.
fn counts(alloc: Global, desk: &Desk, text: &Text) -> Result<(usize, usize), Fail> {
    let m = read(alloc, &desk.tables, text)?;
    let pay = planned(alloc, desk, &m, text);
    let apart = planned_apart(alloc, desk, &m, text);
    let_go(m);
    let pay = pay?;
    if apart?.legs.as_slice().len() != pay.legs.as_slice().len() {
        return Err("a transfer has two plans")?;
    }
    Ok((pay.legs.as_slice().len(), pay.orders.as_slice().len()))
}

// The amounts of the legs of a transfer whose charges somebody bears: none where it has no such leg.
fn amounts(alloc: Global, desk: &Desk, whose: &[u8]) -> Result<[Option<Minor>; 3], Fail> {
    let text = transfer(alloc, whose)?;
    let m = read(alloc, &desk.tables, &text)?;
    let pay = planned(alloc, desk, &m, &text);
    let_go(m);
    let pay = pay?;
    let legs = pay.legs.as_slice();
    let amount = |place: usize| legs.get(place).map(|leg| leg.amount);
    Ok([amount(0), amount(1), amount(2)])
}

// The charge of a transfer under SHA, or why there is none that can be taken.
fn charge(alloc: Global, desk: &Desk) -> Result<Result<Option<Charge>, Code>, Fail> {
    let text = transfer(alloc, b"SHA")?;
    let m = read(alloc, &desk.tables, &text)?;
    let charged = accounts(desk, &m);
    let_go(m);
    Ok(charged.map(|charged| charged.charge))
}

#[test]
fn a_transfer_is_planned(rt: HostRuntime) -> Result<(), Fail> {
    let desk = open_desk(rt.alloc(), bank_and_customer(rt.alloc())?, b"")?;
    let text = transfer(rt.alloc(), b"SHA")?;
    assert_eq!(rt; counts(rt.alloc(), &desk, &text)?, (2, 1));
    Ok(())
}

#[test]
fn a_charge_is_taken_out_of_a_transfer(rt: HostRuntime) -> Result<(), Fail> {
    let desk = charging(rt.alloc())?;
    let text = transfer(rt.alloc(), b"SHA")?;
    assert_eq!(rt; counts(rt.alloc(), &desk, &text)?, (3, 1));
    let want = Charge {
        account: AcctNo(3),
        amount: Minor(5),
    };
    assert_eq!(rt; charge(rt.alloc(), &desk)?, Ok(Some(want)));
    Ok(())
}

#[test]
fn the_payer_alone_is_charged_nothing(rt: HostRuntime) -> Result<(), Fail> {
    let desk = charging(rt.alloc())?;
    let taken = [Some(Minor(100)), Some(Minor(95)), Some(Minor(5))];
    assert_eq!(rt; amounts(rt.alloc(), &desk, b"SHA")?, taken);
    assert_eq!(rt; amounts(rt.alloc(), &desk, b"BEN")?, taken);
    let whole = [Some(Minor(100)), Some(Minor(100)), None];
    assert_eq!(rt; amounts(rt.alloc(), &desk, b"OUR")?, whole);
    Ok(())
}

#[test]
fn a_charge_that_is_not_taken_has_its_code(rt: HostRuntime) -> Result<(), Fail> {
    let large = open_desk(
        rt.alloc(),
        bank_customer_and_fees(rt.alloc())?,
        b"EUR,100\n",
    )?;
    assert_eq!(rt; charge(rt.alloc(), &large)?, Err(P39));
    let nowhere = open_desk(rt.alloc(), bank_and_customer(rt.alloc())?, b"EUR,5\n")?;
    assert_eq!(rt; charge(rt.alloc(), &nowhere)?, Err(P40));
    Ok(())
}
