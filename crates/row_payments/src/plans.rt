//! Calls of pay_plan.

ghost use Rattle.std.specs.Prelude.{IfOk, IsSome};
ghost use Rattle.pay_plan.specs.Readable.{IsCoverRead, IsReadBy, IsTransferRead};

use crate::books::{HOME, bic, mir};
use crate::desks::{Desk, open_desk};
use crate::pays::put_pay;
use corr_ids::{Bic, Envelope, Mir};
use corr_text::Text;
use day_model::Pay;
use mt103::{Mt103, read_mt103};
use mt202cov::{Mt202Cov, read_mt202cov};
use pay_plan::{Ask, PlanFault, plan};
use ref_tables::RefTables;
use row_messages::given::{cut, let_go, text_in};
use row_words::answer::Answer;
use row_words::stop::Stop;
use row_words::words::Words;
use std::alloc::Global;

/// Makes a call, and answers whether one of these has that name.
pub fn call(name: &[u8], words: &mut Words, answer: &mut Answer) -> Result<bool, Stop> {
    match name {
        b"plan_transfer" => transfer(words, answer)?,
        b"plan_cover" => cover(words, answer)?,
        _ => return Ok(false),
    }
    Ok(true)
}

fn envelope(mir: Mir, sender: Bic) -> Envelope
    ensures { IsSome result.mir }
{
    Envelope {
        mir: Some(mir),
        sender,
        receiver: HOME,
        uetr: None,
    }
}

/// The pay of a message. Promises nothing.
fn planned(
    alloc: Global,
    desk: &Desk,
    env: &Envelope,
    text: &Text,
    ask: Ask<'_>,
) -> Result<Pay, PlanFault>
    requires read { IsReadBy desk.now.tables ask }
    requires named { IsSome env.now.mir }
{
    plan(
        alloc,
        env,
        text,
        ask,
        &desk.ssi,
        &desk.accounts,
        &desk.charges,
    )
}

/// Adds the pay of a message, or the code why it has none.
fn put_planned(planned: Result<Pay, PlanFault>, answer: &mut Answer) -> Result<(), Stop> {
    match planned {
        Ok(pay) => {
            let put = put_pay(&pay, answer);
            let_go(pay);
            Ok(put?)
        }
        Err(PlanFault::Code(code)) => Ok(answer.word(&code.0)?),
        Err(PlanFault::Memory) => Err(Stop::Memory),
    }
}

fn read_transfer(alloc: Global, tables: &RefTables, text: &Text) -> Result<Mt103, Stop>
    ensures { IfOk result (IsTransferRead tables.now) }
{
    let fields = cut(alloc, text.bytes())?;
    match read_mt103(alloc, fields.as_slice(), tables) {
        Ok(m) => Ok(m),
        Err(_) => Err(Stop::Unreadable),
    }
}

fn read_cover(alloc: Global, tables: &RefTables, text: &Text) -> Result<Mt202Cov, Stop>
    ensures { IfOk result (IsCoverRead tables.now) }
{
    let fields = cut(alloc, text.bytes())?;
    match read_mt202cov(alloc, fields.as_slice(), tables) {
        Ok(m) => Ok(m),
        Err(_) => Err(Stop::Unreadable),
    }
}

/// The pay of the transfer of a text.
fn planned_transfer(
    alloc: Global,
    desk: &Desk,
    env: &Envelope,
    text: &Text,
) -> Result<Result<Pay, PlanFault>, Stop>
    requires { IsSome env.now.mir }
{
    let m = read_transfer(alloc, &desk.tables, text)?;
    let pay = planned(alloc, desk, env, text, Ask::Transfer(&m));
    let_go(m);
    Ok(pay)
}

/// `plan_transfer DESK SENDER FIELDS`: the pay of a transfer, or the code.
fn transfer(words: &mut Words, answer: &mut Answer) -> Result<(), Stop> {
    let desk = words.next()?;
    let sender = bic(words)?;
    let text = text_in(answer.alloc(), words)?;
    let env = envelope(mir(answer.alloc(), 1)?, sender);
    let desk = open_desk(answer.alloc(), desk)?;
    put_planned(
        planned_transfer(answer.alloc(), &desk, &env, &text)?,
        answer,
    )
}

/// The pay of the cover of a text.
fn planned_cover(
    alloc: Global,
    desk: &Desk,
    env: &Envelope,
    text: &Text,
) -> Result<Result<Pay, PlanFault>, Stop>
    requires { IsSome env.now.mir }
{
    let m = read_cover(alloc, &desk.tables, text)?;
    let pay = planned(alloc, desk, env, text, Ask::Cover(&m));
    let_go(m);
    Ok(pay)
}

/// `plan_cover DESK SENDER FIELDS`: the pay of a cover, or the code.
fn cover(words: &mut Words, answer: &mut Answer) -> Result<(), Stop> {
    let desk = words.next()?;
    let sender = bic(words)?;
    let text = text_in(answer.alloc(), words)?;
    let env = envelope(mir(answer.alloc(), 1)?, sender);
    let desk = open_desk(answer.alloc(), desk)?;
    put_planned(planned_cover(answer.alloc(), &desk, &env, &text)?, answer)
}
