//! What the page says of each message: its verdict, its route and the entry under its reference, with nothing booked.

ghost use Rattle.std.specs.Prelude.{◌≡◌, ◌≤◌, All, IfOk, IsSome, IsTrue, length};
ghost use Rattle.corr_ids.specs.Day.{InCentury};
ghost use Rattle.desk_page.specs.Row.{IsShown, IsShownPayment, IsShownStanding, standing_by};
ghost use Rattle.fin_contents.specs.Writing.{IsAmount};
ghost use Rattle.fin_frame.specs.File.{most_bytes};
ghost use Rattle.fin_message.specs.Sound.{Goes, TextSays};
ghost use Rattle.fin_message.specs.declared.direction.Direction.TheVariants.{Received};
ghost use Rattle.pay_plan.specs.Plan.{plan_of};
ghost use Rattle.pay_plan.specs.Readable.{IsSomeReading};
ghost use Rattle.ref_tables.specs.Seen.{few_decimals};
ghost use Rattle.corr_top.specs.inner.Asks.{unplaced};
ghost use Rattle.corr_top.specs.Message.{message_reply, unrouted};
ghost use Rattle.corr_top.specs.Shown.{cover_shown, row_of, rows_of, transfer_shown, valid_row};

use crate::directory::Directory;
use crate::message::{reference, route_ask};
use corr_disk::Disk;
use corr_ids::Envelope;
use corr_text::{Memory, Text, let_go};
use desk_page::{Payment, Row, Standing, party_text, standing_for};
use fin_frame::Framed;
use fin_message::{Message, MessageFault, verdict};
use jrn_book::JrnBook;
use mt103::Mt103;
use mt202cov::Mt202Cov;
use pay_plan::Ask;
use std::alloc::Global;

/// What a transfer says.
fn transfer_shown(alloc: Global, envelope: &Envelope, m: &Mt103) -> Result<Payment, Memory>
    requires received { IsSome envelope.now.mir }
    requires value { InCentury m.now.value × IsAmount m.now.amount }
    ensures said { IfOk result (λ payment. payment ≡ transfer_shown envelope.now m.now) }
    ensures shown { IfOk result IsShownPayment }
{
    Ok(Payment {
        mir: reference(envelope),
        sender: envelope.sender,
        reference: m.reference.copy(alloc)?,
        uetr: envelope.uetr,
        value: m.value,
        amount: m.amount,
        payee: party_text(alloc, &m.payee)?,
    })
}

/// What a cover says.
fn cover_shown(alloc: Global, envelope: &Envelope, m: &Mt202Cov) -> Result<Payment, Memory>
    requires received { IsSome envelope.now.mir }
    requires value { InCentury m.now.value × IsAmount m.now.amount }
    ensures said { IfOk result (λ payment. payment ≡ cover_shown envelope.now m.now) }
    ensures shown { IfOk result IsShownPayment }
{
    Ok(Payment {
        mir: reference(envelope),
        sender: envelope.sender,
        reference: m.reference.copy(alloc)?,
        uetr: envelope.uetr,
        value: m.value,
        amount: m.amount,
        payee: party_text(alloc, &m.a58)?,
    })
}

/// Where the payment stands that a valid message asks for.
fn stand<D: Disk>(
    alloc: Global,
    directory: &Directory,
    book: &JrnBook<D>,
    envelope: &Envelope,
    text: &Text,
    ask: Ask<'_>,
) -> Result<Standing, Memory>
    requires received { IsSome envelope.now.mir }
    requires read { IsSomeReading ask }
    ensures value { IfOk result (λ standing. standing ≡ standing_by book.now.history (message_reply book.now.history
        (unrouted envelope.now (plan_of envelope.now text.now (unplaced ask.entry) directory.now.ssi directory.now.charges book.now.accounts)))) }
    ensures shown { IfOk result (IsShownStanding book.now.accounts) }
{
    let accounts = book.accounts();
    let mut lines = text.copy(alloc)?;
    match route_ask(alloc, directory, accounts, envelope, &mut lines, ask) {
        Ok(asking) => {
            let pay = asking.pay(alloc, accounts)?;
            let place = book.place_of(&pay.mir);
            Ok(standing_for(accounts, book.history(), &pay, place))
        }
        Err(code) => Ok(Standing::Unrouted { code }),
    }
}

/// What is said of a valid message.
fn valid_row<D: Disk>(
    alloc: Global,
    directory: &Directory,
    book: &JrnBook<D>,
    message: &Message,
) -> Result<Row, Memory>
    requires goes { Goes Received message.now }
    requires read { TextSays directory.now.tables message.now }
    requires decimals { IsTrue (few_decimals directory.now.tables.ccys) }
    ensures value { IfOk result (λ row. row ≡ valid_row directory.now book.now.accounts book.now.history message.now) }
    ensures shown { IfOk result (IsShown book.now.accounts) }
{
    match message {
        Message::Transfer(envelope, text, transfer) => Ok(Row::Asks {
            payment: transfer_shown(alloc, envelope, transfer)?,
            standing: stand(
                alloc,
                directory,
                book,
                envelope,
                text,
                Ask::Transfer(transfer),
            )?,
        }),
        Message::Cover(envelope, text, cover) => Ok(Row::Asks {
            payment: cover_shown(alloc, envelope, cover)?,
            standing: stand(alloc, directory, book, envelope, text, Ask::Cover(cover))?,
        }),
        Message::Debit(envelope, _) | Message::Credit(envelope, _) => Ok(Row::Told {
            mir: reference(envelope),
            account: None,
        }),
        Message::Page(envelope, page) => Ok(Row::Told {
            mir: reference(envelope),
            account: Some(page.account.copy(alloc)?),
        }),
    }
}

/// The same of a message that nobody needs any more.
fn row_and_go<D: Disk>(
    alloc: Global,
    directory: &Directory,
    book: &JrnBook<D>,
    message: Message,
) -> Result<Row, Memory>
    requires goes { Goes Received message }
    requires read { TextSays directory.now.tables message }
    requires decimals { IsTrue (few_decimals directory.now.tables.ccys) }
    ensures value { IfOk result (λ row. row ≡ valid_row directory.now book.now.accounts book.now.history message) }
    ensures shown { IfOk result (IsShown book.now.accounts) }
{
    let row = valid_row(alloc, directory, book, &message);
    let_go(message);
    row
}

/// What is said of a message of at most 16,384 bytes.
#[tactic(auto, unfolding(crate::specs::Shown::row_of))]
fn row_of<D: Disk>(
    alloc: Global,
    directory: &Directory,
    book: &JrnBook<D>,
    message: &[u8],
) -> Result<Row, Memory>
    requires decimals { IsTrue (few_decimals directory.now.tables.ccys) }
    requires short { length message.now ≤ most_bytes }
    ensures value { IfOk result (λ row. row ≡ row_of directory.now book.now.accounts book.now.history message.now) }
    ensures shown { IfOk result (IsShown book.now.accounts) }
{
    match verdict(alloc, message, book.accounts().home(), &directory.tables) {
        Ok(message) => row_and_go(alloc, directory, book, message),
        Err(MessageFault::Refused { mir, fault }) => Ok(Row::Refused { mir, fault }),
        Err(MessageFault::Memory) => Err(Memory),
    }
}

/// What is said of each message, in their order.
pub fn rows_of<D: Disk>(
    alloc: Global,
    directory: &Directory,
    book: &JrnBook<D>,
    messages: &[Framed<'_>],
) -> Result<Vec<Row>, Memory>
    requires decimals { IsTrue (few_decimals directory.now.tables.ccys) }
    requires short { All (λ m. length m ≤ most_bytes) messages.now }
    ensures value { IfOk result (λ rows. rows.items ≡ rows_of directory.now book.now.accounts book.now.history messages.now) }
    ensures shown { IfOk result (λ rows. All (IsShown book.now.accounts) rows.items) }
{
    let mut rows = Vec::with_capacity(alloc, messages.len())?;
    for message in messages {
        let row = row_of(alloc, directory, book, message.bytes())?;
        rows.push(row)?;
    }
    Ok(rows)
}
