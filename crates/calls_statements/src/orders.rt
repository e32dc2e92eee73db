//! The messages that are sent of an entry.

ghost use Rattle.corr_ids.specs.Bic.{IsBic};
ghost use Rattle.day_model.specs.Fit.{FitsAccounts};
ghost use Rattle.day_model.specs.Shape.{HasShape};

use crate::given::{DAY, accounts, charged_onward, charged_pay, is_only, pay};
use advices::{orders, sent_messages_pass, sent_onward_reads};
use corr_text::{List, Memory, Text};
use day_model::{Accounts, Entry, Outcome, Pay};
use std::alloc::Global;
use std::test::Fail;

const NOTICE: &[u8] = b"{1:F01HOMEUS33AXXX0000000000}{2:I900ALPHDEFFXXXXN}{4:\r
:20:P00000001K1\r
:21:REF1\r
:25:VALPHEUR\r
:32A:240603EUR1234,50\r
-}";

// The transfer that is sent on when a charge is taken out of it.
const ONWARD: &[u8] = b"{1:F01HOMEUS33AXXX0000000000}{2:I103BETAFRPPXXXXN}{4:\r
:20:P00000001K1\r
:23B:CRED\r
:32A:240603EUR1229,50\r
:33B:EUR1234,50\r
:50K:A PAYER\r
:52A:ALPHDEFF\r
:59:/CUST9\r
A PAYEE\r
:71A:SHA\r
:71F:EUR5,00\r
-}";

const NOTICE_BEHIND: &[u8] = b"{1:F01HOMEUS33AXXX0000000000}{2:I900ALPHDEFFXXXXN}{4:\r
:20:P00000001K2\r
:21:REF1\r
:25:VALPHEUR\r
:32A:240603EUR1234,50\r
-}";

// The laws are theorems, and their calls do nothing. Promises nothing, so that the test carries none of them.
fn laws() {
    sent_messages_pass();
    sent_onward_reads();
}

// What is sent of a booked pay, the first of the journal.
fn sent(alloc: Global, a: &Accounts, pay: Pay) -> Result<List<Text>, Memory>
    requires home { IsBic a.now.home }
    requires fits { FitsAccounts a.now pay }
    requires shape { HasShape pay }
{
    let entry = Entry {
        pay,
        day: DAY,
        outcome: Outcome::Booked,
    };
    orders(alloc, a, &entry, 1)
}

// What is sent of a pay that fits.
fn sent_of(alloc: Global, pay: Pay) -> Result<List<Text>, Fail>
    requires { HasShape pay }
{
    let a = accounts(alloc)?;
    if !a.fits(&pay) {
        return Err("no entry".into());
    }
    Ok(sent(alloc, &a, pay)?)
}

// What is sent of 1234,50 from account 1.
fn sent_of_one(alloc: Global) -> Result<List<Text>, Fail> {
    sent_of(alloc, pay(alloc, 1, 123_450)?)
}

// The same of which a charge is taken.
fn sent_of_a_charge(alloc: Global) -> Result<List<Text>, Fail> {
    sent_of(alloc, charged_pay(alloc)?)
}

#[test]
fn a_debit_is_told_to_its_bank(rt: HostRuntime) -> Result<(), Fail> {
    laws();
    let texts = sent_of_one(rt.alloc())?;
    assert!(rt; is_only(&texts, NOTICE));
    let texts = sent_of_a_charge(rt.alloc())?;
    assert!(rt; is_only(&texts, NOTICE));
    Ok(())
}

// Whether these two messages are sent of a charged transfer to a bank.
fn are_sent_onward(texts: &List<Text>) -> bool {
    match texts.as_slice() {
        [order, notice] => order.bytes() == ONWARD && notice.bytes() == NOTICE_BEHIND,
        _ => false,
    }
}

#[test]
fn a_charge_is_told_to_the_next_bank(rt: HostRuntime) -> Result<(), Fail> {
    let texts = sent_of(rt.alloc(), charged_onward(rt.alloc())?)?;
    assert!(rt; are_sent_onward(&texts));
    Ok(())
}
