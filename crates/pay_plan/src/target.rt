//! For whom a message says that it is.

ghost use Rattle.std.specs.Prelude.{◌≡◌, drop, option_map};
ghost use Rattle.routing.specs.Lent.{target_lent};
ghost use Rattle.pay_plan.specs.Target.{aimed, bank_target, cover_target, customer_target, names_home, payee_account, transfer_target};

use corr_ids::Bic;
use fin_parties::Party;
use mt103::Mt103;
use mt202cov::Mt202Cov;
use routing::LentTarget;

/// Whether a party is named by the home bank's BIC.
pub fn names_home(home: &Bic, p: &Party) -> bool
    ensures { result ≡ names_home home.now p.now }
{
    match p {
        Party::A { line: _, bic } => bic.head == home.head,
        _ => false,
    }
}

fn bank_target(field: u8, p: &Party) -> LentTarget<'_>
    ensures { target_lent result ≡ bank_target field p.now }
{
    match p {
        Party::A { line: _, bic } => LentTarget::Bank { bic, field },
        _ => LentTarget::NoBic,
    }
}

fn aimed<'a>(home: &Bic, field: u8, p: &'a Option<Party>) -> Option<LentTarget<'a>>
    ensures { option_map target_lent result ≡ aimed home.now field p.now }
{
    match p {
        Some(p) if !names_home(home, p) => Some(bank_target(field, p)),
        _ => None,
    }
}

fn after_slash(line: &[u8]) -> &[u8]
    ensures { result.now ≡ drop 1 line.now }
{
    match line {
        [_, account @ ..] => account,
        [] => line,
    }
}

// The account of 59a.
fn payee_account(payee: &Party) -> Option<&[u8]>
    ensures { option_map (λ b. b.now) result ≡ payee_account payee.now }
{
    match payee {
        Party::K {
            account: Some(account),
            lines: _,
        } => Some(account.bytes()),
        Party::A {
            line: Some(line),
            bic: _,
        } => Some(after_slash(line.bytes())),
        Party::F {
            line: Some(line),
            lines: _,
        } => Some(after_slash(line.bytes())),
        _ => None,
    }
}

fn customer_target(payee: &Party) -> LentTarget<'_>
    ensures { target_lent result ≡ customer_target payee.now }
{
    LentTarget::Customer {
        account: payee_account(payee),
    }
}

/// For whom a transfer is: the first of 56a and 57a that doesn't name the home bank, else the customer of 59a.
#[inline(always)]
pub fn transfer_target<'a>(home: &Bic, m: &'a Mt103) -> LentTarget<'a>
    ensures { target_lent result ≡ transfer_target home.now m.now }
{
    if let Some(target) = aimed(home, 56, &m.p56) {
        return target;
    }
    if let Some(target) = aimed(home, 57, &m.p57) {
        return target;
    }
    customer_target(&m.payee)
}

/// For whom a cover is: the first of 56a and 57a of sequence A that doesn't name the home bank, else the bank of 58a.
pub fn cover_target<'a>(home: &Bic, m: &'a Mt202Cov) -> LentTarget<'a>
    ensures { target_lent result ≡ cover_target home.now m.now }
{
    if let Some(target) = aimed(home, 56, &m.a56) {
        return target;
    }
    if let Some(target) = aimed(home, 57, &m.a57) {
        return target;
    }
    bank_target(58, &m.a58)
}
