//! Writing headers.

ghost use Rattle.std.specs.Prelude.{◌≡◌, ◌++◌, ◌≤◌, flat_map, All, FitsSigned, OnErr, OnOk};
ghost use Rattle.std.specs.Int.{w64};
ghost use Rattle.day_model.specs.Chart.{HasCode, IsChart, IsFormed, bare, most_accounts};
ghost use Rattle.corr_ids.specs.Bic.{IsBic};
ghost use Rattle.jrn_codec.specs.Header.{IsHead, account_bytes, balance_bytes, column_bytes, head_bytes, title_bytes, version};
ghost use Rattle.jrn_codec.specs.Change.{BalancesFit};
ghost use Rattle.jrn_codec.specs.Spelling.{signed_bytes};
ghost use Rattle.jrn_codec.specs.inner.Writing.{IsFrontOf};

use crate::header::VERSION;
use corr_ids::{Bic, with_branch};
use corr_text::{Memory, Text};
use day_model::{Account, Accounts};

/// Adds a signed number of eight bytes.
#[tactic(auto, using(crate::proofs::Fronts::adds, crate::proofs::Fronts::stays), unfolding(crate::specs::Spelling::signed_bytes))]
pub fn put_signed(out: &mut Text, n: i64) -> Result<(), Memory>
    ensures ok { OnOk result (out.new ≡ out.old ++ signed_bytes w64 n) }
    ensures front { IsFrontOf out.old out.new }
    ensures fits { FitsSigned w64 n }
{
    out.push(&n.to_be_bytes())
}

#[tactic(auto, using(crate::proofs::Fronts::goes_on))]
fn put_bounds(out: &mut Text, a: &Account) -> Result<(), Memory>
    ensures ok { OnOk result (out.new ≡ out.old ++ signed_bytes w64 a.now.floor ++ signed_bytes w64 a.now.ceil) }
    ensures front { IsFrontOf out.old out.new }
    ensures fits { OnOk result (FitsSigned w64 a.now.floor × FitsSigned w64 a.now.ceil) }
{
    put_signed(out, a.floor)?;
    put_signed(out, a.ceil)
}

#[tactic(auto, using(crate::proofs::Fronts::goes_on))]
fn put_balances(out: &mut Text, a: &Account) -> Result<(), Memory>
    ensures ok { OnOk result (out.new ≡ out.old ++ balance_bytes a.now) }
    ensures front { IsFrontOf out.old out.new }
    ensures fits { OnOk result (BalancesFit a.now) }
{
    put_bounds(out, a)?;
    put_signed(out, a.opening)
}

#[tactic(auto, using(crate::proofs::Fronts::adds, crate::proofs::Fronts::stays))]
fn put_columns(out: &mut Text, a: &Account) -> Result<(), Memory>
    requires { IsFormed a.now }
    ensures ok { OnOk result (out.new ≡ out.old ++ column_bytes a.now) }
    ensures front { IsFrontOf out.old out.new }
    ensures code { HasCode a.now }
{
    let id = a.id.bytes();
    out.push_all(&[
        &[id.len() as u8],
        id,
        &[a.kind],
        &with_branch(&a.owner),
        &a.ccy.0,
        &[a.decimals],
    ])
}

/// Adds an account as a header has it.
#[tactic(auto, using(crate::proofs::Fronts::goes_on), unfolding(crate::specs::Header::account_bytes))]
pub fn put_account(out: &mut Text, a: &Account) -> Result<(), Memory>
    requires { IsFormed a.now }
    ensures ok { OnOk result (out.new ≡ out.old ++ account_bytes a.now) }
    ensures front { IsFrontOf out.old out.new }
    ensures code { OnOk result (HasCode a.now) }
    ensures fits { OnOk result (BalancesFit a.now) }
{
    put_columns(out, a)?;
    put_balances(out, a)
}

#[tactic(auto, using(crate::proofs::Fronts::goes_on))]
fn put_accounts(out: &mut Text, accounts: &[Account]) -> Result<(), Memory>
    requires { All IsFormed accounts.now }
    ensures ok { OnOk result (out.new ≡ out.old ++ flat_map account_bytes accounts.now) }
    ensures front { IsFrontOf out.old out.new }
    ensures codes { OnOk result (All HasCode accounts.now) }
{
    match accounts {
        [] => Ok(()),
        [account, others @ ..] => {
            put_account(out, account)?;
            put_accounts(out, others)
        }
    }
}

#[tactic(auto, using(crate::proofs::Fronts::adds, crate::proofs::Fronts::stays), unfolding(crate::specs::Header::title_bytes))]
fn put_title(out: &mut Text, home: &Bic, count: usize) -> Result<(), Memory>
    requires { count ≤ most_accounts }
    ensures ok { OnOk result (out.new ≡ out.old ++ title_bytes version home.now count) }
    ensures front { IsFrontOf out.old out.new }
{
    let count = count as u16;
    out.push_all(&[&VERSION, &with_branch(home), &count.to_be_bytes()])
}

#[tactic(auto, using(crate::proofs::Fronts::goes_on))]
fn put_parts(out: &mut Text, a: &Accounts) -> Result<(), Memory>
    ensures ok { OnOk result (out.new ≡ out.old ++ head_bytes a.now) }
    ensures front { IsFrontOf out.old out.new }
    ensures codes { OnOk result (All HasCode a.now.first) }
    ensures book { OnOk result (IsChart a.now) }
{
    let accounts = a.first();
    put_title(out, a.home(), accounts.len())?;
    put_accounts(out, accounts)
}

/// Adds the header record of a home bank and the accounts that its book begins with, which `read_head` reads where the home is a
/// BIC. Changes of the accounts aren't in it. Where memory runs out, the text is as before.
#[tactic(auto, using(crate::proofs::HeadWriting::is_written))]
pub fn put_head(a: &Accounts, out: &mut Text) -> Result<(), Memory>
    ensures ok { OnOk result (out.new ≡ out.old ++ head_bytes a.now) }
    ensures head { IsBic a.now.home → OnOk result (IsHead (bare a.now)) }
    ensures err { OnErr result (out.new ≡ out.old) }
{
    let before = out.bytes().len();
    let written = put_parts(out, a);
    if written.is_err() {
        out.truncate(before);
    }
    written
}
