//! The rules on amounts: 33B, 36, 71F and 71G beside 32A.

ghost use Rattle.std.specs.Prelude.{◌≡◌, ◌||◌};
ghost use Rattle.mt103_rules.specs.Rules.{c02, country_of, d49, d51, d75, is_foreign, is_listed_bank};

use crate::broken::broken;
use crate::codes::{C02, D49, D51, D75};
use corr_ids::Bic;
use corr_money::Amount;
use corr_text::Fault;
use mt103::Mt103;
use ref_tables::RefTables;

// Whether an amount is there in another currency than that of 32A.
fn is_foreign(m: &Mt103, amount: &Option<Amount>) -> bool
    ensures { result ≡ is_foreign m.now amount.now }
{
    match amount {
        Some(amount) => amount.ccy.0 != m.amount.ccy.0,
        None => false,
    }
}

fn country_of(bic: &Bic) -> [u8; 2]
    ensures { result ≡ country_of bic.now }
{
    let mut country = [0; 2];
    country.copy_from_slice(&bic.head[4..6]);
    country
}

fn is_listed_bank(t: &RefTables, bic: &Bic) -> bool
    ensures { result ≡ is_listed_bank t.now bic.now }
{
    t.listed(&country_of(bic))
}

/// 36 is there exactly where 33B has another currency than 32A.
#[tactic(auto, unfolding(crate::specs::Rules::d75))]
pub fn d75(m: &Mt103) -> Option<Fault>
    ensures { result ≡ d75 m.now }
{
    if is_foreign(m, &m.ordered) {
        broken(m.rate.is_none(), D75, *b"36 ", 0)
    } else {
        broken(m.rate.is_some(), D75, *b"36 ", 1)
    }
}

/// Between banks of two listed countries 33B is there.
#[tactic(auto, unfolding(crate::specs::Rules::d49), using(crate::proofs::Parts::either_first))]
pub fn d49(m: &Mt103, sender: &Bic, receiver: &Bic, t: &RefTables) -> Option<Fault>
    ensures { result ≡ d49 sender.now receiver.now t.now m.now }
{
    // the receiver first, who is the home bank mostly: where it isn't listed the sender isn't looked up
    let are_listed = is_listed_bank(t, receiver) && is_listed_bank(t, sender);
    broken(are_listed && m.ordered.is_none(), D49, *b"33B", 0)
}

/// 71F and 71G stand with 33B.
#[tactic(auto, unfolding(crate::specs::Rules::d51))]
pub fn d51(m: &Mt103) -> Option<Fault>
    ensures { result ≡ d51 m.now }
{
    let has_charge = !m.taken.as_slice().is_empty() || m.given.is_some();
    broken(has_charge && m.ordered.is_none(), D51, *b"33B", 0)
}

/// 71G has the currency of 32A.
#[tactic(auto, unfolding(crate::specs::Rules::c02))]
pub fn c02(m: &Mt103) -> Option<Fault>
    ensures { result ≡ c02 m.now }
{
    broken(is_foreign(m, &m.given), C02, *b"71G", 1)
}
