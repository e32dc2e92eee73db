//! How a message says that it is covered.

ghost use Rattle.std.specs.Prelude.{◌≡◌};
ghost use Rattle.routing.specs.Lent.{cover_lent};
ghost use Rattle.pay_plan.specs.Cover.{account_cover, bank_cover, cover_by_53, cover_of};

use corr_text::Text;
use fin_parties::{Party, account_of};
use routing::LentCover;

fn bank_cover(p: &Party) -> LentCover<'_>
    ensures { cover_lent result ≡ bank_cover p.now }
{
    match p {
        Party::A { line: _, bic } => LentCover::Bank(bic),
        _ => LentCover::NoBic,
    }
}

fn account_cover(line: &Option<Text>) -> LentCover<'_>
    ensures { cover_lent result ≡ account_cover line.now }
{
    match line {
        Some(line) => LentCover::Account(account_of(line.bytes())),
        None => LentCover::Relation,
    }
}

fn cover_by_53(p53: &Option<Party>) -> LentCover<'_>
    ensures { cover_lent result ≡ cover_by_53 p53.now }
{
    match p53 {
        Some(Party::B { line, place: _ }) => account_cover(line),
        Some(p) => bank_cover(p),
        None => LentCover::Relation,
    }
}

/// The cover that fields 53a and 54a name. With 54a, 53a isn't looked at.
#[inline(always)]
pub fn cover_of<'a>(p53: &'a Option<Party>, p54: &'a Option<Party>) -> LentCover<'a>
    ensures { cover_lent result ≡ cover_of p53.now p54.now }
{
    match p54 {
        Some(p) => bank_cover(p),
        None => cover_by_53(p53),
    }
}
