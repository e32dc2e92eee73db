//! First lines of party fields.

ghost use Rattle.std.specs.Prelude.{◌≡◌, true, false};
ghost use Rattle.fin_fields.specs.Faults.{has_other_byte};
ghost use Rattle.corr_text.specs.Lines.{begins_with};
ghost use Rattle.fin_parties.specs.Party.{account_in, is_account, is_account_line, is_lettered_line, is_party_line};

use corr_text::Set;
use fin_fields::{is_run_of, is_x_run};

/// The most characters that an account has.
const ACCOUNT_MOST: u8 = 34;

/// Whether a line begins with a slash.
pub fn has_slash(line: &[u8]) -> bool
    ensures { result ≡ begins_with 47 line.now }
{
    matches!(line, [b'/', ..])
}

fn is_account(account: &[u8]) -> bool
    ensures { result ≡ is_account account.now }
{
    is_run_of(Set::X, ACCOUNT_MOST, account)
}

/// Whether a line is `/34x`. Where `plain` tells that it has no byte outside set X, its bytes aren't tested.
#[tactic(auto, using(crate::proofs::OfX::after_slash))]
pub fn is_account_line(line: &[u8], plain: bool) -> bool
    requires { plain ≡ true → has_other_byte line.now ≡ false }
    ensures { result ≡ is_account_line line.now }
{
    match line {
        [b'/', account @ ..] => is_x_run(ACCOUNT_MOST, account, plain),
        _ => false,
    }
}

fn is_lettered_line(line: &[u8]) -> bool
    ensures { result ≡ is_lettered_line line.now }
{
    match line {
        [b'/', letter, b'/', account @ ..] => letter.is_ascii_uppercase() && is_account(account),
        _ => false,
    }
}

/// Whether a line is a party line, `/34x` or `/C/34x` with a capital letter C.
pub fn is_party_line(line: &[u8]) -> bool
    ensures { result ≡ is_party_line line.now }
{
    is_account_line(line, false) || is_lettered_line(line)
}

/// The account of a party line: what stands after the second slash of `/C/34x` with a capital letter C, else what stands
/// after the first slash. A line that begins with no slash has none. Takes no memory.
///
/// The account of `/C/12` is `12`, that of `/12` is `12`, that of `//12` is `/12`, and that of `/C/` is `C/`.
pub fn account_of(line: &[u8]) -> &[u8]
    ensures { result.now ≡ account_in line.now }
{
    if is_lettered_line(line) {
        return &line[3..];
    }
    match line {
        [b'/', account @ ..] => account,
        _ => &line[..0],
    }
}
