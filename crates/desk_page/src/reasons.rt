//! The reasons of codes, in words (docs/messages.md, "All codes").

ghost use Rattle.std.specs.Prelude.{◌≡◌};
ghost use Rattle.desk_page.specs.Reasons.{content_reason, form_reason, frame_reason, is_code, plan_reason, reason_of, rule_reason, service_reason, telling_reason};

use corr_text::Code;

/// Whether a code is this one.
pub(crate) fn is_code(code: Code, letters: &[u8]) -> bool
    ensures { result ≡ is_code code letters.now }
{
    code.0.as_slice() == letters
}

/// The reason of a code of the blocks of a message and who it is from; of another one that of the codes after these.
#[tactic(auto, unfolding(crate::specs::Reasons::frame_reason))]
fn frame_reason(code: Code) -> &'static [u8]
    ensures { result.now ≡ frame_reason code }
{
    if is_code(code, b"P01") {
        b"block 1 is not of its form"
    } else if is_code(code, b"P02") {
        b"block 1 has another version than 01, as an acknowledgement"
    } else if is_code(code, b"P03") {
        b"block 2 is not of its form"
    } else if is_code(code, b"P04") {
        b"block 3 is not of its form"
    } else if is_code(code, b"P05") {
        b"block 4 is not of its form, or not there"
    } else if is_code(code, b"P06") {
        b"block 5 is not of its form, or more comes after it"
    } else if is_code(code, b"P07") {
        b"it was sent, not received"
    } else if is_code(code, b"P08") {
        b"it is for another bank"
    } else if is_code(code, b"P09") {
        b"a training message"
    } else if is_code(code, b"P10") {
        b"possibly sent before: look for its field 20, ask the sender"
    } else if is_code(code, b"P11") {
        b"a type that is not read"
    } else if is_code(code, b"P12") {
        b"the sender is not in the table of banks"
    } else if is_code(code, b"P13") {
        b"the validation flag is not as the type wants it"
    } else {
        content_reason(code)
    }
}

/// The reason of a code of the fields of a message; of another one that of the codes after these.
#[tactic(auto, unfolding(crate::specs::Reasons::content_reason))]
fn content_reason(code: Code) -> &'static [u8]
    ensures { result.now ≡ content_reason code }
{
    if is_code(code, b"P20") {
        b"a line of block 4 is misplaced"
    } else if is_code(code, b"P21") {
        b"a character that no field may have"
    } else if is_code(code, b"P22") {
        b"a field out of order, one too many, or not of this type"
    } else if is_code(code, b"P23") {
        b"a mandatory field is missing"
    } else if is_code(code, b"P24") {
        b"a content is not of its form"
    } else if is_code(code, b"P25") {
        b"a bank is not in the table of banks"
    } else if is_code(code, b"P26") {
        b"the amount is zero"
    } else if is_code(code, b"P27") {
        b"the amount is too large for this program"
    } else if is_code(code, b"P28") {
        b"an instruction that is not in the list"
    } else {
        plan_reason(code)
    }
}

/// The reason of a code of the accounts of a payment; of another one that of the codes after these.
#[tactic(auto, unfolding(crate::specs::Reasons::plan_reason))]
fn plan_reason(code: Code) -> &'static [u8]
    ensures { result.now ≡ plan_reason code }
{
    if is_code(code, b"P30") {
        b"no settlement instruction is in force on the value date"
    } else if is_code(code, b"P31") {
        b"no account between the sender and the home bank"
    } else if is_code(code, b"P32") {
        b"the correspondent in 53a or 54a leads to no account"
    } else if is_code(code, b"P33") {
        b"no account of the beneficiary in this currency"
    } else if is_code(code, b"P34") {
        b"a cover for the home bank"
    } else if is_code(code, b"P35") {
        b"a bank that decides the accounts has no BIC"
    } else if is_code(code, b"P36") {
        b"the account of the settlement instruction does not fit"
    } else if is_code(code, b"P38") {
        b"debit and credit would be on one account"
    } else if is_code(code, b"P39") {
        b"the charge is not below the amount"
    } else if is_code(code, b"P40") {
        b"no account of fees in this currency"
    } else {
        rule_reason(code)
    }
}

/// The reason of a code of the rules that begin with C and D; of another one that of the codes after these.
#[tactic(auto, unfolding(crate::specs::Reasons::rule_reason))]
fn rule_reason(code: Code) -> &'static [u8]
    ensures { result.now ≡ rule_reason code }
{
    if is_code(code, b"C02") {
        b"the charges have another currency than the amount"
    } else if is_code(code, b"C03") {
        b"more decimals than the currency has"
    } else if is_code(code, b"C06") {
        b"nobody is named who ordered it"
    } else if is_code(code, b"C08") {
        b"a precious metal in place of a currency"
    } else if is_code(code, b"C27") {
        b"the balances have two currencies"
    } else if is_code(code, b"C68") {
        b"an intermediary without a bank of the account, sequence B"
    } else if is_code(code, b"C81") {
        b"an intermediary without a bank of the account"
    } else if is_code(code, b"D49") {
        b"no ordered amount between these two countries"
    } else if is_code(code, b"D50") {
        b"receiver charges where charges are shared"
    } else if is_code(code, b"D51") {
        b"charges without the ordered amount"
    } else if is_code(code, b"D75") {
        b"the exchange rate is missing, or there without cause"
    } else if is_code(code, b"D97") {
        b"a text after an instruction that may have none"
    } else if is_code(code, b"D98") {
        b"an instruction out of its order"
    } else {
        service_reason(code)
    }
}

/// The reason of a code of the rules of a service level and of charges; of another one that of the codes after these.
#[tactic(auto, unfolding(crate::specs::Reasons::service_reason))]
fn service_reason(code: Code) -> &'static [u8]
    ensures { result.now ≡ service_reason code }
{
    if is_code(code, b"E01") {
        b"service level SPRI with an instruction that it may not have"
    } else if is_code(code, b"E02") {
        b"service level SSTD or SPAY with an instruction"
    } else if is_code(code, b"E03") {
        b"a service level, and 53a by name and address"
    } else if is_code(code, b"E04") {
        b"a service level, and 53a by place without a party line"
    } else if is_code(code, b"E05") {
        b"a service level, and 54a without its BIC"
    } else if is_code(code, b"E06") {
        b"a third institution without both correspondents"
    } else if is_code(code, b"E07") {
        b"a service level, and 55a without its BIC"
    } else if is_code(code, b"E09") {
        b"a service level, and 57a without its bank or party line"
    } else if is_code(code, b"E10") {
        b"a service level without an account of the beneficiary"
    } else if is_code(code, b"E13") {
        b"sender charges where the payer bears all charges"
    } else {
        telling_reason(code)
    }
}

/// The reason of a code of the other rules that begin with E; of another one that of the codes after these.
#[tactic(auto, unfolding(crate::specs::Reasons::telling_reason))]
fn telling_reason(code: Code) -> &'static [u8]
    ensures { result.now ≡ telling_reason code }
{
    if is_code(code, b"E15") {
        b"the beneficiary bears the charges, and they do not fit that"
    } else if is_code(code, b"E16") {
        b"service level SPRI with an intermediary"
    } else if is_code(code, b"E17") {
        b"service level SSTD or SPAY, and 56a that does not fit it"
    } else if is_code(code, b"E18") {
        b"payment by cheque, and the beneficiary has an account"
    } else if is_code(code, b"E44") {
        b"tell the intermediary, and there is none"
    } else if is_code(code, b"E45") {
        b"tell the bank of the account, and there is none"
    } else if is_code(code, b"E46") {
        b"an instruction twice"
    } else {
        form_reason(code)
    }
}

/// The reason of a code of the forms of contents; of another one that of the codes after these.
#[tactic(auto, unfolding(crate::specs::Reasons::form_reason))]
fn form_reason(code: Code) -> &'static [u8]
    ensures { result.now ≡ form_reason code }
{
    if is_code(code, b"T08") {
        b"the details of charges are none of OUR, SHA and BEN"
    } else if is_code(code, b"T26") {
        b"a reference with a slash at an end, or two in a row"
    } else if is_code(code, b"T36") {
        b"the operation code is none of its codes"
    } else if is_code(code, b"T40") {
        b"an amount or a rate is not digits with one comma"
    } else if is_code(code, b"T43") {
        b"an amount or a rate is too long"
    } else if is_code(code, b"T50") {
        b"no day of the calendar"
    } else if is_code(code, b"T52") {
        b"a currency that is not in the table of currencies"
    } else {
        b""
    }
}

/// What a code says, in words; nothing of a code that no message gets.
#[tactic(auto, unfolding(crate::specs::Reasons::reason_of))]
pub(crate) fn reason(code: Code) -> &'static [u8]
    ensures { result.now ≡ reason_of code }
{
    frame_reason(code)
}
