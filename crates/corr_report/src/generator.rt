//! A day of messages, made from a number.

ghost use Rattle.std.specs.Prelude.{◌≡◌, ◌≤◌, ◌++◌, codes, IfOk, OnOk};
ghost use Rattle.corr_money.specs.Amounts.{most_decimals};
ghost use Rattle.corr_report.specs.Generated.{generated_bank, generated_ccy, generated_decimals, generated_of, generated_heading, generated_kind, generated_minor, most_generated, next_number, generated_parties, generated_payee, generated_sender, generated_terms, generated_text};

use corr_money::{Minor, put_15d};
use corr_text::{Memory, Text, put_digits};
use std::alloc::Global;

/// What a number is multiplied by to give the next one.
const FACTOR: u64 = 6_364_136_223_846_793_005;

/// What is added then.
const STEP: u64 = 1_442_695_040_888_963_407;

/// The three kinds of messages, which take turns.
#[derive(Clone, Copy)]
enum Kind {
    /// Euros for a customer of the house.
    Euros,
    /// Euros that go on to another bank.
    PassedOn,
    /// Yen for a customer of the house.
    Yen,
}

fn next_number(x: u64) -> u64
    ensures { result ≡ next_number x }
{
    x.wrapping_mul(FACTOR).wrapping_add(STEP)
}

fn minor_of(x: u64) -> u64
    ensures value { result ≡ generated_minor x }
    ensures small { result ≤ 100 }
{
    (x >> 33) % 100 + 1
}

#[tactic(auto, unfolding(crate::specs::Generated::generated_kind))]
fn kind_of(i: u32) -> Kind
    ensures { result ≡ generated_kind i }
{
    match i % 3 {
        0 => Kind::Euros,
        1 => Kind::PassedOn,
        _ => Kind::Yen,
    }
}

fn sender_of(kind: Kind) -> &'static [u8]
    ensures { result.now ≡ generated_sender kind }
{
    match kind {
        Kind::Euros | Kind::PassedOn => b"ALPHDEFF",
        Kind::Yen => b"DELTJPJT",
    }
}

fn ccy_of(kind: Kind) -> &'static [u8]
    ensures { result.now ≡ generated_ccy kind }
{
    match kind {
        Kind::Euros | Kind::PassedOn => b"EUR",
        Kind::Yen => b"JPY",
    }
}

fn decimals_of(kind: Kind) -> u8
    ensures value { result ≡ generated_decimals kind }
    ensures few { result ≤ most_decimals }
{
    match kind {
        Kind::Euros | Kind::PassedOn => 2,
        Kind::Yen => 0,
    }
}

fn payee_of(kind: Kind) -> &'static [u8]
    ensures { result.now ≡ generated_payee kind }
{
    match kind {
        Kind::Euros => b"CUST1",
        Kind::PassedOn => b"CUST9",
        Kind::Yen => b"CUST2",
    }
}

fn bank_of(kind: Kind) -> &'static [u8]
    ensures { result.now ≡ generated_bank kind }
{
    match kind {
        Kind::PassedOn => b":57A:BETAFRPP\r\n",
        Kind::Euros | Kind::Yen => b"",
    }
}

fn put_heading(alloc: Global, i: u32, kind: Kind, out: &mut Text) -> Result<(), Memory>
    ensures { OnOk result (out.new ≡ out.old ++ generated_heading i kind) }
{
    out.push(b"{1:F01HOMEUS33AXXX0001")?;
    put_digits(alloc, i as u64, 6, out)?;
    out.push(b"}{2:O1031200240603")?;
    out.push(sender_of(kind))?;
    out.push(b"AXXX0001")?;
    put_digits(alloc, i as u64, 6, out)?;
    out.push(b"2406031205N}{4:\r\n")?;
    Ok(())
}

fn put_terms(alloc: Global, i: u32, kind: Kind, minor: u64, out: &mut Text) -> Result<(), Memory>
    requires { minor ≤ 100 }
    ensures { OnOk result (out.new ≡ out.old ++ generated_terms i kind minor) }
{
    out.push(b":20:G")?;
    put_digits(alloc, i as u64, 6, out)?;
    out.push(b"\r\n:23B:CRED\r\n:32A:240603")?;
    out.push(ccy_of(kind))?;
    put_15d(alloc, Minor(minor), decimals_of(kind), out)?;
    out.push(b"\r\n")?;
    Ok(())
}

fn put_parties(kind: Kind, out: &mut Text) -> Result<(), Memory>
    ensures { OnOk result (out.new ≡ out.old ++ generated_parties kind) }
{
    out.push(b":50K:A PAYER\r\n")?;
    out.push(bank_of(kind))?;
    out.push(b":59:/")?;
    out.push(payee_of(kind))?;
    out.push(b"\r\nA PAYEE\r\n:71A:SHA\r\n")?;
    Ok(())
}

/// Adds the `i`-th message, with an amount in minor units, and `$`.
#[tactic(auto, unfolding(crate::specs::Generated::generated_text))]
fn put_message(alloc: Global, i: u32, minor: u64, out: &mut Text) -> Result<(), Memory>
    requires { minor ≤ 100 }
    ensures { OnOk result (out.new ≡ out.old ++ (generated_text i minor ++ codes "$")) }
{
    let kind = kind_of(i);
    put_heading(alloc, i, kind, out)?;
    put_terms(alloc, i, kind, minor, out)?;
    put_parties(kind, out)?;
    out.push(b"-}$")
}

/// A day of `count` transfers to HOMEUS33 on 3 June 2024, made from a number, each followed by `$`: in turn euros from
/// ALPHDEFF for a customer of BETAFRPP, yen from DELTJPJT for a customer of the house, and euros from ALPHDEFF for a
/// customer of the house, 1 to 100 minor units each. The `i`-th has the reference `G` and `i` in six digits, and `i` as
/// its sequence number (docs/operating.md, "A generated day").
///
/// `count` is at most 50,000. `Memory`: there was no room for the text.
pub fn generated(alloc: Global, count: u32, seed: u64) -> Result<Text, Memory>
    requires { count ≤ most_generated }
    ensures { IfOk result (λ text. text ≡ generated_of count seed) }
{
    let mut out = Text::from_bytes(alloc, b"")?;
    let mut x = seed;
    for i in 1..count + 1 {
        x = next_number(x);
        put_message(alloc, i, minor_of(x), &mut out)?;
    }
    Ok(out)
}
