//! Numbers of the grammar (ABI sections 5.1.2, <number>, and 5.1.10, <seq-id>).

ghost use Rattle.std.specs.Prelude.{◌≡◌, ◌≤◌, ◌^◌, ◌<◌, ◌⊎◌, ◌+◌, ◌*◌, IfOk, IfErr, OnOk, Option, Some, None};
ghost use Rattle.std.specs.Prelude.{MatchOption, if◌then◌else◌, length, IsTrue, ◌↔◌};
ghost use Rattle.demangle_text.specs.Kind.{Gives, Cause, Unread, kind};
ghost use Rattle.demangle_text.specs.Spot.{spot};
ghost use Rattle.demangle_text.specs.Found.{none};
ghost use Rattle.demangle_text.specs.Number.{number_from, natural_from, natural_at, bounded, run_of, value_of};
ghost use Rattle.demangle_text.specs.Number.{is_digit_in, digit_value};

use crate::error::{Error, Result};
use crate::index_str::IndexStr;

/// The value of a digit, or nothing for another byte.
fn digit_of(base: u32, byte: u8) -> Option<u64>
    ensures value { result ≡ (if is_digit_in base byte then Some (digit_value byte) else None) }
    ensures small { MatchOption result (Unit {0}) (λ d. d < 36) }
{
    match byte {
        b'0'..=b'9' => Some(byte as u64 - 48),
        b'A'..=b'Z' if base == 36 => Some(byte as u64 - 55),
        _ => None,
    }
}

/// Whether a number stands at the front, but for its size.
fn check_front(base: u32, bytes: &[u8]) -> Result<()>
    ensures ok { OnOk result (natural_at base bytes.now ≡ bounded base (run_of base bytes.now)) }
    ensures refused { IfErr result (λ e. (c : Cause) × (natural_at base bytes.now ≡ none c) × (kind e ≡ Unread c)) }
{
    match bytes {
        [] => Err(Error::UnexpectedEnd),
        [first, ..] if digit_of(base, *first).is_none() => Err(Error::UnexpectedText),
        [b'0', second, ..] if digit_of(base, *second).is_some() => Err(Error::UnexpectedText),
        _ => Ok(()),
    }
}

/// The value of the run of digits at the front, where it is below 2^63, and how many they are.
#[tactic(auto, using(crate::proofs::Digits::digits))]
fn run_value(base: u32, bytes: &[u8]) -> Option<(u64, usize)>
    requires { (base ≡ 10) ⊎ (base ≡ 36) }
    ensures { MatchOption result (2 ^ 63 ≤ value_of base 0 (run_of base bytes.now))
        (λ x. (x.0 ≡ value_of base 0 (run_of base bytes.now)) × (x.1 ≡ length (run_of base bytes.now))
        × (x.0 < 2 ^ 63)) }
{
    let mut value: u64 = 0;
    for (i, byte) in bytes.iter().enumerate() {
        let Some(digit) = digit_of(base, *byte) else {
            return Some((value, i));
        };
        let Some(next) = shifted(base, value, digit) else {
            return None;
        };
        value = next;
    }
    Some((value, bytes.len()))
}

/// The value with one more digit behind it, where it is below 2^63.
fn shifted(base: u32, value: u64, digit: u64) -> Option<u64>
    requires base { base ≤ 36 }
    requires digit { digit < 36 }
    ensures { MatchOption result (2 ^ 63 ≤ value * base + digit) (λ v. (v ≡ value * base + digit) × (v < 2 ^ 63)) }
{
    let shifted = value.checked_mul(base as u64)?.checked_add(digit)?;
    if shifted < 1 << 63 {
        Some(shifted)
    } else {
        None
    }
}

/// A number without a sign in base 10 or 36, and the rest. `UnexpectedEnd` where nothing is left, `UnexpectedText`
/// where no digit is next or where a `0` stands before another digit, `Overflow` where the value passes 2^63 - 1.
#[tactic(auto, unfolding(crate::specs::Number::natural_from))]
pub fn parse_unsigned<'a>(base: u32, input: IndexStr<'a>) -> Result<(usize, IndexStr<'a>)>
    requires { (base ≡ 10) ⊎ (base ≡ 36) }
    ensures number { Gives (λ x. (x.0, spot x.1)) result (natural_from base (spot input.entry)) }
    ensures small { IfOk result (λ x. x.0 < 2 ^ 63) }
{
    check_front(base, input.as_slice())?;
    match run_value(base, input.as_slice()) {
        Some((value, count)) => Ok((value as usize, input.range_from(count..))),
        None => Err(Error::Overflow),
    }
}

/// A number in base 10 or 36, with `n` before it where it is negative and signs are allowed, and the rest. Refused as
/// by `parse_unsigned`; nothing left behind `n` is `UnexpectedEnd`.
#[tactic(auto, unfolding(crate::specs::Number::natural_from, crate::specs::Number::number_from))]
pub fn parse_number<'a>(
    base: u32,
    allow_signed: bool,
    input: IndexStr<'a>,
) -> Result<(isize, IndexStr<'a>)>
    requires { (base ≡ 10) ⊎ (base ≡ 36) }
    ensures number { Gives (λ x. (x.0, spot x.1)) result (number_from base allow_signed (spot input.entry)) }
{
    match input.next() {
        Some((b'n', rest)) if allow_signed => {
            let (value, rest) = parse_unsigned(base, rest)?;
            Ok((-(value as isize), rest))
        }
        _ => {
            let (value, rest) = parse_unsigned(base, input)?;
            Ok((value as isize, rest))
        }
    }
}
