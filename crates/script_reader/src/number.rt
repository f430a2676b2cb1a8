// The number that a word writes.
ghost use Rattle.std.specs.Prelude.{◌≡◌, length, ◌^◌, ◌≤◌, ◌<◌, ◌+◌, ◌*◌, min, Some, IfOk, IfSome};
ghost use Rattle.std.specs.Option.{option_map};
ghost use Rattle.script_reader.specs.Numbers.{digit_of, numeral_after, numeral_of, number_of, number_at, ranged, fitting, held, below};

use crate::step::{NOT_A_NUMBER, OUT_OF_RANGE};

/// So many digits of any base up to 16 write a number that 64 bits hold.
const SHORT: usize = 15;

#[tactic(auto, unfolding(crate::specs::Numbers::digit_of))]
fn digit(base: u64, byte: u8) -> Option<u64>
    requires { base ≤ 16 }
    ensures value { result ≡ digit_of base byte }
    ensures small { IfSome result (λ d. d < 16) }
{
    let decimal = byte.wrapping_sub(b'0');
    let value = if decimal < 10 {
        decimal
    } else {
        match byte {
            b'a'..=b'z' => byte - b'a' + 10,
            b'A'..=b'Z' => byte - b'A' + 10,
            _ => 36,
        }
    };
    if u64::from(value) < base {
        Some(u64::from(value))
    } else {
        None
    }
}

/// A number with one digit more. None stands for a number above the greatest of 64 bits.
fn with_digit(base: u64, number: Option<u64>, digit: u64) -> Option<u64>
    requires { 1 ≤ base }
    ensures { held result ≡ min (held number * base + digit) (2 ^ 64) }
{
    number?.checked_mul(base)?.checked_add(digit)
}

/// The number that digits write: none where one isn't a digit of the base. No check is made on the way,
/// since 64 bits hold 15 digits of any base up to 16.
#[inline(always)]
#[tactic(auto, using(crate::proofs::Numerals::fits_more))]
fn short_numeral(base: u64, digits: &[u8]) -> Option<u64>
    requires high { base ≤ 16 }
    requires few { length digits.now ≤ 15 }
    ensures value { result ≡ numeral_after base 0 digits.now }
    ensures small { IfSome result (λ n. n < 2 ^ 64) }
{
    let mut number = 0u64;
    for byte in digits {
        let digit = digit(base, *byte)?;
        number = number * base + digit;
    }
    Some(number)
}

/// The number that digits write: none where one isn't a digit of the base, and then none where it is above the greatest
/// of 64 bits.
#[cold]
#[inline(never)]
fn long_numeral(base: u64, digits: &[u8]) -> Option<Option<u64>>
    requires low { 1 ≤ base }
    requires high { base ≤ 16 }
    ensures { option_map held result ≡ option_map (λ n. min n (2 ^ 64))
        (numeral_after base 0 digits.now) }
{
    let mut number = Some(0u64);
    for byte in digits {
        let digit = digit(base, *byte)?;
        number = with_digit(base, number, digit);
    }
    Some(number)
}

/// The number that digits write: none where they aren't 1 to `most` digits of the base, and then none where it is above
/// the greatest of 64 bits.
#[inline(always)]
fn numeral(base: u64, most: usize, digits: &[u8]) -> Option<Option<u64>>
    requires low { 1 ≤ base }
    requires high { base ≤ 16 }
    ensures { option_map held result ≡ option_map (λ n. min n (2 ^ 64))
        (numeral_of base most digits.now) }
{
    if digits.is_empty() || digits.len() > most {
        return None;
    }
    if digits.len() > SHORT {
        return long_numeral(base, digits);
    }
    match short_numeral(base, digits) {
        Some(number) => Some(Some(number)),
        None => None,
    }
}

/// The number that 1 to `most` decimal digits write, where it is at most `greatest`.
pub fn decimal_number(most: usize, greatest: u64, digits: &[u8]) -> Option<u64>
    ensures value { result ≡ below (greatest + 1) (numeral_of 10 most digits.now) }
    ensures within { IfSome result (λ n. n ≤ greatest) }
{
    let number = numeral(10, most, digits)??;
    if number > greatest {
        return None;
    }
    Some(number)
}

#[inline(always)]
#[tactic(auto, unfolding(crate::specs::Numbers::number_of))]
fn number_in(word: &[u8]) -> Option<Option<u64>>
    ensures { option_map held result ≡ option_map (λ n. min n (2 ^ 64)) (number_of word.now) }
{
    match word {
        [b'0', b'x', digits @ ..] => numeral(16, 16, digits),
        _ => numeral(10, 20, word),
    }
}

fn in_64_bits(number: Option<u64>) -> Result<u64, u8>
    ensures { result ≡ fitting (Some (held number)) }
{
    match number {
        None => Err(OUT_OF_RANGE),
        Some(n) => Ok(n),
    }
}

/// The number that a word writes. It is out of range above the greatest of 64 bits.
#[inline(always)]
pub fn number(word: &[u8]) -> Result<u64, u8>
    ensures { result ≡ number_at word.now }
{
    match number_in(word) {
        None => Err(NOT_A_NUMBER),
        Some(number) => in_64_bits(number),
    }
}

/// A number from `low` to `high`.
#[inline(always)]
#[tactic(auto, unfolding(crate::specs::Numbers::ranged))]
pub fn number_within(word: &[u8], low: u64, high: u64) -> Result<u64, u8>
    ensures value { result ≡ ranged low high word.now }
    ensures within { IfOk result (λ n. (low ≤ n) × (n ≤ high)) }
{
    let n = number(word)?;
    if n < low || n > high {
        return Err(OUT_OF_RANGE);
    }
    Ok(n)
}
