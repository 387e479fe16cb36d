// Numbers: what their texts write, and how they are printed.

ghost use Rattle.std.specs.Prelude.{◌≡◌, ◌<◌, ◌≤◌, ◌+◌, ◌^◌, ◌==◌, ℕ, ℤ, drop, length, IfOk, IfSome, IfNone, SomeIff, FitsSigned};
ghost use Rattle.std.specs.Char.{is_ascii_digit};
ghost use Rattle.std.specs.Int.{w64};
ghost use Rattle.std.specs.List.{before_first, list_all, position};
ghost use Rattle.std.specs.Str.Parse.{AllDigits, digits_value};
ghost use Rattle.cube_val.specs.Numbers.{IsFraction, IsWhole, WritesDecimal, WritesInt, decimal_text, four_digits, four_places};
ghost use Rattle.cube_val.specs.Splits.{IsSplit, IsTail, from_point, is_point, signed_by};

use std::alloc::{AllocError, Global};

/// The most digits of a whole number, and before the point of a decimal.
const MOST_DIGITS: usize = 20;

/// The most digits after the point of a decimal.
const MOST_PLACES: usize = 18;

/// The digits after the point that may be other than 0.
const KEPT_PLACES: usize = 4;

/// How many units a decimal's whole has.
const UNITS: u128 = 10_000;

// A number's bytes after its sign, and whether the sign is a minus.
#[derive(Clone, Copy)]
struct Unsigned<'a> {
    negative: bool,
    bytes: &'a [u8],
}

// Takes the sign off, if there is one.
fn without_sign(bytes: &[u8]) -> Unsigned<'_>
    ensures { IsSplit bytes.now result.negative result.bytes.now }
{
    match bytes {
        [b'-', rest @ ..] => Unsigned {
            negative: true,
            bytes: rest,
        },
        [b'+', rest @ ..] => Unsigned {
            negative: false,
            bytes: rest,
        },
        _ => Unsigned {
            negative: false,
            bytes,
        },
    }
}

// Whether each byte is a digit.
fn are_digits(bytes: &[u8]) -> bool
    ensures { result ≡ list_all is_ascii_digit bytes.now }
{
    bytes.iter().all(|byte| byte.is_ascii_digit())
}

// The number that digits write.
#[tactic(auto, using(crate::proofs::Digits::step_at))]
fn number_of(digits: &[u8]) -> u128
    requires digits { AllDigits 10 digits.now }
    requires few { length digits.now ≤ 24 }
    ensures { result ≡ digits_value 10 digits.now }
{
    let mut number = 0;
    for digit in digits {
        number = number * 10 + u128::from(*digit - b'0');
    }
    number
}

// The number of this size under a sign, where it is in an i64.
fn with_sign(negative: bool, size: u128) -> Option<i64>
    requires { size < 10 ^ 25 }
    ensures { SomeIff result (FitsSigned w64 (signed_by negative size)) (signed_by negative size) }
{
    let size = size as i128;
    let number = if negative { -size } else { size };
    i64::try_from(number).ok()
}

// The number that 1 to 20 digits write.
#[tactic(auto, using(crate::proofs::Digits::digits_from_test, crate::proofs::Digits::test_from_digits, crate::proofs::Digits::value_below))]
fn read_digits(digits: &[u8]) -> Option<u128>
    ensures value { SomeIff result (IsWhole digits.now) (digits_value 10 digits.now) }
    ensures small { IfSome result (λ size. size < 10 ^ 20) }
{
    if digits.is_empty() || digits.len() > MOST_DIGITS {
        return None;
    }
    if !are_digits(digits) {
        return None;
    }
    Some(number_of(digits))
}

/// The whole number that the bytes write.
pub(crate) fn read_int(bytes: &[u8]) -> Option<i64>
    ensures some { IfSome result (λ n. WritesInt bytes.now n) }
    ensures none { IfNone result ((n : ℤ) → WritesInt bytes.now n → ⊥) }
{
    let number = without_sign(bytes);
    match read_digits(number.bytes) {
        Some(size) => with_sign(number.negative, size),
        None => None,
    }
}

// The place of the first point.
fn point_of(bytes: &[u8]) -> Option<usize>
    ensures { result ≡ position is_point bytes.now }
{
    bytes.iter().position(|byte| *byte == b'.')
}

// The bytes before the first point, and those from it on.
#[tactic(auto, using(crate::proofs::Decimals::place_or_length))]
fn split_at_point(bytes: &[u8]) -> (&[u8], &[u8])
    ensures whole { result.0.now ≡ before_first is_point bytes.now }
    ensures tail { result.1.now ≡ from_point bytes.now }
{
    let at = point_of(bytes).unwrap_or(bytes.len());
    bytes.split_at(at)
}

// Whether each byte past the fourth is a zero.
fn are_zeros_past_four(digits: &[u8]) -> bool
    ensures { result ≡ list_all (λ byte. byte == 48) (drop 4 digits.now) }
{
    digits.iter().skip(KEPT_PLACES).all(|byte| *byte == b'0')
}

// The first four digits, filled up with zeros.
fn four_places_of(digits: &[u8]) -> [u8; 4]
    ensures { result ≡ four_places digits.now }
{
    match digits {
        [] => *b"0000",
        [a] => [*a, b'0', b'0', b'0'],
        [a, b] => [*a, *b, b'0', b'0'],
        [a, b, c] => [*a, *b, *c, b'0'],
        [a, b, c, d, ..] => [*a, *b, *c, *d],
    }
}

// The value of the first four places of the digits after a point.
#[tactic(auto, using(crate::proofs::Decimals::fraction_from_tests, crate::proofs::Decimals::tests_from_fraction))]
fn read_places(digits: &[u8]) -> Option<u128>
    ensures value { SomeIff result (IsFraction digits.now) (digits_value 10 (four_places digits.now)) }
    ensures small { IfSome result (λ places. places < 10 ^ 4) }
{
    if digits.len() > MOST_PLACES || !are_digits(digits) {
        return None;
    }
    if !are_zeros_past_four(digits) {
        return None;
    }
    Some(number_of(&four_places_of(digits)))
}

// The same of a point and the digits after it, and 0 where there is no point.
fn read_tail(tail: &[u8]) -> Option<u128>
    ensures some { IfSome result (λ places. IsTail tail.now places) }
    ensures none { IfNone result ((places : ℕ) → IsTail tail.now places → ⊥) }
    ensures small { IfSome result (λ places. places < 10 ^ 4) }
{
    match tail {
        [] => Some(0),
        [b'.', digits @ ..] => {
            if digits.is_empty() {
                return None;
            }
            read_places(digits)
        }
        _ => None,
    }
}

/// The decimal that the bytes write, in units of 1/10000.
pub(crate) fn read_decimal(bytes: &[u8]) -> Option<i64>
    ensures some { IfSome result (λ units. WritesDecimal bytes.now units) }
    ensures none { IfNone result ((units : ℤ) → WritesDecimal bytes.now units → ⊥) }
{
    let number = without_sign(bytes);
    let (whole, tail) = split_at_point(number.bytes);
    let Some(whole) = read_digits(whole) else {
        return None;
    };
    let Some(places) = read_tail(tail) else {
        return None;
    };
    with_sign(number.negative, whole * UNITS + places)
}

// The four digits of a number below 10000.
fn four_digits_of(number: u16) -> [u8; 4]
    requires { number < 10_000 }
    ensures { result ≡ four_digits number }
{
    [
        digit(number / 1_000),
        digit(number / 100 % 10),
        digit(number / 10 % 10),
        digit(number % 10),
    ]
}

fn digit(value: u16) -> u8
    requires { value < 10 }
    ensures { result ≡ 48 + value }
{
    b'0' + value as u8
}

/// The text of so many units of 1/10000: the digits, a point and four digits, after a minus where the number is below 0.
pub fn decimal_text(alloc: Global, units: i128) -> Result<Vec<u8>, AllocError>
    ensures { IfOk result (λ text. text.items ≡ decimal_text units) }
{
    let size = units.unsigned_abs();
    let whole = (size / UNITS).to_string(alloc)?;
    let mut text = Vec::new(alloc);
    if units < 0 {
        text.push(b'-')?;
    }
    text.extend_from_slice(whole.as_bytes())?;
    text.push(b'.')?;
    text.extend_from_slice(&four_digits_of((size % UNITS) as u16))?;
    Ok(text)
}
