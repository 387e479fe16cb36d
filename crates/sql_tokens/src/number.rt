// Numbers.

ghost use Rattle.std.specs.Prelude.{◌≡◌, ◌<◌, ◌≤◌, ◌^◌, length, IfSome};
ghost use Rattle.std.specs.Char.{is_ascii_digit};
ghost use Rattle.std.specs.List.{take_while, prefix_len};
ghost use Rattle.std.specs.Option.{option_copied};
ghost use Rattle.std.specs.Str.Parse.{AllDigits, digits_value};
ghost use Rattle.cube_val.specs.Numbers.{four_places};
ghost use Rattle.sql_tokens.specs.Numbers;

use crate::kind::Kind;
use crate::lexeme::Lexeme;
use crate::payload::{Payload, UNITS, Units};
use query_faults::SqlKind;

/// The most digits before a number's point.
const MOST_DIGITS: usize = 30;

/// The most digits behind it.
const MOST_PLACES: usize = 4;

/// The most digits of a number of rows.
const ROW_DIGITS: usize = 9;

fn is_digit(byte: u8) -> bool
    ensures { result ≡ is_ascii_digit byte }
{
    byte.is_ascii_digit()
}

// How many digits stand in front.
fn digits_len(text: &[u8]) -> usize
    ensures value { result ≡ prefix_len is_ascii_digit text.now }
    ensures within { result ≤ length text.now }
{
    text.iter().take_while(|byte| is_digit(**byte)).count()
}

// The digits in front.
#[tactic(auto, using(crate::proofs::NumberFacts::run_digits))]
fn digits(text: &[u8]) -> &[u8]
    ensures run { result.now ≡ take_while is_ascii_digit text.now }
    ensures within { length result.now ≤ length text.now }
    ensures digits { AllDigits 10 result.now }
{
    &text[..digits_len(text)]
}

// The digits behind a point that stands in front.
fn places_behind(text: &[u8]) -> Option<&[u8]>
    ensures value { option_copied result ≡ Numbers.places_behind text.now }
    ensures digits { IfSome result (λ places. AllDigits 10 places.now) }
{
    match text {
        [b'.', rest @ ..] => Some(digits(rest)),
        _ => None,
    }
}

// The number that digits write.
#[tactic(auto, using(crate::proofs::NumberFacts::step_at))]
fn value_of(digits: &[u8]) -> u128
    requires digits { AllDigits 10 digits.now }
    requires few { length digits.now ≤ 30 }
    ensures { result ≡ digits_value 10 digits.now }
{
    let mut value = 0;
    for digit in digits {
        value = value * 10 + u128::from(*digit - b'0');
    }
    value
}

// The first four places, filled up with zeros.
fn four_places(places: &[u8]) -> [u8; 4]
    ensures { result ≡ four_places places.now }
{
    match places {
        [] => *b"0000",
        [a] => [*a, b'0', b'0', b'0'],
        [a, b] => [*a, *b, b'0', b'0'],
        [a, b, c] => [*a, *b, *c, b'0'],
        [a, b, c, d, ..] => [*a, *b, *c, *d],
    }
}

// A number without a point.
fn whole(digits: &[u8]) -> Lexeme
    requires { AllDigits 10 digits.now }
    ensures { result ≡ Numbers.whole_lexeme digits.now }
{
    if digits == b"1".as_slice() {
        return Lexeme::Token(Kind::One, Payload::Rows(1), 1);
    }
    if digits.len() <= ROW_DIGITS {
        let rows = value_of(digits) as u32;
        return Lexeme::Token(Kind::Whole, Payload::Rows(rows), digits.len());
    }
    if digits.len() > MOST_DIGITS {
        return Lexeme::Bad(SqlKind::BadNumber);
    }
    let units = Units::new(value_of(digits) * UNITS);
    Lexeme::Token(Kind::Number, Payload::Units(units), digits.len())
}

// A number with a point.
fn decimal(digits: &[u8], places: &[u8]) -> Lexeme
    requires digits { AllDigits 10 digits.now }
    requires places { AllDigits 10 places.now }
    ensures { result ≡ Numbers.decimal_lexeme digits.now places.now }
{
    if digits.len() > MOST_DIGITS || places.is_empty() || places.len() > MOST_PLACES {
        return Lexeme::Bad(SqlKind::BadNumber);
    }
    let size = value_of(digits) * UNITS + value_of(&four_places(places));
    let len = digits.len() + 1 + places.len();
    Lexeme::Token(Kind::Number, Payload::Units(Units::new(size)), len)
}

/// The number in front.
#[tactic(auto, unfolding(crate::specs::Numbers::number_at))]
pub(crate) fn read_number(text: &[u8]) -> Lexeme
    ensures { result ≡ Numbers.number_at text.now }
{
    let digits = digits(text);
    match places_behind(&text[digits.len()..]) {
        None => whole(digits),
        Some(places) => decimal(digits, places),
    }
}
