// What tokens stand for.

ghost use Rattle.std.specs.Prelude.{◌≡◌, ◌<◌, ◌^◌, [], IfOk};
ghost use Rattle.sql_tokens.specs.Payloads.{name_in, signed, text_in, units_in, rows_in};

use cube_val::{NameText, ReadVal, TextVal};
use std::alloc::{AllocError, Global};
use std::marker::Model;

/// How many units a whole has.
pub(crate) const UNITS: u128 = 10_000;

/// The size of a number, in units of 1/10000: below 10^34, so an `i128` has room for it under either sign.
#[derive(Clone, Copy)]
pub struct Units {
    units: u128,
}

impl Model for Units {
    ghost use Rattle.std.specs.Prelude.{ℕ, ◌<◌, ◌^◌};

    ghost Value = { ℕ };

    ghost view = { λ size. size.units };

    ghost invariant = { λ size. size.units < 10 ^ 34 };

    ghost inverse = { λ n. record { units = n } };
}

impl Units {
    /// So many units.
    pub(crate) fn new(units: u128) -> Units
        requires { units < 10 ^ 34 }
        ensures { result ≡ units }
    {
        Units { units }
    }

    /// The number of this size, below zero where it is negative.
    pub fn signed(self, negative: bool) -> i128
        ensures { result ≡ signed negative self }
    {
        let size = self.units as i128;
        if negative { -size } else { size }
    }
}

/// What a token stands for beside its kind.
#[derive(Drop)]
pub enum Payload {
    /// Nothing: of a keyword or a symbol.
    Nothing,
    /// A name, in upper case.
    Name(NameText),
    /// A text.
    Text(TextVal),
    /// A number that is whole and has at most nine digits.
    Rows(u32),
    /// Any other number.
    Units(Units),
}

impl Payload {
    /// A copy of the name; no byte where this is none.
    pub fn name(&self, alloc: Global) -> Result<NameText, AllocError>
        ensures { IfOk result (λ name. name ≡ name_in self.now) }
    {
        match self {
            Payload::Name(name) => name.copy(),
            _ => NameText::new(alloc, &[]),
        }
    }

    /// A copy of the text; the empty text where this is none.
    pub fn text(&self, alloc: Global) -> Result<TextVal, AllocError>
        ensures { IfOk result (λ text. text ≡ text_in self.now) }
    {
        match self {
            Payload::Text(text) => text.copy(),
            _ => empty_text(alloc),
        }
    }

    /// The number's size; 0 where this is none.
    pub fn units(&self) -> Units
        ensures { result ≡ units_in self.now }
    {
        match self {
            Payload::Rows(rows) => Units::new(u128::from(*rows) * UNITS),
            Payload::Units(units) => *units,
            _ => Units::new(0),
        }
    }

    /// The number that is whole and has at most nine digits; 0 where this is none.
    pub fn rows(&self) -> u32
        ensures { result ≡ rows_in self.now }
    {
        match self {
            Payload::Rows(rows) => *rows,
            _ => 0,
        }
    }
}

fn empty_text(alloc: Global) -> Result<TextVal, AllocError>
    ensures { IfOk result (λ text. text ≡ []) }
{
    match TextVal::new(alloc, &[]) {
        Ok(text) => Ok(text),
        Err(ReadVal::Memory | ReadVal::BadValue) => Err(AllocError),
    }
}
