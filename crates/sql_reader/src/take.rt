// One token of a kind.

ghost use Rattle.std.specs.Prelude.{◌≡◌, ◌∷◌, false, [], length, Ok, Err};
ghost use Rattle.sql_reader.specs.Kinds.{heads};
ghost use Rattle.sql_reader.specs.Readers.{Gives, read_token};
ghost use Rattle.sql_reader.specs.Parsers.{read_place, read_end};

use crate::stop::{ReadError, Stop};
use sql_tokens::{Kind, Token};

pub(crate) fn starts(tokens: &[Token], kind: Kind) -> bool
    ensures { result ≡ heads (kind ∷ []) tokens.now }
{
    match tokens {
        [] => false,
        [first, ..] => first.kind.is(kind),
    }
}

pub(crate) fn unexpected(tokens: &[Token]) -> ReadError
    ensures { result ≡ ReadError.Stop (Stop.Unexpected (length tokens.now)) }
{
    ReadError::Stop(Stop::Unexpected(tokens.len()))
}

pub(crate) fn take(tokens: &[Token], kind: Kind) -> Result<(&Token, &[Token]), ReadError>
    ensures { Gives (λ x. (x.0.now, x.1.now)) result (read_token kind tokens.now) }
{
    match tokens {
        [] => Err(unexpected(tokens)),
        [first, rest @ ..] => {
            if first.kind.is(kind) {
                Ok((first, rest))
            } else {
                Err(unexpected(tokens))
            }
        }
    }
}

#[tactic(auto, unfolding(crate::specs::Parsers::read_place))]
pub(crate) fn place(tokens: &[Token], kind: Kind) -> Result<(u32, &[Token]), ReadError>
    ensures { Gives (λ x. (x.0, x.1.now)) result (read_place kind tokens.now) }
{
    let (token, rest) = take(tokens, kind)?;
    Ok((token.place, rest))
}

// What was read, where a token of the kind stands behind it.
pub(crate) fn ended_by<T: Drop>(
    tree: T,
    tokens: &[Token],
    kind: Kind,
) -> Result<(T, &[Token]), ReadError>
    ensures { Gives (λ x. (x.0, x.1.now)) result (read_end tree kind tokens.now) }
{
    let (_, rest) = take(tokens, kind)?;
    Ok((tree, rest))
}
