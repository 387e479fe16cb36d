// Tokens.

use crate::kind::Kind;
use crate::payload::Payload;

/// A token.
#[derive(Drop)]
pub struct Token {
    /// What it is.
    pub kind: Kind,
    /// The byte of the text at which it starts, from 0.
    pub place: u32,
    /// The name, text or number that it stands for.
    pub payload: Payload,
}
