// The kinds of token.

ghost use Rattle.std.specs.Prelude.{◌≡◌};
ghost use Rattle.sql_tokens.specs.Kinds;

/// What a token is. A keyword is itself in every case of its letters.
#[derive(Clone, Copy, Debug, PartialEq, Eq)]
pub enum Kind {
    Select,
    From,
    Inner,
    Left,
    Outer,
    Join,
    On,
    Where,
    Group,
    By,
    Having,
    Order,
    Limit,
    As,
    Count,
    Distinct,
    Sum,
    Min,
    Max,
    Avg,
    Or,
    And,
    Not,
    In,
    Between,
    Is,
    Null,
    Asc,
    Desc,
    Date,
    Comma,
    Open,
    Close,
    Star,
    Semicolon,
    Dot,
    Plus,
    Minus,
    Equal,
    /// `<>` or `!=`.
    NotEqual,
    Less,
    LessEqual,
    Greater,
    GreaterEqual,
    /// A word that is no keyword, or any name in double quotes.
    Name,
    /// A text in single quotes.
    Text,
    /// The number that is written `1`.
    One,
    /// Another number without a point, of at most nine digits.
    Whole,
    /// Any other number.
    Number,
}

impl Kind {
    /// Whether both are the same kind.
    pub fn is(self, other: Kind) -> bool
        ensures { result ≡ Kinds.same self other }
    {
        self == other
    }
}
