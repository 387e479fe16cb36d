// What is wrong with a query's text.

ghost use Rattle.std.specs.Prelude.{◌≡◌};
ghost use Rattle.query_faults.specs.Texts.{sql_kind_text};

/// The kinds of fault.
#[derive(Clone, Copy, Debug, PartialEq, Eq)]
pub enum SqlKind {
    /// More than 10,000 bytes. Its place is 0.
    TooLong,
    /// No token starts here; or a quoted name or text starts here that doesn't end, is too long, isn't UTF-8 or is no name; or a word of
    /// more than 64 bytes.
    BadToken,
    /// A number starts here that has too many digits, or a point without one to four digits behind it; or a LIMIT with a point or more
    /// than nine digits.
    BadNumber,
    /// The 65th `(` or NOT of a condition that is open here.
    TooDeep,
    /// The first token such that no query begins with the tokens up to it and with it; or the end of the text, where the tokens are no query.
    Unexpected,
}

impl SqlKind {
    /// The kind's printed word.
    pub fn as_str(&self) -> &'static str
        ensures { result.now ≡ sql_kind_text self.now }
    {
        match self {
            SqlKind::TooLong => "TooLong",
            SqlKind::BadToken => "BadToken",
            SqlKind::BadNumber => "BadNumber",
            SqlKind::TooDeep => "TooDeep",
            SqlKind::Unexpected => "Unexpected",
        }
    }
}

/// A fault, and where it is.
#[derive(Clone, Copy, Debug, PartialEq, Eq)]
pub struct SqlFault {
    /// The byte at which it is, from 0.
    pub place: u32,
    /// What it is.
    pub kind: SqlKind,
}
