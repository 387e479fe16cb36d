// The three truth values of a condition.

ghost use Rattle.std.specs.Prelude.{◌≡◌};
ghost use Rattle.plain_answer.specs.Truths.{conjunction, disjunction, negation, truth_from};

/// Whether a condition holds; with a null it may be unknown.
#[derive(Clone, Copy, Debug, PartialEq, Eq)]
pub enum Truth {
    /// It holds.
    True,
    /// It doesn't hold.
    False,
    /// A null leaves it open.
    Unknown,
}

impl Truth {
    /// True or false.
    pub fn from_bool(holds: bool) -> Truth
        ensures { result ≡ truth_from holds }
    {
        if holds { Truth::True } else { Truth::False }
    }

    /// False where one is false, true where both are true, else unknown.
    pub fn and(self, other: Truth) -> Truth
        ensures { result ≡ conjunction self other }
    {
        match (self, other) {
            (Truth::False, _) | (_, Truth::False) => Truth::False,
            (Truth::True, Truth::True) => Truth::True,
            _ => Truth::Unknown,
        }
    }

    /// True where one is true, false where both are false, else unknown.
    pub fn or(self, other: Truth) -> Truth
        ensures { result ≡ disjunction self other }
    {
        match (self, other) {
            (Truth::True, _) | (_, Truth::True) => Truth::True,
            (Truth::False, Truth::False) => Truth::False,
            _ => Truth::Unknown,
        }
    }

    /// False where it is true and true where it is false.
    pub fn not(self) -> Truth
        ensures { result ≡ negation self }
    {
        match self {
            Truth::True => Truth::False,
            Truth::False => Truth::True,
            Truth::Unknown => Truth::Unknown,
        }
    }
}
