// The truth of conditions.

ghost use Rattle.std.specs.Prelude.{◌≡◌, fold};
ghost use Rattle.plain_answer.specs.declared.truth.Truth.TheVariants as truth;
ghost use Rattle.plain_answer.specs.Conditions.{any_equal, comparison, passes_test, truth_of, value_of_lit};
ghost use Rattle.plain_answer.specs.OutRefs.{value_of};
ghost use Rattle.plain_answer.specs.Truths.{disjunction};

use crate::cond::{Cond, Lit, Test};
use crate::out_ref::OutRef;
use crate::terms::Terms;
use crate::truth::Truth;
use std::cmp::Ordering;

impl Lit {
    /// The literal as a value.
    pub fn as_ref(&self) -> OutRef<'_>
        ensures { value_of result ≡ value_of_lit self.now }
    {
        match self {
            Lit::Number(n) => OutRef::Units(*n),
            Lit::Text(text) => OutRef::Text(text),
        }
    }
}

impl Test {
    /// Whether the test passes a value that stands so to the literal.
    pub fn passes(self, order: Ordering) -> bool
        ensures { result ≡ passes_test self order }
    {
        match self {
            Test::Eq => order.is_eq(),
            Test::Ne => order.is_ne(),
            Test::Lt => order.is_lt(),
            Test::Le => order.is_le(),
            Test::Gt => order.is_gt(),
            Test::Ge => order.is_ge(),
        }
    }
}

// A comparison with a literal.
fn compare(test: Test, v: OutRef<'_>, lit: &Lit) -> Truth
    ensures { result ≡ comparison test (value_of v.entry) lit.now }
{
    if v.is_null() {
        return Truth::Unknown;
    }
    Truth::from_bool(test.passes(v.cmp(lit.as_ref())))
}

// Whether a value is one of the literals.
fn any_equal(v: OutRef<'_>, lits: &[Lit]) -> Truth
    ensures { result ≡ any_equal (value_of v.entry) lits.now }
{
    lits.iter()
        .fold(Truth::False, |any, lit| any.or(compare(Test::Eq, v, lit)))
}

/// The truth of a condition.
pub fn evaluate<T: Terms>(terms: &T, cond: &Cond) -> Truth
    ensures { result ≡ truth_of (T.value terms.now) cond.now }
{
    match cond {
        Cond::True => Truth::True,
        Cond::Compare(term, test, lit) => compare(*test, terms.get(*term), lit),
        Cond::AnyOf(term, lits) => any_equal(terms.get(*term), lits.as_slice()),
        Cond::IsNull(term) => Truth::from_bool(terms.get(*term).is_null()),
        Cond::And(a, b) => evaluate(terms, a.get()).and(evaluate(terms, b.get())),
        Cond::Or(a, b) => evaluate(terms, a.get()).or(evaluate(terms, b.get())),
        Cond::Not(a) => evaluate(terms, a.get()).not(),
    }
}
