//! Lists that rise strictly.

ghost use Rattle.std.specs.Prelude.{◌≡◌, Bool};
ghost use Rattle.byte_frame.specs.Spelling.{rises, is_below};

/// Values in an order.
pub trait Below {
    /// Whether one comes before the other.
    ghost below: { Self → Self → Bool };

    /// Whether this one comes before the other.
    fn below(&self, other: &Self) -> bool
        ensures { result ≡ below self.now other.now };
}

// Whether x comes before the first of xs, if there is one.
fn below_first<T: Below>(x: &T, xs: &[T]) -> bool
    ensures { result ≡ is_below T.below x.now xs.now }
{
    match xs {
        [] => true,
        [y, ..] => x.below(y),
    }
}

/// Whether each comes before the one after it.
pub fn rise<T: Below>(xs: &[T]) -> bool
    ensures { result ≡ rises T.below xs.now }
{
    for i in 0..xs.len() {
        if !below_first(&xs[i], &xs[i + 1..]) {
            return false;
        }
    }
    true
}
