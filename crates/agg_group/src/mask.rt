// Masks: sets of dimensions in one word.

/// A set of dimensions, numbered from 0 to 63: dimension d is in it where bit d of the number is 1.
/// Masks are ordered as their numbers.
#[derive(Clone, Copy, PartialEq, Eq, PartialOrd, Ord, Hash, Debug)]
pub struct Mask(pub u64);

impl Mask {
    ghost use Rattle.std.specs.Prelude.{◌≡◌, ◌≢◌, ℕ, ◌<◌, ◌↔◌, true, IsTrue};
    ghost use Rattle.agg_group.specs.Sets.{is_among};
    ghost use Rattle.agg_group.specs.Mask.{has, count_of, is_within, IsWithin};
    ghost use Rattle.agg_group.specs.Rules.{AreDimensions};
    ghost use Rattle.agg_group.specs.Units.{joined, mask_of, is_capped};

    /// The set of these dimensions. A dimension may stand more than once.
    pub fn of(dims: &[u32]) -> Mask
        requires { AreDimensions dims.now }
        ensures set { (d : ℕ) → has result d ≡ is_among d dims.now }
        ensures value { result ≡ mask_of dims.now }
    {
        let mut mask = Mask(0);
        for d in dims {
            mask = mask.with(*d);
        }
        mask
    }

    fn with(self, d: u32) -> Mask
        requires { d < 64 }
        ensures same { has result d ≡ true }
        ensures others { (e : ℕ) → e ≢ d → has result e ≡ has self e }
    {
        Mask(self.0 | (1 << d))
    }

    /// Whether the dimension is in the set; no mask has a dimension above 63.
    pub fn has(&self, d: u32) -> bool
        ensures { result ≡ has self.now d }
    {
        let number = self.0;
        d < 64 && (number >> d) % 2 == 1
    }

    /// Whether each dimension of this set is one of the other; a set is within itself.
    pub fn within(&self, o: Mask) -> bool
        ensures test { result ≡ is_within self.now o }
        ensures subset { IsTrue result ↔ IsWithin self.now o }
    {
        self.0 & o.0 == self.0
    }

    /// How many dimensions the set has.
    pub fn count(&self) -> u32
        ensures { result ≡ count_of self.now }
    {
        self.0.count_ones()
    }

    /// The dimensions of either set.
    pub(crate) fn joined(self, o: Mask) -> Mask
        ensures { result ≡ joined self o }
    {
        Mask(self.0 | o.0)
    }

    /// Whether the set has no more dimensions than the cap, where there is one.
    pub(crate) fn is_capped(self, cap: Option<u32>) -> bool
        ensures { result ≡ is_capped cap self }
    {
        match cap {
            None => true,
            Some(most) => self.count() <= most,
        }
    }
}
