// What a set is to a row.

ghost use Rattle.std.specs.Prelude.{◌≡◌, ℕ};
ghost use Rattle.cube_desc.specs.Meaning.{Descriptor};

/// A set that a row publishes: it has a version, and it is built for a descriptor or not.
pub trait Published {
    // The number of the set among those of a run.
    ghost number: { Self → ℕ };

    // The set is built for this descriptor.
    ghost is_built_for: { Descriptor → Self → Type 0 };

    /// Its version.
    fn version(&self) -> u32
        ensures { result ≡ number self.now };
}
