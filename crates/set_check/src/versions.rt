// Sets that are nothing but their versions.

use std::sync::Arc;
use version_row::{Published, Shown};

/// A set that is its version, built for every descriptor.
#[derive(Drop)]
pub(crate) struct Version(pub(crate) u32);

impl Published for Version {
    ghost number = { λ set. set.0 };

    ghost is_built_for = { λ _ _. Unit {0} };

    fn version(&self) -> u32 {
        self.0
    }
}

/// A token of such a set.
pub(crate) type Token = Arc<Shown<Version>>;
