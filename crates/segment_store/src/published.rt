// Ready sets as a row publishes them.

use crate::ready_set::ReadySet;
use outside::Honest;
use version_row::Published;

impl<H: Honest> Published for ReadySet<H> {
    ghost use Rattle.std.specs.Prelude.{All};
    ghost use Rattle.segment_store.specs.Built.{IsBuiltFor};

    ghost number = { λ set. set.version };

    ghost is_built_for = { λ desc set. All (IsBuiltFor desc.cube) set.segments };

    fn version(&self) -> u32 {
        ReadySet::version(self)
    }
}
