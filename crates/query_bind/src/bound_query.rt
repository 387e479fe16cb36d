// Bound queries.

use agg_group::Mask;
use plain_answer::Ask;
use query_names::BindFault;
use std::alloc::AllocError;

/// A query over a cube.
#[derive(Drop)]
pub struct Bound {
    /// What is asked of the joined rows.
    pub ask: Ask,
    /// The rowkey columns that a cuboid has to have to answer it.
    pub needed: Mask,
}

/// Why a query isn't bound.
#[derive(Debug, Drop)]
pub enum BindRefusal {
    /// The cube can't answer it: the first kind of fault, at the least byte at which it stands.
    Fault(BindFault),
    /// There is no memory for what is asked. It may stand in place of any other answer.
    Memory,
}

impl From<AllocError> for BindRefusal {
    ghost use Rattle.std.specs.Prelude.{◌≡◌};
    ghost use Rattle.query_bind.specs.declared.bound_query.BindRefusal.TheVariants as refusal;

    ghost from_gives = { λ _ r. r ≡ refusal.Memory };

    fn from(_error: AllocError) -> BindRefusal {
        BindRefusal::Memory
    }
}
