// The flat step.

ghost use Rattle.std.specs.Prelude.{◌≡◌, IfOk, IsErrOf};
ghost use Rattle.flat_join.specs.Flat.{AreTablesOf, flat_of};
ghost use Rattle.step_compute.specs.Watched.{Looked, SawStop};

use crate::fault::StepFault;
use crate::watching::{ROWS_PER_LOOK, look};
use cube_desc::CubeDesc;
use cube_val::TableSet;
use flat_join::PreparedJoin;
use outside::Watch;
use plain_answer::FlatRows;
use range_list::Range;
use std::alloc::Global;

// The flat rows of the fact table, part by part.
fn in_parts<W: Watch>(
    alloc: Global,
    join: &PreparedJoin<'_>,
    watch: &mut W,
) -> Result<FlatRows, StepFault>
    ensures flat { IfOk result (λ flat. flat ≡ flat_of join.now.cube join.now.tables join.now.range) }
    ensures looked { Looked W.seen W.there W.held W.place watch.old watch.new }
    ensures stopped { IsErrOf result StepFault.Stopped → SawStop W.seen W.there watch.old watch.new }
{
    let facts = join.facts();
    let mut flat = FlatRows::new(alloc);
    let mut start = 0;
    while start < facts.len() {
        look(watch)?;
        let end = start + ROWS_PER_LOOK.min(facts.len() - start);
        join.add_rows(alloc, &facts[start..end], &mut flat)?;
        start = end;
    }
    Ok(flat)
}

/// The flat rows of a cube's tables and a range.
pub fn flat_value<W: Watch>(
    alloc: Global,
    desc: &CubeDesc,
    tables: &TableSet,
    range: &Range,
    watch: &mut W,
) -> Result<FlatRows, StepFault>
    requires { AreTablesOf desc.now.cube tables.now }
    ensures flat { IfOk result (λ flat. flat ≡ flat_of desc.now.cube tables.now range.now) }
    ensures looked { Looked W.seen W.there W.held W.place watch.old watch.new }
    ensures stopped { IsErrOf result StepFault.Stopped → SawStop W.seen W.there watch.old watch.new }
{
    let join = PreparedJoin::new(alloc, desc, tables, range)?;
    in_parts(alloc, &join, watch)
}
