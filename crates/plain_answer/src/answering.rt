// The answer of an ask over rows.

ghost use Rattle.std.specs.Prelude.{◌≡◌, ◌≤◌, length, IfOk};
ghost use Rattle.measure_laws.specs.Measures.{most_items};
ghost use Rattle.plain_answer.specs.Answers.{plain_of};

use crate::answer::AnswerTable;
use crate::ask::Ask;
use crate::grouped_table::table;
use crate::groups::{groups, passing};
use cube_val::Row;
use std::alloc::{AllocError, Global};

/// The answer of an ask over rows, by the definition. It takes a pass over the rows for each group.
pub fn plain(alloc: Global, ask: &Ask, rows: &[Row]) -> Result<AnswerTable, AllocError>
    requires { length rows.now ≤ most_items }
    ensures { IfOk result (λ table. table ≡ plain_of ask.now rows.now) }
{
    let passing = passing(alloc, &ask.filter, rows)?;
    let groups = groups(alloc, ask.group.as_slice(), ask.aggs.as_slice(), &passing)?;
    table(alloc, ask, groups)
}
