// Rows aggregated by a set of dimensions.

ghost use Rattle.std.specs.Prelude.{◌≡◌, ◌≤◌, length, map, IfOk};
ghost use Rattle.measure_laws.specs.Measures.{most_items};
ghost use Rattle.plain_answer.specs.Projections.{aggregate_by, columns_of};

use crate::answer::PlainRow;
use crate::ask::Agg;
use crate::groups::{distinct_keys, groups_at};
use agg_group::Mask;
use cube_val::Row;
use std::alloc::{AllocError, Global};

// The columns of a set of dimensions.
fn columns_of(alloc: Global, dims: Mask) -> Result<Vec<usize>, AllocError>
    ensures { IfOk result (λ columns. columns.items ≡ columns_of dims) }
{
    let mut columns = Vec::new(alloc);
    for d in 0..64 {
        if dims.has(d) {
            columns.push(d as usize)?;
        }
    }
    Ok(columns)
}

// References to rows.
fn references(alloc: Global, rows: &[Row]) -> Result<Vec<&Row>, AllocError>
    ensures { IfOk result (λ refs. map (λ row. row.now) refs.items ≡ rows.now) }
{
    rows.iter().collect(alloc)
}

/// The rows aggregated by a set of dimensions, of which dimension d is column d: for each distinct projection of the rows on
/// the dimensions, in order, what each form makes of the rows of that projection, as `plain` shows it. Over no rows there is
/// no projection, also on no dimension. It takes a pass over the rows for each projection.
pub fn aggregate(
    alloc: Global,
    dims: Mask,
    forms: &[Agg],
    rows: &[Row],
) -> Result<Vec<PlainRow>, AllocError>
    requires { length rows.now ≤ most_items }
    ensures { IfOk result (λ groups. groups.items ≡ aggregate_by dims forms.now rows.now) }
{
    let columns = columns_of(alloc, dims)?;
    let rows = references(alloc, rows)?;
    let keys = distinct_keys(alloc, &columns, &rows)?;
    groups_at(alloc, &columns, forms, &rows, keys)
}
