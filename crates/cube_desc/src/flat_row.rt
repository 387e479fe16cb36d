//! The places of a flat row: the columns of the rowkey come first, and then those of the fact table that measures are of.

ghost use Rattle.std.specs.Prelude.{◌≡◌};
ghost use Rattle.cube_desc.specs.FlatRow.{measured, place_of};
ghost use Rattle.cube_desc.specs.Sound.{IsSound};

use crate::desc::CubeParts;
use cube_val::WideCol;

/// The columns of a joined row that measures are of, each once.
pub fn measured(cube: &CubeParts) -> &[WideCol]
    requires { IsSound cube.now }
    ensures { result.now ≡ measured cube.now }
{
    let wide = cube.plan.wide.as_slice();
    let (_, measured) = wide.split_at(cube.rowkey.len() + cube.derived.len());
    measured
}

/// The place in a flat row of the column that a measure is of; 0 for a count, which is of none.
pub fn place_of(cube: &CubeParts, column: Option<usize>) -> usize
    requires { IsSound cube.now }
    ensures { result ≡ place_of cube.now column }
{
    match column {
        None => 0,
        Some(column) => {
            let measured = measured(cube);
            let place = measured.iter().position(|w| w.column == column);
            cube.rowkey.len() + place.unwrap_or(measured.len())
        }
    }
}
