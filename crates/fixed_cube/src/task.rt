// Tasks.

ghost use Rattle.std.specs.Prelude.{◌≡◌};

use crate::cells::FixedCells;
use cube_val::Table;
use range_list::Range;
use std::marker::Model;

/// What the flat step works on: a range, and the rows of F.
#[derive(Debug, Drop)]
pub struct FlatWork {
    range: Range,
    rows: Table,
}

impl Model for FlatWork {
    ghost use Rattle.std.specs.Prelude.{List};
    ghost use Rattle.cube_val.specs.declared.val.Val.{Val};
    ghost use Rattle.range_list.specs.Ranges.{Interval};

    ghost Value = { Interval × List (List Val) };

    ghost view = { λ work. (work.range, work.rows) };
}

impl FlatWork {
    /// The work on these rows in this range.
    pub fn of(range: Range, rows: Table) -> FlatWork
        ensures { result ≡ (range, rows) }
    {
        FlatWork { range, rows }
    }

    /// The range.
    pub fn range(&self) -> &Range
        ensures { result.now ≡ self.now.0 }
    {
        &self.range
    }

    /// The rows of F.
    pub fn rows(&self) -> &Table
        ensures { result.now ≡ self.now.1 }
    {
        &self.rows
    }
}

/// A task of a BUILD, by its step.
#[derive(Debug, Drop)]
pub enum FixedTask {
    /// The first step: the rows of F that lie in a range are joined.
    Flat(FlatWork),
    /// The second step: joined rows are aggregated.
    Base(Table),
    /// The third step: the cells are handed on as they are.
    Seal(FixedCells),
}
