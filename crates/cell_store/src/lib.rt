//! Cells of measures, and tables of them by keys.
//!
//! A cuboid is a `CellTable`: for each combination of the numbers of its dimensions, in order, the cells of all measures.
//! The crate stands on masks (`agg_group`) and measures (`measure_laws`) and knows no values: a key is a list of
//! dictionary numbers, in the rising order of the mask's bits.
//!
//! At its boundary: a table's keys rise strictly, each row has as many numbers as the mask has dimensions and a cell for
//! each form, and for each form the items of all rows are together at most 2^40, so that rows may be merged in any way. A
//! row is shown by `CellTable::row`, each call of which is one step of a `Steps`, or by the `Picked` of a
//! `CellTable::select`, which is a step for each row of the table; so a bound on the steps that a call took is a bound on
//! the rows that it went through.
//!
//! Contracts see a table as the list of its rows. In the code it is a column of numbers for each dimension and the cells
//! of all rows one after another, since a query reads a few columns and not rows.
//!
//! What a cell of each form is of, how it looks and how it is merged is said here once (`cell_of_items`, `merged_cell`), of
//! items that rows have for a measure: a row that has none for it is passed over by whoever makes the items.
//!
//! The modules: `cell`: a cell; `table`: a table of rows; `columns`: how a table keeps its rows; `select`: rows picked by
//! tests of their keys; `lanes`: these tests at eight places at once; `steps`: the counter of rows that were read; `examples`: the definitions on a few cells.
#![tactic(auto)]

mod cell;
mod columns;
mod examples;
mod lanes;
mod select;
mod steps;
mod table;

pub use cell::{Cell, RowItem};
pub use examples::worked_examples;
pub use select::{IdSpan, IdTest, Picked};
pub use steps::Steps;
pub use table::{CellRow, CellTable};
