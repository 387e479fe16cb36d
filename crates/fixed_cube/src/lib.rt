//! The cube of the first jobs: one fact table, two dimensions, one sum, and the work of its three steps.
//!
//! The fact table F has the columns DT, D1, D2 and M; DT only places a row in a range. The only cuboid is the base: for
//! each D1 and D2 the number of rows and the sum of their M. A BUILD has three steps: flat joins the rows of a range, base
//! aggregates them, and seal hands the cells on. Their tasks and products are lists of bytes made of the fields of
//! `step_fields`. The one query groups the rows by D1.
//!
//! At its boundary:
//!
//! - `specs/Cube.antt` has the cube as the record that the definitions of a run take (`fixed`).
//! - Bytes are a task exactly where a task that fits is written so, and a product of a task exactly where its list is
//!   ([`tasks_are_exact`]); whatever else a child hands in is Damaged ([`read_product`]).
//! - [`SmallWork`] makes of a task the one product that the definitions give.
//! - The products of the three steps of a job over rows that fit are the base cuboid of its joined rows
//!   ([`steps_build_the_base`]).
//! - The answer to the query from the cells of segments is the plain answer over their joined rows ([`answer_over`]).
//!
//! The modules:
//!
//! - `columns`: the columns of F, of joined rows and of keys; `cells`: cells and lists of them.
//! - `task`, `products`: tasks and products; `reading`: both from their bytes; `job_tasks`: the tasks of a job.
//! - `steps`: what the steps do; `work`: the same as a child does it; `answer`: the answer from cells.
//! - `laws` and `examples`.
#![tactic(auto)]

mod answer;
mod cells;
mod columns;
mod examples;
mod job_tasks;
mod laws;
mod products;
mod reading;
mod steps;
mod task;
mod work;

pub use answer::{answer_over, by_first};
pub use cells::{FixedCell, FixedCells, put_cells, read_cells};
pub use columns::{FACT_COLUMNS, JOINED_COLUMNS, KEY_COLUMNS, ROW_LIMIT, fact_form};
pub use examples::worked_examples;
pub use job_tasks::{first_task, next_task};
pub use laws::{answers_are_gathered, steps_build_the_base, tasks_are_exact};
pub use products::{FixedProduct, ProductFault};
pub use reading::{read_product, read_task};
pub use steps::{base, product};
pub use task::{FixedTask, FlatWork};
pub use work::SmallWork;
