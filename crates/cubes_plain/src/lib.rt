//! The commands that run no jobs. `fold PATH` reads a CSV file with the header `D1,D2,M` and writes, for each D1 in
//! order, how many rows it has and the sum of their M. `cuboids PATH` reads a descriptor and writes which cuboids its
//! cube builds. `step TASK PRODUCT STOP` is the child of a run: it reads a task file, does its work and writes the product
//! file, unless something stands at the stop path.
//!
//! The crate stands near the top: the words come from `command_line`; it reads through `outside::Files` and
//! `table_reader`, makes the dictionaries of columns and cuboids of rows by `layer_builder`, has descriptors
//! from `cube_desc` and the lines of their cuboids from `cuboid_lines`, and writes its output or its fault line by `fault_lines`. The modules:
//! `rows` (the bytes of a file to rows, by `table_reader`), `dictionaries` (the numbers of D1 and of D2), `fold` (the cuboid
//! of D1, by way of the base cuboids of pieces, and its text), `fold_command`, `cuboids` and `step` (the commands
//! over their paths) and `plain` (the top call). Which bytes are tasks, and what their
//! products are, comes in as a type, an `outside::StepWork`.
//!
//! The invariant at its boundary is the contract of `run_plain`: which status comes when, and what was written then.
//! Each status but that of want of memory has its one cause; a fault of a read or a write is answered only where the
//! count of the files or of the sink rose. No command changes a file but `step`, which changes its product's alone.
#![tactic(auto)]

mod cuboids;
mod dictionaries;
mod examples;
mod fold;
mod fold_command;
mod plain;
mod rows;
mod step;
mod step_examples;

pub use examples::worked_examples;
pub use plain::run_plain;
pub use step::run_step_file;
pub use step_examples::worked_steps;
