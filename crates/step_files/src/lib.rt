//! Tasks of steps and their products, as the files in which a child finds and leaves them.
//!
//! A file is a sealed frame (`byte_frame`) of version 1. The digest of a task's frame is 32 zero bytes, that of a product
//! is the SHA-256 of the whole file of its task. The bodies are put together from the fields of `step_codec`; which columns,
//! dictionaries and cuboids stand in them is a function of the descriptor that a task holds ([`layout`]).
//!
//! At its boundary:
//!
//! - Bytes are a task exactly where a valid task is written so ([`read_task`]), and a product of a task exactly where one
//!   of its products is written so ([`read_product`]); nothing may follow.
//! - A list that says more than its limit is refused before memory is asked for it.
//!
//! The modules: `task`, `product`: the types; `measures`, `cube`: what a cube's files are read by; `reading`:
//! bodies of tasks from their bytes; `checking`: those of products; `writing`: bodies written; `files`: the files; `examples`, `fault`, `laws`.
#![tactic(auto)]

mod checking;
mod cube;
mod examples;
mod fault;
mod files;
mod laws;
mod measures;
mod product;
mod reading;
mod task;
mod writing;

pub use cube::layout;
pub use examples::worked_examples;
pub use fault::{ProductRefusal, TaskRefusal};
pub use files::{product_file, read_product, read_product_with, read_task, task_text};
pub use laws::{bodies_are_exact, layouts_hold};
pub use product::Product;
pub use step_codec::{CuboidRows, DictColumn, DoneStep, Layout, SealBody, TableColumns};
pub use task::Task;
