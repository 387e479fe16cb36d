//! The work of a child: the task in a file becomes the product in another.
//!
//! The crate puts the grammars of step files (`step_files`) and what each step makes (`step_compute`) together, and gives on the
//! names of the first, so that who needs tasks and products names this crate alone.
//!
//! At its boundary: the bytes that [`run_step`] gives are the file of what the definitions make of the task
//! (`specs/Steps.antt`), and they are a product of it ([`steps_make_products`]). `BadTask` comes exactly where the bytes are no
//! task, and `Stopped` only where the watch saw a stop. [`CubeWork`] is this work for whoever is generic over a kind of work.
//!
//! The modules: `making`: the product of a task; `work`: from bytes to bytes; `laws`.
#![tactic(auto)]

mod laws;
mod making;
mod work;

pub use laws::{steps_make_products, texts_are_of_tasks};
pub use step_files::{
    CuboidRows, DictColumn, DoneStep, Layout, Product, ProductRefusal, SealBody, TableColumns,
    Task, TaskRefusal, layout, product_file, read_product, read_product_with, read_task, task_text,
};
pub use work::{CubeWork, run_step};
