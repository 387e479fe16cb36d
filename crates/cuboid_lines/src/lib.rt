//! The text of `cuboids`: which cuboids a cube builds, and from which larger one each is computed.
//!
//! `cuboids_text` writes a header and a line for each built mask, rising: the mask, how many dimensions it has, the mask of
//! its parent and the names of its columns. What the lines say comes from the descriptor (`cube_desc`) and from the tree of
//! its cuboids (`cuboid_tree`); the crate reads no file and writes none.
//!
//! The modules: `names` (the names of columns), `lines` (the text).
#![tactic(auto)]

mod lines;
mod names;

pub use lines::cuboids_text;
