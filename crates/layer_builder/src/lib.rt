//! Cuboids: the base from the rows of a segment, and each smaller one from a larger one.
//!
//! The crate stands on rows and aggregates (`plain_answer`), on dictionaries (`dim_dictionary`), cell tables (`cell_store`)
//! and rows gathered by keys (`cell_gather`), and on `rayon` for work in pieces. It knows neither descriptors nor step files.
//!
//! At its boundary: `base` is the aggregate of the rows by all rowkey columns, in dictionary numbers, and the same for
//! every number of pieces; by `base_pieces` and `base_of_pieces` it is made of rows that come a part at a time. `regroup` gathers a
//! table's rows by some of its dimensions, in as many steps as there are rows, and `layer` makes many cuboids so. `cuboid` makes a
//! smaller cuboid from rows at once. By `cuboids_of_rows` a table that is regrouped from the base, at once or by way of others, is the
//! aggregate of the same rows; by `values_of_cuboids` what such a table means over its dictionaries is their aggregate in values.
//!
//! The modules: `place_cache`: places where values were found before; `column_dict`: the dictionary of a column; `keys`: keys of rows;
//! `runs`: rows in the order of their keys; `cells`: the cells of rows of one key; `base_cuboid`: the base cuboid; `layers`:
//! smaller ones; `in_pieces`: a smaller one from rows; `table_results`: the results of pieces; `laws`: what the tables are of the rows.
#![tactic(auto)]

mod base_cuboid;
mod cells;
mod column_dict;
mod in_pieces;
mod keys;
mod laws;
mod layers;
mod place_cache;
mod runs;
mod table_results;

pub use base_cuboid::{base, base_of_pieces, base_pieces};
pub use column_dict::dict_of_column;
pub use in_pieces::cuboid;
pub use laws::{cuboids_of_rows, values_of_cuboids};
pub use layers::{Want, layer, regroup};
