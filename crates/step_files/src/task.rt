// Tasks.

use cell_store::CellTable;
use cube_val::{Items, TableSet};
use dim_dictionary::DictSet;
use plain_answer::FlatRows;
use range_list::Range;
use step_codec::SealBody;

/// What a step works on, with the bytes of the descriptor's file.
#[derive(Drop)]
pub enum Task {
    /// The rows of a range are joined.
    Flat {
        desc: Items<u8>,
        range: Range,
        /// The fact table, and then the lookups in their order.
        tables: TableSet,
    },
    /// The dictionaries of the joined rows are made.
    Dict {
        desc: Items<u8>,
        flat: FlatRows,
    },
    /// The joined rows are aggregated by all dimensions.
    Base {
        desc: Items<u8>,
        flat: FlatRows,
        dicts: DictSet,
    },
    /// The cuboids of a number of dimensions are made of their parents.
    Layer {
        desc: Items<u8>,
        dims: u32,
        /// The sizes of the dictionaries.
        sizes: Items<u32>,
        /// The tables of the parents, rising by mask.
        parents: Items<CellTable>,
    },
    /// The products of all steps are sealed.
    Seal(SealBody),
}
