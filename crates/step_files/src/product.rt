// Products.

use cell_store::CellTable;
use cube_val::Items;
use dim_dictionary::DictSet;
use plain_answer::FlatRows;
use step_codec::SealBody;

/// What a step makes.
#[derive(Drop)]
pub enum Product {
    /// Joined rows, of the flat step.
    Flat(FlatRows),
    /// Dictionaries, of the dict step.
    Dicts(DictSet),
    /// The base cuboid, of the base step.
    Base(CellTable),
    /// The cuboids of a layer, rising by mask.
    Cells(Items<CellTable>),
    /// What the seal says.
    Seal(SealBody),
}
