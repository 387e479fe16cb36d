// What a cube's step files are read by.

ghost use Rattle.std.specs.Prelude.{◌≡◌};
ghost use Rattle.step_codec.specs.Tables.{IsTableShape};

use agg_group::Mask;
use cube_fields::Extremes;
use cube_val::Items;
use measure_laws::MeasureForm;
use std::marker::Model;
use step_fields::Column;

/// The columns of a table, and the places of those of its primary key.
#[derive(Drop)]
pub struct TableColumns {
    columns: Items<Column>,
    key: Items<usize>,
}

impl Model for TableColumns {
    ghost use Rattle.step_codec.specs.Tables.{IsTableShape, TableShape};

    ghost Value = { TableShape };

    ghost view = { λ t. record { columns = t.columns; key = t.key } };

    ghost invariant = { λ t. IsTableShape t.columns t.key };
}

impl TableColumns {
    /// The table of these columns, with its key. There is none in a fact table.
    pub fn new(columns: Items<Column>, key: Items<usize>) -> TableColumns
        requires { IsTableShape columns key }
        ensures { result ≡ record { columns = columns; key = key } }
    {
        TableColumns { columns, key }
    }

    /// The columns, in the order of a row's values.
    pub fn columns(&self) -> &[Column]
        ensures columns { result.now ≡ self.now.columns }
        ensures within { IsTableShape self.now.columns self.now.key }
    {
        self.columns.as_slice()
    }

    /// The places of the columns of the primary key.
    pub fn key(&self) -> &[usize]
        ensures { result.now ≡ self.now.key }
    {
        self.key.as_slice()
    }
}

/// A column that has a dictionary.
#[derive(Clone, Copy)]
pub struct DictColumn {
    /// The column.
    pub column: Column,
    /// Its place in a flat row.
    pub place: usize,
}

/// What the step files of a cube are read by.
#[derive(Drop)]
pub struct Layout {
    /// The fact table, and then the lookups in their order.
    pub tables: Items<TableColumns>,
    /// The columns of a flat row: those of the rowkey, and then those that measures are of.
    pub flat: Items<Column>,
    /// The columns that have a dictionary: those of the rowkey, and then one for each measure of different values.
    pub dicts: Items<DictColumn>,
    /// How many dimensions there are.
    pub dims: usize,
    /// The forms of the measures that are kept behind the count of rows.
    pub measures: Items<MeasureForm>,
    /// The least and the greatest values of one column, by the places of their cells.
    pub extremes: Items<Extremes>,
    /// The masks of the cuboids, rising; the last is the base.
    pub masks: Items<Mask>,
}
