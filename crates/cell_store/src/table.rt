// A table of cells by their keys.

ghost use Rattle.std.specs.Prelude.{◌≡◌, ◌<◌, ◌+◌, ◌++◌, ◌∷◌, ◌↔◌, [], All, IfOk, IsTrue, OnErr, OnOk, Some, length, map, slice_get, slice_index};
ghost use Rattle.std.specs.List.Sorted.{IsStrictlySortedBy};
ghost use Rattle.agg_group.specs.Mask.{count_of};

use crate::cell::Cell;
use crate::columns::{cells_at, id_at, no_columns, put_key, read_key, reserve_each};
use crate::select::{IdTest, places_in};
use crate::steps::Steps;
use agg_group::Mask;
use measure_laws::MeasureForm;
use std::alloc::{AllocError, Global};
use std::marker::Model;
use std::sync::ledger::Ledger;

/// A row on its way into a table: a key and its cells. A table keeps its rows by columns.
#[derive(Drop)]
pub struct CellRow {
    key: Vec<u32>,
    cells: Vec<Cell>,
}

impl Model for CellRow {
    ghost use Rattle.std.specs.Prelude.{List, ℕ};
    ghost use Rattle.cell_store.specs.declared.cell.Cell.{Cell};
    ghost use Rattle.std.specs.Coded.{coded×, coded_list, coded_ℕ};
    ghost use Rattle.cell_store.specs.contracts.cell.Cell as cell;

    ghost Value = { List ℕ × List Cell };

    ghost coded = { coded× (coded_list coded_ℕ) (coded_list cell.the_row.coded) };

    ghost view = { λ row. (row.key.items, row.cells.items) };
}

impl CellRow {
    /// The row of a key and its cells. It takes no memory.
    pub fn new(key: Vec<u32>, cells: Vec<Cell>) -> CellRow
        ensures { result ≡ (key.items, cells.items) }
    {
        CellRow { key, cells }
    }

    /// The key.
    pub fn key(&self) -> &[u32]
        ensures { result.now ≡ self.now.0 }
    {
        &self.key
    }

    /// The cells.
    pub fn cells(&self) -> &[Cell]
        ensures { result.now ≡ self.now.1 }
    {
        &self.cells
    }
}

/// The cells of a cuboid by their keys. A key has a dictionary number for each dimension of the mask, in the rising order
/// of its bits; the keys rise strictly.
#[derive(Drop)]
pub struct CellTable {
    alloc: Global,
    mask: Mask,
    forms: Vec<MeasureForm>,
    count: usize,
    columns: Vec<Vec<u32>>,
    cells: Vec<Cell>,
}

impl Model for CellTable {
    ghost use Rattle.cell_store.specs.Cells.{CellRows};
    ghost use Rattle.cell_store.specs.Columns.{AreColumns, lists_of, rows_of};
    ghost use Rattle.std.specs.Prelude.{List, ℕ, length, refl};
    ghost use Rattle.std.specs.Coded.{code_by, coded×, coded_list, coded_ℕ};
    ghost use Rattle.agg_group.specs.declared.mask.Mask.{Mask};
    ghost use Rattle.agg_group.specs.contracts.mask.Mask as mask_contract;
    ghost use Rattle.measure_laws.specs.declared.measure.MeasureForm.{MeasureForm};
    ghost use Rattle.measure_laws.specs.contracts.measure.MeasureForm as form_contract;
    ghost use Rattle.cell_store.specs.declared.cell.Cell.{Cell};
    ghost use Rattle.cell_store.specs.contracts.cell.Cell as cell_contract;

    ghost Value = { CellRows };

    ghost coded = { code_by (Mask × (List MeasureForm × List (List ℕ × List Cell))) (coded× mask_contract.the_row.coded (coded× (coded_list form_contract.the_row.coded) (coded_list (coded× (coded_list coded_ℕ) (coded_list cell_contract.the_row.coded))))) (λ t. (t.mask, (t.forms, t.rows))) (λ p. record { mask = p.0; forms = p.1.0; rows = p.1.1 }) (λ _. refl) };

    ghost view = { λ t. record { mask = t.mask; forms = t.forms.items; rows = rows_of t.count (lists_of t.columns.items) (length t.forms.items) t.cells.items } };

    ghost invariant = { λ t. AreColumns t.mask t.forms.items t.count (lists_of t.columns.items) t.cells.items };
}

impl CellTable {
    ghost use Rattle.cell_store.specs.Cells.{IsCellTable, ItemsAreFew, form_of, key_cmp};
    ghost use Rattle.cell_store.specs.Selects.{places_of, row_at};

    /// A table of no row, for these dimensions and cells of these forms.
    pub fn new(alloc: Global, mask: Mask, forms: &[MeasureForm]) -> Result<CellTable, AllocError>
        ensures mask { IfOk result (λ t. t.mask ≡ mask) }
        ensures forms { IfOk result (λ t. t.forms ≡ forms.now) }
        ensures rows { IfOk result (λ t. t.rows ≡ []) }
    {
        let forms = Vec::from_slice(alloc, forms)?;
        let columns = no_columns(alloc, mask.count())?;
        Ok(CellTable {
            alloc,
            mask,
            forms,
            count: 0,
            columns,
            cells: Vec::new(alloc),
        })
    }

    /// The table of these rows.
    pub fn of_rows(
        alloc: Global,
        mask: Mask,
        forms: &[MeasureForm],
        rows: Vec<CellRow>,
    ) -> Result<CellTable, AllocError>
        requires { IsCellTable mask forms.now rows.items }
        ensures mask { IfOk result (λ t. t.mask ≡ mask) }
        ensures forms { IfOk result (λ t. t.forms ≡ forms.now) }
        ensures rows { IfOk result (λ t. t.rows ≡ rows.items) }
    {
        let mut table = CellTable::new(alloc, mask, forms)?;
        for row in rows {
            let CellRow { key, cells } = row;
            table.push(key.as_slice(), cells)?;
        }
        Ok(table)
    }

    /// Adds a row at the end. After want of memory the table is as before, and the cells are dropped.
    pub fn push(&mut self, key: &[u32], cells: Vec<Cell>) -> Result<(), AllocError>
        requires width { length key.now ≡ count_of self.old.mask }
        requires forms { map form_of cells.items ≡ self.old.forms }
        requires rising { IsStrictlySortedBy key_cmp (map (λ row. row.0) self.old.rows ++ key.now ∷ []) }
        requires few { ItemsAreFew self.old.forms (self.old.rows ++ (key.now, cells.items) ∷ []) }
        ensures mask { self.new.mask ≡ self.old.mask }
        ensures forms { self.new.forms ≡ self.old.forms }
        ensures ok { OnOk result (self.new.rows ≡ self.old.rows ++ (key.now, cells.items) ∷ []) }
        ensures err { OnErr result (self.new.rows ≡ self.old.rows) }
    {
        reserve_each(self.columns.as_mut_slice())?;
        let mut cells = cells;
        self.cells.append(&mut cells)?;
        put_key(self.columns.as_mut_slice(), key);
        self.count += 1;
        Ok(())
    }

    /// How many rows there are.
    pub fn len(&self) -> usize
        ensures len { result ≡ length self.now.rows }
        ensures table { IsCellTable self.now.mask self.now.forms self.now.rows }
    {
        self.count
    }

    /// Whether there is no row.
    pub fn is_empty(&self) -> bool
        ensures { IsTrue result ↔ (self.now.rows ≡ []) }
    {
        self.count == 0
    }

    /// The dimensions.
    pub fn mask(&self) -> Mask
        ensures { result ≡ self.now.mask }
    {
        self.mask
    }

    /// The form of each cell of a row.
    pub fn forms(&self) -> &[MeasureForm]
        ensures { result.now ≡ self.now.forms }
    {
        &self.forms
    }

    /// Writes the key of a row and gives its cells, which is one step.
    pub fn row<L: Ledger>(&self, i: usize, key: &mut [u32], steps: &mut Steps<L>) -> &[Cell]
        requires in_range { i < length self.now.rows }
        requires width { length key.old ≡ count_of self.now.mask }
        ensures row { slice_get self.now.rows i ≡ Some (key.new, result.now) }
        ensures step { steps.new ≡ steps.old + 1 }
    {
        steps.tick();
        read_key(self.columns.as_slice(), i, key);
        self.cells(i)
    }

    /// A number of the key of a row; who shows it has counted its step.
    pub(crate) fn id(&self, place: usize, column: usize) -> u32
        requires place { place < length self.now.rows }
        requires column { column < length (row_at self.now.rows place).0 }
        ensures { result ≡ slice_index (row_at self.now.rows place).0 column }
    {
        id_at(&self.columns[column], place)
    }

    /// The cells of a row; who shows them has counted its step.
    pub(crate) fn cells(&self, place: usize) -> &[Cell]
        requires { place < length self.now.rows }
        ensures { result.now ≡ (row_at self.now.rows place).1 }
    {
        cells_at(self.cells.as_slice(), self.forms.len(), place)
    }

    /// The places of the rows whose keys pass the tests; who asks for them has counted their steps.
    pub(crate) fn places_of(&self, tests: &[IdTest]) -> Result<Vec<usize>, AllocError>
        requires { All (λ test. test.column < count_of self.now.mask) tests.now }
        ensures { IfOk result (λ places. places.items ≡ places_of tests.now self.now.rows) }
    {
        places_in(self.alloc, self.columns.as_slice(), self.count, tests)
    }
}
