// Rows picked by tests of their keys' numbers.

ghost use Rattle.std.specs.Prelude.{◌≡◌, ◌<◌, ◌≤◌, ◌+◌, ◌↔◌, [], All, IfOk, IsTrue, OnOk, filter, length, slice_index, vec_len};
ghost use Rattle.agg_group.specs.Mask.{count_of};
ghost use Rattle.cell_store.specs.Columns.{key_at, lists_of};
ghost use Rattle.cell_store.specs.Lanes.{passing_below};
ghost use Rattle.cell_store.specs.Selects.{in_spans, passes, places_of, row_at};

use crate::cell::Cell;
use crate::columns::id_at;
use crate::lanes::add_lanes;
use crate::steps::Steps;
use crate::table::CellTable;
use std::alloc::{AllocError, Global};
use std::marker::Model;
use std::sync::ledger::Ledger;

/// The ids of at least `from` and below `to`; none where `to` is not above `from`.
#[derive(Clone, Copy, Debug, PartialEq, Eq)]
pub struct IdSpan {
    /// The least id.
    pub from: u32,
    /// The least id above those of the span.
    pub to: u32,
}

/// A test of one number of a key: it passes where it is in one of the spans, so with no span none passes.
#[derive(Drop)]
pub struct IdTest {
    /// The column, counted in the rising order of the mask's bits.
    pub column: usize,
    /// The spans, in any order; they may overlap.
    pub spans: Vec<IdSpan>,
}

// Whether the id is in one of the spans.
fn in_spans(spans: &[IdSpan], id: u32) -> bool
    ensures { result ≡ in_spans spans.now id }
{
    spans.iter().any(|span| span.from <= id && id < span.to)
}

// Whether the key at a place passes the tests.
fn passes(columns: &[Vec<u32>], tests: &[IdTest], place: usize) -> bool
    requires in_range { All (λ column. place < vec_len column) columns.now }
    requires columns { All (λ test. test.column < length columns.now) tests.now }
    ensures { result ≡ passes tests.now (key_at (lists_of columns.now) place) }
{
    for test in tests {
        let id = id_at(&columns[test.column], place);
        if !in_spans(test.spans.as_slice(), id) {
            return false;
        }
    }
    true
}

// Adds the places from `at` on, below `count`, at which the keys pass the tests, to those below `at`.
fn add_each(
    places: &mut Vec<usize>,
    columns: &[Vec<u32>],
    tests: &[IdTest],
    at: usize,
    count: usize,
) -> Result<(), AllocError>
    requires range { at ≤ count }
    requires in_range { All (λ column. count ≤ vec_len column) columns.now }
    requires columns { All (λ test. test.column < length columns.now) tests.now }
    requires places { places.old.items ≡ passing_below tests.now (lists_of columns.now) at }
    ensures { OnOk result (places.new.items ≡ passing_below tests.now (lists_of columns.now) count) }
{
    for place in at..count {
        if passes(columns, tests, place) {
            places.push(place)?;
        }
    }
    Ok(())
}

/// The places below `count` at which the keys pass the tests, rising.
pub(crate) fn places_in(
    alloc: Global,
    columns: &[Vec<u32>],
    count: usize,
    tests: &[IdTest],
) -> Result<Vec<usize>, AllocError>
    requires in_range { All (λ column. count ≤ vec_len column) columns.now }
    requires columns { All (λ test. test.column < length columns.now) tests.now }
    ensures { IfOk result (λ places. places.items ≡ passing_below tests.now (lists_of columns.now) count) }
{
    let mut places = Vec::new(alloc);
    for eight in 0..count / 8 {
        add_lanes(&mut places, columns, tests, eight * 8)?;
    }
    add_each(&mut places, columns, tests, count / 8 * 8, count)?;
    Ok(places)
}

/// The rows that a selection picked, in the order of the table. It shows them without a step.
#[derive(Drop)]
pub struct Picked<'a> {
    table: &'a CellTable,
    places: Vec<usize>,
}

impl<'a> Model for Picked<'a> {
    ghost use Rattle.std.specs.Prelude.{◌<◌, List, ℕ, All, length, map, refl};
    ghost use Rattle.std.specs.Coded.{code_by, coded×, coded_list, coded_ℕ};
    ghost use Rattle.cell_store.specs.declared.cell.Cell.{Cell};
    ghost use Rattle.cell_store.specs.contracts.cell.Cell as cell_contract;
    ghost use Rattle.cell_store.specs.Selects.{PickedRows, row_at};

    ghost Value = { PickedRows };

    ghost coded = { code_by (List ℕ × List (List ℕ × List Cell)) (coded× (coded_list coded_ℕ) (coded_list (coded× (coded_list coded_ℕ) (coded_list cell_contract.the_row.coded)))) (λ p. (p.places, p.rows)) (λ p. record { places = p.0; rows = p.1 }) (λ _. refl) };

    ghost view = { λ p. record { places = p.places.items; rows = map (row_at p.table.now.rows) p.places.items } };

    ghost invariant = { λ p. All (λ place. place < length p.table.now.rows) p.places.items };
}

impl<'a> Picked<'a> {
    /// How many rows were picked.
    pub fn len(&self) -> usize
        ensures places { result ≡ length self.now.places }
        ensures rows { result ≡ length self.now.rows }
    {
        self.places.len()
    }

    /// Whether no row was picked.
    pub fn is_empty(&self) -> bool
        ensures { IsTrue result ↔ (self.now.rows ≡ []) }
    {
        self.places.is_empty()
    }

    /// The place in the table of a picked row.
    pub fn place(&self, k: usize) -> usize
        requires { k < length self.now.places }
        ensures { result ≡ slice_index self.now.places k }
    {
        self.places[k]
    }

    /// A number of the key of a picked row.
    pub fn id(&self, k: usize, column: usize) -> u32
        requires place { k < length self.now.rows }
        requires column { column < length (row_at self.now.rows k).0 }
        ensures { result ≡ slice_index (row_at self.now.rows k).0 column }
    {
        self.table.id(self.places[k], column)
    }

    /// The cells of a picked row.
    pub fn cells(&self, k: usize) -> &'a [Cell]
        requires { k < length self.now.rows }
        ensures { result.now ≡ (row_at self.now.rows k).1 }
    {
        self.table.cells(self.places[k])
    }
}

impl CellTable {
    /// Picks the rows whose keys pass each of the tests. Each row of the table is one step, whatever comes of it, and what is
    /// picked is shown without a step.
    pub fn select<'a, L: Ledger>(
        &'a self,
        tests: &[IdTest],
        steps: &mut Steps<L>,
    ) -> Result<Picked<'a>, AllocError>
        requires { All (λ test. test.column < count_of self.now.mask) tests.now }
        ensures places { IfOk result (λ picked. picked.places ≡ places_of tests.now self.now.rows) }
        ensures rows { IfOk result (λ picked. picked.rows ≡ filter (λ row. passes tests.now row.0) self.now.rows) }
        ensures widths { IfOk result (λ picked. All (λ row. length row.0 ≡ count_of self.now.mask) picked.rows) }
        ensures steps { steps.new ≡ steps.old + length self.now.rows }
    {
        steps.add(self.len() as u64);
        let places = self.places_of(tests)?;
        Ok(Picked {
            table: self,
            places,
        })
    }
}
