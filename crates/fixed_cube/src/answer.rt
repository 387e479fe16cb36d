// The answer to the one query, from the cells of segments.

ghost use Rattle.std.specs.Prelude.{◌≡◌, ◌≤◌, ◌<◌, ◌+◌, ◌*◌, ◌++◌, ◌∷◌, [], ℕ, List, IfOk, OnOk, OnErr, length, map, slice_index_or};
ghost use Rattle.std.specs.List.{AllByRecursion, flat_map, sum_by};
ghost use Rattle.aggregation.specs.Groups.{gather};
ghost use Rattle.cube_val.specs.declared.val.Val.{Val};
ghost use Rattle.cube_val.specs.Order.{row_cmp};
ghost use Rattle.measure_laws.specs.Measures.{merged_sum, most_items, summed};
ghost use Rattle.plain_answer.specs.Answers.{plain_of, table_of};
ghost use Rattle.fixed_cube.specs.Answers.{answer_of, by_first, first_of, gathered, group_of_cell, sum_shown};
ghost use Rattle.fixed_cube.specs.Cells.{base_of, count_of};
ghost use Rattle.fixed_cube.specs.Columns.{row_limit};
ghost use Rattle.fixed_cube.specs.Rows.{HasNumber};

use crate::cells::{FixedCell, FixedCells};
use crate::steps::{add, copy_cell};
use cube_val::{ColType, Items, NameText, Row};
use measure_laws::Sum;
use plain_answer::{Agg, AggKind, AnswerTable, Ask, Cond, Out, OutVal, PlainRow, Term, table};
use std::alloc::{AllocError, Global};
use std::collections::BTreeMap;
use std::marker::Model;

/// Cells of several lists, in order.
#[derive(Drop)]
struct CellRefs<'a> {
    cells: Vec<&'a FixedCell>,
}

impl<'a> Model for CellRefs<'a> {
    ghost use Rattle.std.specs.Prelude.{List, map};
    ghost use Rattle.cube_val.specs.declared.val.Val.{Val};
    ghost use Rattle.measure_laws.specs.Measures.{Summed};

    ghost Value = { List (List Val × Summed) };

    ghost view = { λ refs. map (λ cell. cell.now) refs.cells.items };
}

impl<'a> CellRefs<'a> {
    // No cell.
    fn new(alloc: Global) -> CellRefs<'a>
        ensures { result ≡ [] }
    {
        CellRefs {
            cells: Vec::new(alloc),
        }
    }

    // Adds a cell at the end.
    fn push(&mut self, cell: &'a FixedCell) -> Result<(), AllocError>
        ensures ok { OnOk result (self.new ≡ self.old ++ cell.now ∷ []) }
        ensures err { OnErr result (self.new ≡ self.old) }
    {
        self.cells.push(cell)?;
        Ok(())
    }

    // How many cells there are.
    fn len(&self) -> usize
        ensures { result ≡ length self.now }
    {
        self.cells.len()
    }

    // The cell at a place.
    fn cell(&self, i: usize) -> &FixedCell
        requires { i < length self.now }
        ensures { result.now ≡ slice_index_or self.now i result.now }
    {
        self.cells[i]
    }
}

// Adds the cells of a list at the end.
fn push_all<'a>(refs: &mut CellRefs<'a>, cells: &'a FixedCells) -> Result<(), AllocError>
    ensures cells { OnOk result (refs.new ≡ refs.old ++ cells.now) }
    ensures few { sum_by count_of cells.now ≤ row_limit }
{
    for cell in cells.as_slice() {
        refs.push(cell)?;
    }
    Ok(())
}

// The cells of all lists.
fn refs_of<'a>(alloc: Global, lists: &[&'a FixedCells]) -> Result<CellRefs<'a>, AllocError>
    ensures cells { IfOk result (λ refs. refs ≡ flat_map (λ cells. cells) (map (λ cells. cells.now) lists.now)) }
    ensures few { IfOk result (λ refs. sum_by count_of refs ≤ length lists.now * row_limit) }
{
    let mut refs = CellRefs::new(alloc);
    for cells in lists {
        push_all(&mut refs, cells)?;
    }
    Ok(refs)
}

// D1 of a key, as a key.
fn first_of(alloc: Global, key: &Row) -> Result<Row, AllocError>
    ensures { IfOk result (λ first. first ≡ first_of key.now) }
{
    let mut first = Row::new(alloc);
    first.push(copy_cell(key, 0)?)?;
    Ok(first)
}

// An equal sum.
fn copy_sum(sum: &Sum) -> Sum
    ensures { result ≡ sum.now }
{
    Sum::of(sum.items(), sum.value())
}

// The cells gathered by D1.
fn gathered_map(alloc: Global, refs: &CellRefs) -> Result<BTreeMap<Row, Sum>, AllocError>
    requires { sum_by count_of refs.now ≤ most_items }
    ensures { IfOk result (λ cells. cells.entries ≡ gather row_cmp first_of (summed []) merged_sum refs.now) }
{
    let mut cells = BTreeMap::new(alloc);
    for i in 0..refs.len() {
        let cell = refs.cell(i);
        let key = first_of(alloc, cell.key())?;
        let part = copy_sum(cell.sum());
        add(&mut cells, key, part)?;
    }
    Ok(cells)
}

// A sum, which of no row is null.
fn sum_shown(sum: &Sum) -> OutVal
    ensures { result ≡ sum_shown sum.now.items sum.now.total }
{
    if sum.items() == 0 {
        OutVal::Null
    } else {
        OutVal::Whole(sum.value())
    }
}

// The group of a cell.
fn group_of_cell(alloc: Global, key: Row, sum: Sum) -> Result<PlainRow, AllocError>
    ensures { IfOk result (λ group. group ≡ group_of_cell (key, sum)) }
{
    let mut values = Items::new(alloc);
    values.push(OutVal::Whole(i128::from(sum.items())))?;
    values.push(sum_shown(&sum))?;
    Ok(PlainRow { key, values })
}

// The groups of cells.
fn groups_of(alloc: Global, cells: BTreeMap<Row, Sum>) -> Result<Vec<PlainRow>, AllocError>
    ensures { IfOk result (λ groups. groups.items ≡ map group_of_cell cells.entries) }
{
    let mut groups = Vec::new(alloc);
    for (key, sum) in cells {
        let group = group_of_cell(alloc, key, sum)?;
        groups.push(group)?;
    }
    Ok(groups)
}

// Adds a select item.
fn push_item(
    alloc: Global,
    outs: &mut Items<Out>,
    name: &[u8],
    term: Term,
) -> Result<(), AllocError>
    ensures { OnOk result (outs.new ≡ outs.old ++ record { name = name.now; term = term } ∷ []) }
{
    let name = NameText::new(alloc, name)?;
    outs.push(Out { name, term })
}

// What is shown of each group.
fn shown(alloc: Global) -> Result<Items<Out>, AllocError>
    ensures { IfOk result (λ outs. outs ≡ by_first.outs) }
{
    let mut outs = Items::new(alloc);
    push_item(alloc, &mut outs, b"D1", Term::Col(0, ColType::Text))?;
    push_item(alloc, &mut outs, b"COUNT(*)", Term::Agg(0))?;
    push_item(alloc, &mut outs, b"SUM(M)", Term::Agg(1))?;
    Ok(outs)
}

/// What is asked: `select d1, count(*), sum(m) from f group by d1`, over joined rows.
pub fn by_first(alloc: Global) -> Result<Ask, AllocError>
    ensures { IfOk result (λ ask. ask ≡ by_first) }
{
    let count = Agg {
        kind: AggKind::Count,
        column: None,
        ty: ColType::Int,
    };
    let sum = Agg {
        kind: AggKind::Sum,
        column: Some(2),
        ty: ColType::Int,
    };
    let group = Items::from_slice(alloc, &[0usize])?;
    let aggs = Items::from_slice(alloc, &[count, sum])?;
    let outs = shown(alloc)?;
    Ok(Ask {
        filter: Cond::True,
        group,
        aggs,
        outs,
        having: Cond::True,
        order: Items::new(alloc),
        limit: None,
    })
}

// The groups of the cells of lists.
fn groups_from(alloc: Global, lists: &[&FixedCells]) -> Result<Vec<PlainRow>, AllocError>
    requires { length lists.now * row_limit ≤ most_items }
    ensures { IfOk result (λ groups. groups.items ≡ map group_of_cell (gathered (map (λ cells. cells.now) lists.now))) }
{
    let refs = refs_of(alloc, lists)?;
    let cells = gathered_map(alloc, &refs)?;
    groups_of(alloc, cells)
}

// The answer to an ask from the cells of lists.
fn answered(alloc: Global, ask: &Ask, lists: &[&FixedCells]) -> Result<AnswerTable, AllocError>
    requires { length lists.now * row_limit ≤ most_items }
    ensures { IfOk result (λ answer. answer ≡ table_of ask.now (map group_of_cell (gathered (map (λ cells. cells.now) lists.now)))) }
{
    let groups = groups_from(alloc, lists)?;
    table(alloc, ask, groups)
}

// The answer to the query from the cells of lists.
fn answer_from(alloc: Global, lists: &[&FixedCells]) -> Result<AnswerTable, AllocError>
    requires { length lists.now * row_limit ≤ most_items }
    ensures { IfOk result (λ answer. answer ≡ answer_of (map (λ cells. cells.now) lists.now)) }
{
    let ask = by_first(alloc)?;
    answered(alloc, &ask, lists)
}

/// The answer to the query over segments, from the cells of each: these are gathered by D1. Where the cells of each
/// segment are the base cuboid of its joined rows, it is the plain answer over all of these rows.
pub fn answer_over(alloc: Global, lists: &[&FixedCells]) -> Result<AnswerTable, AllocError>
    requires { length lists.now * row_limit ≤ most_items }
    ensures exact { IfOk result (λ answer. answer ≡ answer_of (map (λ cells. cells.now) lists.now)) }
    ensures plain { (parts : List (List (List Val))) → AllByRecursion (AllByRecursion HasNumber) parts → map base_of parts ≡ map (λ cells. cells.now) lists.now → IfOk result (λ answer. answer ≡ plain_of by_first (flat_map (λ rows. rows) parts)) }
{
    match answer_from(alloc, lists) {
        Ok(answer) => Ok(answer),
        Err(e) => Err(e),
    }
}
