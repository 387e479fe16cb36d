// What the names of a query stand for.

ghost use Rattle.std.specs.Prelude.{◌≡◌, ◌<◌, ◌+◌, List, [], Option, Some, None, is_some, IfSome, bytes_eq, length, slice_get, nat_lt};
ghost use Rattle.std.specs.List.{find, position};
ghost use Rattle.std.specs.Option.{option_copied, option_or};
ghost use Rattle.cube_desc.specs.Forms.{cols_of};
ghost use Rattle.query_names.specs.Parts.{is_called, term_or, column_key, key_term};
ghost use Rattle.query_names.specs.Resolve.{table_number, columns_at, column_at, column_in_table, column_in, column_in_join, join_with, found, type_at, type_found, column_type, same_column, dimension_count, below, dimension_at, dimension_of};

use cube_desc::CubeParts;
use cube_val::{ColDesc, ColType, NameText, WideCol};
use sql_reader::{ColRef, Item, Join, Query, SqlTerm};

/// A query over a cube.
#[derive(Clone, Copy)]
pub struct Scope<'a> {
    /// The cube.
    pub parts: &'a CubeParts,
    /// The query.
    pub query: &'a Query,
}

/// Whether two columns are one.
pub(crate) fn same_column(a: WideCol, b: WideCol) -> bool
    ensures { result ≡ same_column a b }
{
    a.table == b.table && a.column == b.column
}

/// The number of the table with this name.
pub(crate) fn table_number(parts: &CubeParts, name: &[u8]) -> Option<usize>
    ensures { result ≡ table_number parts.now name.now }
{
    parts
        .tables
        .as_slice()
        .iter()
        .position(|t| t.name.bytes() == name)
}

fn columns_at(parts: &CubeParts, table: usize) -> &[ColDesc]
    ensures { result.now ≡ columns_at parts.now table }
{
    match parts.tables.as_slice().get(table) {
        Some(desc) => desc.cols.as_slice(),
        None => &[],
    }
}

fn column_number(columns: &[ColDesc], name: &[u8]) -> Option<usize>
    ensures { result ≡ position (λ col. bytes_eq col.name name.now) columns.now }
{
    columns.iter().position(|col| col.name.bytes() == name)
}

fn column_at(table: usize, column: Option<usize>) -> Option<WideCol>
    ensures { result ≡ column_at table column }
{
    match column {
        Some(column) => Some(WideCol { table, column }),
        None => None,
    }
}

fn column_in_table(parts: &CubeParts, name: &[u8], table: usize) -> Option<WideCol>
    ensures { result ≡ column_in_table parts.now name.now (Some table) }
{
    column_at(table, column_number(columns_at(parts, table), name))
}

fn column_in(parts: &CubeParts, name: &[u8], table: &[u8]) -> Option<WideCol>
    ensures { result ≡ column_in parts.now name.now table.now }
{
    match table_number(parts, table) {
        Some(number) => column_in_table(parts, name, number),
        None => None,
    }
}

fn is_in_join(parts: &CubeParts, name: &[u8], join: &Join) -> bool
    ensures { result ≡ is_some (column_in parts.now name.now join.now.table.text) }
{
    column_in(parts, name, join.table.text.bytes()).is_some()
}

fn join_with<'a>(parts: &CubeParts, joins: &'a [Join], name: &[u8]) -> Option<&'a Join>
    ensures { option_copied result ≡ find (λ j. is_some (column_in parts.now name.now j.table.text)) joins.now }
{
    joins.iter().find(|j| is_in_join(parts, name, j))
}

fn column_in_joins(parts: &CubeParts, query: &Query, name: &[u8]) -> Option<WideCol>
    ensures { result ≡ column_in_join parts.now name.now (join_with parts.now query.now name.now) }
{
    match join_with(parts, query.joins.as_slice(), name) {
        Some(join) => column_in(parts, name, join.table.text.bytes()),
        None => None,
    }
}

/// The type of a column of a table.
fn type_at(parts: &CubeParts, column: WideCol) -> ColType
    ensures { result ≡ type_at parts.now column }
{
    match columns_at(parts, column.table).get(column.column) {
        Some(desc) => desc.ty,
        None => ColType::Int,
    }
}

fn below(parts: &CubeParts, place: usize) -> bool
    ensures { result ≡ nat_lt place (dimension_count parts.now) }
{
    let rowkey = parts.rowkey.len();
    place < rowkey || place - rowkey < parts.derived.len()
}

fn wide_place(columns: &[WideCol], column: WideCol) -> Option<usize>
    ensures { result ≡ position (λ own. same_column own column) columns.now }
{
    columns.iter().position(|own| same_column(*own, column))
}

/// The place of a column among the rowkey and derived columns of a joined row.
pub(crate) fn dimension_at(parts: &CubeParts, column: WideCol) -> Option<usize>
    ensures { result ≡ dimension_at parts.now (Some column) }
{
    let plan = &parts.plan;
    match wide_place(plan.wide.as_slice(), column) {
        Some(place) => {
            if below(parts, place) {
                Some(place)
            } else {
                None
            }
        }
        None => None,
    }
}

impl<'a> Scope<'a> {
    /// The column that is named: with a table the one of that table; a bare one that of the first table, in the order of FROM and the
    /// joins, that has it.
    pub fn found(&self, column: &ColRef) -> Option<WideCol>
        ensures { result ≡ found self.now.parts.now self.now.query.now column.now }
    {
        let (parts, query) = (self.parts, self.query);
        let name = column.column.text.bytes();
        match &column.table {
            Some(table) => column_in(parts, name, table.text.bytes()),
            None => match column_in(parts, name, query.table.text.bytes()) {
                Some(found) => Some(found),
                None => column_in_joins(parts, query, name),
            },
        }
    }

    /// The type of the column that is named; of one that isn't found, Int.
    pub fn column_type(&self, column: &ColRef) -> ColType
        ensures { result ≡ column_type self.now.parts.now self.now.query.now column.now }
    {
        match self.found(column) {
            Some(found) => type_at(self.parts, found),
            None => ColType::Int,
        }
    }

    /// The place of the column that is named among the rowkey and derived columns of a joined row, if it is one.
    pub fn dimension_of(&self, column: &ColRef) -> Option<usize>
        ensures { result ≡ dimension_of self.now.parts.now self.now.query.now column.now }
    {
        match self.found(column) {
            Some(found) => dimension_at(self.parts, found),
            None => None,
        }
    }
}

fn is_called(name: &[u8], alias: &Option<NameText>) -> bool
    ensures { result ≡ is_called name.now alias.now }
{
    match alias {
        Some(alias) => alias.bytes() == name,
        None => false,
    }
}

fn item_called<'a>(items: &'a [Item], name: &NameText) -> Option<&'a Item>
    ensures { option_copied result ≡ find (λ item. is_called name.now item.alias) items.now }
{
    items
        .iter()
        .find(|item| is_called(name.bytes(), &item.alias))
}

fn term_or<'a>(term: &'a SqlTerm, item: Option<&'a Item>) -> &'a SqlTerm
    ensures { result.now ≡ term_or term.now (option_copied item.entry) }
{
    match item {
        Some(item) => &item.term,
        None => term,
    }
}

/// What a key of ORDER BY is: a bare name that is an alias of the select list is that item, the first such; every other key is itself.
pub fn key_term<'a>(query: &'a Query, term: &'a SqlTerm) -> &'a SqlTerm
    ensures { result.now ≡ key_term query.now term.now }
{
    match term {
        SqlTerm::Col(column) => match &column.table {
            Some(_) => term,
            None => term_or(
                term,
                item_called(query.items.as_slice(), &column.column.text),
            ),
        },
        SqlTerm::Agg { .. } => term,
    }
}
