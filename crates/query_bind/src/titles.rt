// The names over the columns of an answer.

ghost use Rattle.std.specs.Prelude.{◌≡◌, ◌++◌, codes, IfOk, unwrap_or};
ghost use Rattle.query_bind.specs.Titles.{opening, bare_name, title_of, name_of};

use cube_val::NameText;
use sql_reader::{AggWord, ColRef, Item, SqlTerm};
use std::alloc::{AllocError, Global};

fn opening(word: AggWord) -> &'static [u8]
    ensures { result.now ≡ opening word }
{
    match word {
        AggWord::CountRows => b"COUNT(*",
        AggWord::CountColumn => b"COUNT(",
        AggWord::CountDistinct => b"COUNT(DISTINCT ",
        AggWord::Sum => b"SUM(",
        AggWord::Min => b"MIN(",
        AggWord::Max => b"MAX(",
        AggWord::Avg => b"AVG(",
    }
}

fn bare_name(column: &Option<ColRef>) -> &[u8]
    ensures { result.now ≡ bare_name column.now }
{
    match column {
        Some(column) => column.column.text.bytes(),
        None => &[],
    }
}

fn agg_title(alloc: Global, word: AggWord, column: &Option<ColRef>) -> Result<NameText, AllocError>
    ensures { IfOk result (λ name. name ≡ opening word ++ bare_name column.now ++ codes ")") }
{
    let mut title = Vec::from_slice(alloc, opening(word))?;
    title.extend_from_slice(bare_name(column))?;
    title.push(b')')?;
    NameText::new(alloc, title.as_slice())
}

fn title_of(alloc: Global, term: &SqlTerm) -> Result<NameText, AllocError>
    ensures { IfOk result (λ name. name ≡ title_of term.now) }
{
    match term {
        SqlTerm::Col(column) => column.column.text.copy(),
        SqlTerm::Agg { word, column, .. } => agg_title(alloc, *word, column),
    }
}

/// The alias, else the bare name of the column, else the aggregate.
pub(crate) fn name_of(alloc: Global, item: &Item) -> Result<NameText, AllocError>
    ensures { IfOk result (λ name. name ≡ name_of item.now) }
{
    match &item.alias {
        Some(alias) => alias.copy(),
        None => title_of(alloc, &item.term),
    }
}
