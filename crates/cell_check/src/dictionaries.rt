// Dictionaries of a few texts.

ghost use Rattle.std.specs.Prelude.{◌≡◌, ◌≤◌, ◌<◌, ◌^◌, ◌∷◌, [], IfOk, length};
ghost use Rattle.dim_dictionary.specs.Dictionaries.{merged_dictionary};

use check_lines::{known, unknown_line};
use cube_val::{ColType, Val, read_val};
use dim_dictionary::{Dict, DictSet};
use std::alloc::{AllocError, Global};
use std::io;
use std::io::Write;

// The value of a text in a column of texts.
fn value_of(alloc: Global, text: &str) -> io::Result<Val> {
    match read_val(alloc, ColType::Text, text.as_bytes()) {
        Ok(v) => Ok(v),
        Err(_) => Err(unknown_line()),
    }
}

// The values of texts.
fn values_of(alloc: Global, texts: &str) -> io::Result<Vec<Val>> {
    let mut values = Vec::new(alloc);
    for text in texts.split(' ') {
        values.push(value_of(alloc, text)?)?;
    }
    Ok(values)
}

// The dictionary of values.
fn dict_of_values(alloc: Global, values: &[Val]) -> io::Result<Dict>
    ensures { IfOk result (λ d. length d ≤ 1000) }
{
    if values.len() > 1000 {
        return Err(unknown_line());
    }
    let dict = Dict::from_values(alloc, values)?;
    Ok(dict)
}

// The dictionary of texts.
fn dict_of(alloc: Global, texts: &str) -> io::Result<Dict>
    ensures { IfOk result (λ d. length d ≤ 1000) }
{
    let values = values_of(alloc, texts)?;
    dict_of_values(alloc, values.as_slice())
}

// Writes the number of a value (`-` for none), and how many values are less.
fn put_id<W: Write>(id: Option<u32>, less: u32, out: &mut W) -> io::Result<()> {
    match id {
        Some(id) => write!(out, " {id}")?,
        None => out.write_all(b" -")?,
    }
    write!(out, "/{less}")
}

// Writes the number of a text, and how many values are less.
fn put_place<W: Write>(alloc: Global, dict: &Dict, text: &str, out: &mut W) -> io::Result<()> {
    let v = value_of(alloc, text)?;
    put_id(dict.id_of(&v), dict.lower_bound(&v), out)
}

// Writes the length of a dictionary, and the places of texts in it.
fn put_places<W: Write>(alloc: Global, dict: &Dict, sought: &str, out: &mut W) -> io::Result<()> {
    write!(out, "{}:", dict.len())?;
    for text in sought.split(' ') {
        put_place(alloc, dict, text, out)?;
    }
    out.write_all(b"\n")
}

/// Writes the length of the dictionary of texts, and the places of other texts in it.
pub(crate) fn answer_dictionary<W: Write>(
    alloc: Global,
    texts: &str,
    out: &mut W,
) -> io::Result<()> {
    let (texts, sought) = known(texts.split_once(" ? "))?;
    let dict = dict_of(alloc, texts)?;
    put_places(alloc, &dict, sought, out)
}

// Two dictionaries in a list.
fn two(alloc: Global, first: Dict, second: Dict) -> Result<Vec<Dict>, AllocError>
    ensures { IfOk result (λ dicts. dicts.items ≡ first ∷ second ∷ []) }
{
    let mut dicts = Vec::with_capacity(alloc, 2)?;
    dicts.push(first)?;
    dicts.push(second)?;
    Ok(dicts)
}

// Writes ids with a space before each, and a bar before them.
fn put_ids<W: Write>(ids: &[u32], out: &mut W) -> io::Result<()> {
    out.write_all(b" |")?;
    for id in ids {
        write!(out, " {id}")?;
    }
    Ok(())
}

// Writes the merged dictionary's length, and the new numbers of each part.
fn put_merged<W: Write>(alloc: Global, parts: &[Dict], out: &mut W) -> io::Result<()>
    requires { length (merged_dictionary parts.now) < 2 ^ 32 }
{
    let (merged, remaps) = Dict::merge_all(alloc, parts)?;
    write!(out, "{} of {}", merged.len(), remaps.len())?;
    for remap in &remaps {
        put_ids(remap.ids(), out)?;
    }
    Ok(())
}

// The dictionaries of two texts.
fn both(alloc: Global, texts: &str) -> io::Result<Vec<Dict>>
    ensures { IfOk result (λ dicts. length (merged_dictionary dicts.items) < 2 ^ 32) }
{
    let (first_texts, second_texts) = known(texts.split_once(" | "))?;
    let first = dict_of(alloc, first_texts)?;
    let second = dict_of(alloc, second_texts)?;
    let parts = two(alloc, first, second)?;
    Ok(parts)
}

/// Writes what a merge of two dictionaries gives, and how many dictionaries the set of both has.
pub(crate) fn answer_merge<W: Write>(alloc: Global, texts: &str, out: &mut W) -> io::Result<()> {
    let parts = both(alloc, texts)?;
    put_merged(alloc, &parts, out)?;
    let set = DictSet::new(parts);
    writeln!(out, "; a set of {}", set.len())
}
