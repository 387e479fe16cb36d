//! Says of each line of standard input what a descriptor, an aggregation group, a set of dimensions or a tree of cuboids is.
//!
//! Descriptors are JSON on one line:
//!
//! - `read JSON`: `ok`, or the kind of its fault and the place. `bytes DIGITS` is the same of bytes, as hexadecimal digits.
//! - `source JSON`: the bytes that the descriptor keeps.
//! - `parts JSON`: its name, and how many tables, measures, dimensions, derived columns, groups and cuboids it has.
//! - `wide JSON`: the columns of a joined row, each as `TABLE.COLUMN`. `fact_form JSON`, `lookup_form JSON`: the form of
//!   the fact table's file, and of the first lookup's.
//! - `sizes JSON`: the mask of each cuboid with the number of its dimensions. `cuboids JSON`: the text of `cuboids`.
//!
//! A group is its included dimensions, its mandatory ones, its hierarchies, its joints and its cap, with `|` between two; dimensions
//! have a comma between two, hierarchies and joints `;`, and groups `/`. What stands at the end may be left out:
//!
//! - `group GROUP`: `no fault`, or the fault of its lists.
//! - `masks N GROUPS`: the masks of the cuboids of a cube with N dimensions; `count N GROUPS`: how many there are.
//! - `parents N GROUPS`, `first_children N GROUPS`, `next_siblings N GROUPS`, `next_in_layers N GROUPS`: for each of these cuboids
//!   the place of another in their tree, and `-` for none. `layer D N GROUPS`: the places of those with D dimensions;
//!   `first_in_layer D N GROUPS`: the first of them; `find MASK N GROUPS`: the place of a mask.
//! - `set DIMENSIONS`: the mask and the number of its dimensions; `has D DIMENSIONS`, `within MASK MASK`: whether it is so.
//!
//! A line of another form ends the program with status 1. It is no part of the product.
#![tactic(auto)]

mod descriptors;
mod groups;
mod sets;
mod trees;
mod words;

use crate::words::parted;
use check_lines::{Answerer, answer_lines, unknown_line};
use std::alloc::Global;
use std::io;
use std::io::Write;

// What answers a line of this program.
#[derive(Drop)]
struct DescriptorCheck;

fn answer_descriptor<W: Write>(
    alloc: Global,
    word: &str,
    rest: &str,
    out: &mut W,
) -> io::Result<()> {
    match word {
        "read" => descriptors::answer_read(alloc, rest.as_bytes(), out),
        "bytes" => descriptors::answer_bytes(alloc, rest.as_bytes(), out),
        _ => descriptors::answer_desc(alloc, word, rest, out),
    }
}

fn answer_groups<W: Write>(alloc: Global, word: &str, rest: &str, out: &mut W) -> io::Result<()> {
    match word {
        "group" => groups::answer_group(alloc, rest, out),
        "masks" => groups::answer_masks(alloc, rest, out),
        "count" => groups::answer_count(alloc, rest, out),
        "set" => sets::answer_set(alloc, rest, out),
        "has" => sets::answer_has(alloc, rest, out),
        "within" => sets::answer_within(rest, out),
        _ => answer_tree(alloc, word, rest, out),
    }
}

fn answer_tree<W: Write>(alloc: Global, word: &str, rest: &str, out: &mut W) -> io::Result<()> {
    match word {
        "parents" => trees::answer_parents(alloc, rest, out),
        "first_children" => trees::answer_first_children(alloc, rest, out),
        "next_siblings" => trees::answer_next_siblings(alloc, rest, out),
        "next_in_layers" => trees::answer_next_in_layers(alloc, rest, out),
        "first_in_layer" => trees::answer_first_in_layer(alloc, rest, out),
        "layer" => trees::answer_layer(alloc, rest, out),
        "find" => trees::answer_find(alloc, rest, out),
        _ => answer_descriptor(alloc, word, rest, out),
    }
}

impl Answerer for DescriptorCheck {
    fn answer<W: Write>(&mut self, alloc: Global, line: &[u8], out: &mut W) -> io::Result<()> {
        let Ok(text) = str::from_utf8(line) else {
            return Err(unknown_line());
        };
        let (word, rest) = parted(text)?;
        answer_groups(alloc, word, rest, out)
    }
}

fn main(rt: HostRuntime) -> io::Result<()> {
    answer_lines(&rt, rt.alloc(), &mut DescriptorCheck)
}
