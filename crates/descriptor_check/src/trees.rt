// The lines of trees of cuboids.

use crate::groups::tree_of;
use crate::sets::mask_word;
use crate::words::{number, parted};
use cuboid_tree::SpanTree;
use std::alloc::Global;
use std::io;
use std::io::Write;

fn put_place<W: Write>(place: Option<usize>, out: &mut W) -> io::Result<()> {
    match place {
        Some(place) => write!(out, " {place}"),
        None => out.write_all(b" -"),
    }
}

fn put_parents<W: Write>(tree: &SpanTree, out: &mut W) -> io::Result<()> {
    for i in 0..tree.masks().len() {
        put_place(tree.parent(i), out)?;
    }
    out.write_all(b"\n")
}

pub fn answer_parents<W: Write>(alloc: Global, rest: &str, out: &mut W) -> io::Result<()> {
    let tree = tree_of(alloc, rest)?;
    out.write_all(b"parents")?;
    put_parents(&tree, out)
}

fn put_first_children<W: Write>(tree: &SpanTree, out: &mut W) -> io::Result<()> {
    for i in 0..tree.masks().len() {
        put_place(tree.first_child(i), out)?;
    }
    out.write_all(b"\n")
}

pub fn answer_first_children<W: Write>(alloc: Global, rest: &str, out: &mut W) -> io::Result<()> {
    let tree = tree_of(alloc, rest)?;
    out.write_all(b"first_children")?;
    put_first_children(&tree, out)
}

fn put_next_siblings<W: Write>(tree: &SpanTree, out: &mut W) -> io::Result<()> {
    for i in 0..tree.masks().len() {
        put_place(tree.next_sibling(i), out)?;
    }
    out.write_all(b"\n")
}

pub fn answer_next_siblings<W: Write>(alloc: Global, rest: &str, out: &mut W) -> io::Result<()> {
    let tree = tree_of(alloc, rest)?;
    out.write_all(b"next_siblings")?;
    put_next_siblings(&tree, out)
}

fn put_next_in_layers<W: Write>(tree: &SpanTree, out: &mut W) -> io::Result<()> {
    for i in 0..tree.masks().len() {
        put_place(tree.next_in_layer(i), out)?;
    }
    out.write_all(b"\n")
}

pub fn answer_next_in_layers<W: Write>(alloc: Global, rest: &str, out: &mut W) -> io::Result<()> {
    let tree = tree_of(alloc, rest)?;
    out.write_all(b"next_in_layers")?;
    put_next_in_layers(&tree, out)
}

pub fn answer_first_in_layer<W: Write>(alloc: Global, rest: &str, out: &mut W) -> io::Result<()> {
    let (word, text) = parted(rest)?;
    let dims = number(word)?;
    let tree = tree_of(alloc, text)?;
    out.write_all(b"first_in_layer")?;
    put_place(tree.first_in_layer(dims), out)?;
    out.write_all(b"\n")
}

fn put_layer<W: Write>(alloc: Global, tree: &SpanTree, dims: u32, out: &mut W) -> io::Result<()> {
    let layer = tree.layer(alloc, dims)?;
    out.write_all(b"layer")?;
    for place in layer.as_slice() {
        write!(out, " {place}")?;
    }
    out.write_all(b"\n")
}

pub fn answer_layer<W: Write>(alloc: Global, rest: &str, out: &mut W) -> io::Result<()> {
    let (word, text) = parted(rest)?;
    let dims = number(word)?;
    let tree = tree_of(alloc, text)?;
    put_layer(alloc, &tree, dims, out)
}

pub fn answer_find<W: Write>(alloc: Global, rest: &str, out: &mut W) -> io::Result<()> {
    let (word, text) = parted(rest)?;
    let mask = mask_word(word)?;
    let tree = tree_of(alloc, text)?;
    out.write_all(b"find")?;
    put_place(tree.find(mask), out)?;
    out.write_all(b"\n")
}
