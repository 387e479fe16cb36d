// Queries over a cube.

use crate::asked::Asked;
use crate::queries::query_of;
use crate::questions::{Question, put_answer};
use check_lines::{out_of_memory, unescaped, unknown_line};
use cube_desc::{CubeDesc, DescRefusal, read_desc};
use query_bind::{BindFault, BindRefusal, bind};
use sql_reader::Query;
use std::alloc::{AllocError, Global};
use std::io;
use std::io::Write;

// The descriptor that was read; an error where there is none.
fn described<T>(read: Result<T, DescRefusal>) -> io::Result<T> {
    match read {
        Ok(cube) => Ok(cube),
        Err(DescRefusal::Fault(_)) => Err(unknown_line()),
        Err(DescRefusal::Memory) => Err(out_of_memory()),
    }
}

/// The cube that a text describes; an error where it describes none.
pub fn cube_of(alloc: Global, text: &str) -> io::Result<CubeDesc> {
    let bytes = unescaped(alloc, text)?;
    described(read_desc(alloc, bytes.as_slice()))
}

// The fault of a query, or none where it is bound; without what it is bound to.
fn first_fault<T: Drop>(bound: Result<T, BindRefusal>) -> Result<Option<BindFault>, AllocError> {
    match bound {
        Ok(_) => Ok(None),
        Err(BindRefusal::Fault(fault)) => Ok(Some(fault)),
        Err(BindRefusal::Memory) => Err(AllocError),
    }
}

fn put_fault<W: Write>(fault: Option<BindFault>, out: &mut W) -> io::Result<()> {
    match fault {
        None => out.write_all(b"bound\n"),
        Some(fault) => writeln!(out, "{} {}", fault.kind.as_str(), fault.place),
    }
}

// Asks whether a query is bound to the cube.
#[derive(Drop)]
struct Binding<'a> {
    cube: &'a CubeDesc,
}

impl Question<Query> for Binding<'_> {
    fn put<W: Write>(&self, alloc: Global, of: &Query, out: &mut W) -> io::Result<()> {
        put_fault(first_fault(bind(alloc, self.cube, of))?, out)
    }
}

pub fn answer_bind<W: Write>(
    alloc: Global,
    cube: &CubeDesc,
    text: &[u8],
    out: &mut W,
) -> io::Result<()> {
    put_answer(alloc, query_of(alloc, text), &Binding { cube }, out)
}

// What a query is bound to; an error where it has a fault.
fn no_fault<T>(bound: Result<T, BindRefusal>) -> io::Result<T> {
    match bound {
        Ok(bound) => Ok(bound),
        Err(BindRefusal::Fault(_)) => Err(unknown_line()),
        Err(BindRefusal::Memory) => Err(out_of_memory()),
    }
}

// Asks what a query is bound to.
#[derive(Drop)]
struct Asking<'a> {
    cube: &'a CubeDesc,
}

impl Question<Query> for Asking<'_> {
    fn put<W: Write>(&self, alloc: Global, of: &Query, out: &mut W) -> io::Result<()> {
        put_answer(alloc, no_fault(bind(alloc, self.cube, of)), &Asked, out)
    }
}

pub fn answer_ask<W: Write>(
    alloc: Global,
    cube: &CubeDesc,
    text: &[u8],
    out: &mut W,
) -> io::Result<()> {
    put_answer(alloc, query_of(alloc, text), &Asking { cube }, out)
}
