// The words of the command line.

use check_lines::{Words, out_of_memory};
use command_line::{Order, WordsRefusal, read_words};
use std::alloc::Global;
use std::io;
use std::io::Write;

// Writes an order.
fn put_order<W: Write>(order: &Order, out: &mut W) -> io::Result<()> {
    match order {
        Order::Run {
            path,
            workers: Some(workers),
        } => writeln!(out, "run {path} on {workers}"),
        Order::Run {
            path,
            workers: None,
        } => writeln!(out, "run {path}"),
        Order::Demo { number, rows } => writeln!(out, "demo {number} {rows}"),
        Order::Fold(path) => writeln!(out, "fold {path}"),
        Order::Cuboids(path) => writeln!(out, "cuboids {path}"),
        Order::Step {
            task,
            product,
            stop,
        } => writeln!(out, "step {task} {product} {stop}"),
    }
}

/// Writes the command that words say.
pub(crate) fn answer<W: Write>(alloc: Global, words: Words<'_>, out: &mut W) -> io::Result<()> {
    let words = words.strings(alloc)?;
    match read_words(alloc, words.as_slice()) {
        Ok(order) => put_order(&order, out),
        Err(WordsRefusal::BadWords) => writeln!(out, "none"),
        Err(WordsRefusal::Memory) => Err(out_of_memory()),
    }
}
