// Which step files the files of a line are.

ghost use Rattle.step_files.specs.Products.{FitsProduct};
ghost use Rattle.step_files.specs.Tasks.{FitsTask};

use check_lines::{bytes_of, out_of_memory};
use sha2::{Digest, Sha256};
use std::alloc::{AllocError, Global};
use std::io;
use std::io::Write;
use step_files::{
    Product, ProductRefusal, Task, TaskRefusal, product_file, read_product, read_task, task_text,
};

// Writes a word, and whether the bytes are others than those that were read.
fn put_word<W: Write>(out: &mut W, word: &str, same: bool) -> io::Result<()> {
    out.write_all(word.as_bytes())?;
    if same {
        return Ok(());
    }
    out.write_all(b" changed")
}

// Whether the task is written as the bytes.
fn is_text(alloc: Global, task: &Task, bytes: &[u8]) -> Result<bool, AllocError>
    requires { FitsTask task.now }
{
    let written = task_text(alloc, task)?;
    Ok(written.as_slice() == bytes)
}

// The digest of the task's file.
fn digest_of(alloc: Global, task: &Task) -> Result<[u8; 32], AllocError>
    requires { FitsTask task.now }
{
    let written = task_text(alloc, task)?;
    Ok(Sha256::digest(written.as_slice()))
}

// Whether the product is written as the bytes.
fn is_product_text(
    alloc: Global,
    task: &Task,
    product: &Product,
    bytes: &[u8],
) -> Result<bool, AllocError>
    requires task { FitsTask task.now }
    requires product { FitsProduct task.now product.now }
{
    let digest = digest_of(alloc, task)?;
    let written = product_file(alloc, &digest, product)?;
    Ok(written.as_slice() == bytes)
}

// What bytes are of a task.
#[derive(Clone, Copy)]
enum OfTask {
    // A product, written as the bytes or not.
    Product(bool),
    Damaged,
}

// Whether the bytes are a product of the task.
fn of_task(alloc: Global, task: &Task, bytes: &[u8]) -> Result<OfTask, AllocError>
    requires { FitsTask task.now }
{
    match read_product(alloc, task, bytes) {
        Ok(product) => match is_product_text(alloc, task, &product, bytes) {
            Ok(same) => Ok(OfTask::Product(same)),
            Err(e) => Err(e),
        },
        Err(ProductRefusal::Damaged) => Ok(OfTask::Damaged),
        Err(ProductRefusal::Memory) => Err(AllocError),
    }
}

// Says whether the bytes are a product of the task.
fn answer_file<W: Write>(alloc: Global, task: &Task, bytes: &[u8], out: &mut W) -> io::Result<()>
    requires { FitsTask task.now }
{
    match of_task(alloc, task, bytes)? {
        OfTask::Product(same) => put_word(out, " product", same),
        OfTask::Damaged => out.write_all(b" Damaged"),
    }
}

// Says which of the files of a line, behind the first, are products of the task.
fn answer_others<W: Write>(alloc: Global, task: &Task, line: &[u8], out: &mut W) -> io::Result<()>
    requires { FitsTask task.now }
{
    for digits in line.split(|byte| *byte == b' ').skip(1) {
        answer_file(alloc, task, bytes_of(alloc, digits)?.as_slice(), out)?;
    }
    out.write_all(b"\n")
}

// Says that the first file is a task, and which of the others are its products.
fn answer_task<W: Write>(
    alloc: Global,
    task: &Task,
    first: &[u8],
    line: &[u8],
    out: &mut W,
) -> io::Result<()>
    requires { FitsTask task.now }
{
    let same = is_text(alloc, task, first)?;
    put_word(out, "task", same)?;
    answer_others(alloc, task, line, out)
}

// Says what the first file of a line is, and then the others.
fn answer_first<W: Write>(alloc: Global, first: &[u8], line: &[u8], out: &mut W) -> io::Result<()> {
    match read_task(alloc, first) {
        Ok(task) => answer_task(alloc, &task, first, line, out),
        Err(TaskRefusal::BadTask) => out.write_all(b"BadTask\n"),
        Err(TaskRefusal::Memory) => Err(out_of_memory()),
    }
}

/// Says of the files of a line which step files they are.
pub(crate) fn answer_files<W: Write>(alloc: Global, line: &[u8], out: &mut W) -> io::Result<()> {
    let mut files = line.split(|byte| *byte == b' ');
    let first = bytes_of(alloc, files.next().unwrap_or(&[]))?;
    answer_first(alloc, first.as_slice(), line, out)
}
