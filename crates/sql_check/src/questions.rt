// Questions to what was read.

use std::alloc::Global;
use std::io;
use std::io::Write;

/// A question to a value.
pub trait Question<T> {
    /// Writes the answer.
    fn put<W: Write>(&self, alloc: Global, of: &T, out: &mut W) -> io::Result<()>;
}

/// Writes the answer to a question to what was read; the error where nothing was.
pub fn put_answer<T: Drop, Q: Question<T>, W: Write>(
    alloc: Global,
    read: io::Result<T>,
    question: &Q,
    out: &mut W,
) -> io::Result<()> {
    let of = read?;
    question.put(alloc, &of, out)
}
