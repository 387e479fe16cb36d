//! Lists of items.

ghost use Rattle.std.specs.Prelude.{◌≡◌, ℕ, List, Option, length};
ghost use Rattle.byte_frame.specs.Outcomes.{Gives};
ghost use Rattle.byte_frame.specs.Reading.{items_at, each_at, list_at, counted_at};

use crate::fault::ReadError;
use crate::fields::FieldReader;
use std::alloc::Global;

/// A context by which an item is read, as a column's type, a dictionary's length or a form of cells.
pub trait Reads<T> {
    /// The reader of an item in this context.
    ghost at: { Self → List ℕ → Option (T × List ℕ) };

    /// Reads one item. After an error nothing is known of what is left.
    fn read(&self, alloc: Global, r: &mut FieldReader) -> Result<T, ReadError>
        ensures { Gives (λ x. (x, r.new)) result (at self.now r.old) };
}

/// The next `count` items. Memory is asked for as items are read, so a count that lies asks for no more than
/// twice what its bytes hold.
pub fn read_items<T: Drop, C: Reads<T>>(
    alloc: Global,
    c: &C,
    count: u32,
    r: &mut FieldReader,
) -> Result<Vec<T>, ReadError>
    ensures { Gives (λ v. (v.items, r.new)) result (items_at (C.at c.now) count r.old) }
{
    let mut items = Vec::new(alloc);
    for _ in 0..count {
        let item = match c.read(alloc, r) {
            Ok(item) => item,
            Err(e) => return Err(e),
        };
        items.push(item)?;
    }
    Ok(items)
}

/// One item for each context, in order.
pub fn read_each<T: Drop, C: Reads<T>>(
    alloc: Global,
    cs: &[C],
    r: &mut FieldReader,
) -> Result<Vec<T>, ReadError>
    ensures { Gives (λ v. (v.items, r.new)) result (each_at C.at cs.now r.old) }
{
    let mut items = Vec::new(alloc);
    for c in cs {
        let item = match c.read(alloc, r) {
            Ok(item) => item,
            Err(e) => return Err(e),
        };
        items.push(item)?;
    }
    Ok(items)
}

/// A u32 count up to the limit, and so many items. A count above the limit is malformed, whatever follows.
pub fn read_list<T: Drop, C: Reads<T>>(
    alloc: Global,
    c: &C,
    limit: u32,
    r: &mut FieldReader,
) -> Result<Vec<T>, ReadError>
    ensures { Gives (λ v. (v.items, r.new)) result (list_at limit (C.at c.now) r.old) }
{
    let Some(count) = r.take_u32() else {
        return Err(ReadError::Malformed);
    };
    if count > limit {
        return Err(ReadError::Malformed);
    }
    read_items(alloc, c, count, r)
}

/// A u32 count, which is that of the contexts, and one item for each of them.
pub fn read_counted<T: Drop, C: Reads<T>>(
    alloc: Global,
    cs: &[C],
    r: &mut FieldReader,
) -> Result<Vec<T>, ReadError>
    ensures { Gives (λ v. (v.items, r.new)) result (counted_at C.at cs.now r.old) }
{
    let Some(count) = r.take_u32() else {
        return Err(ReadError::Malformed);
    };
    if count as usize != cs.len() {
        return Err(ReadError::Malformed);
    }
    read_each(alloc, cs, r)
}
