// One item for each context, where all of them are read in one surrounding.

ghost use Rattle.std.specs.Prelude.{◌≡◌, ◌++◌, ℕ, List, Option};
ghost use Rattle.byte_frame.specs.Outcomes.{Gives};
ghost use Rattle.byte_frame.specs.Reading.{as_at, each_at};

use byte_frame::{FieldReader, ReadError};
use std::alloc::Global;

/// A context by which an item is read in a surrounding.
pub(crate) trait ReadsIn<E, T> {
    /// The reader of an item in this context.
    ghost at: { E → Self → List ℕ → Option (T × List ℕ) };

    /// Reads one item. After an error nothing is known of what is left.
    fn read_in(&self, alloc: Global, env: &E, r: &mut FieldReader) -> Result<T, ReadError>
        ensures { Gives (λ x. (x, r.new)) result (at env.now self.now r.old) };
}

/// One item for each context, in order, behind the items that are there.
pub(crate) fn read_behind<E, T: Drop, C: ReadsIn<E, T>>(
    front: Vec<T>,
    alloc: Global,
    env: &E,
    cs: &[C],
    r: &mut FieldReader,
) -> Result<Vec<T>, ReadError>
    ensures { Gives (λ v. (v.items, r.new)) result (as_at (λ xs. front.items ++ xs) (each_at (C.at env.now) cs.now) r.old) }
{
    let mut items = front;
    for c in cs {
        let item = match c.read_in(alloc, env, r) {
            Ok(item) => item,
            Err(e) => return Err(e),
        };
        items.push(item)?;
    }
    Ok(items)
}
