// Checks that look back.

ghost use Rattle.std.specs.Prelude.{◌≡◌, ℕ, List, [], ◌∷◌, Option, Bool, IfOk};
ghost use Rattle.std.specs.Option.{option_copied};
ghost use Rattle.desc_checks.specs.Firsts.{first, along};
ghost use Rattle.desc_checks.specs.Seen.{HasSeen};

use crate::seen::Seen;
use descriptor_json::JsonPointer;
use std::alloc::{AllocError, Global};

/// A check of items that have a text, told of each whether its text is none of those before it.
pub(crate) trait Along<T> {
    /// The text of an item.
    ghost text: { Self → T → List ℕ };

    /// The failing places in an item whose text is new or not, in the order of the walk.
    ghost failing: { Self → Bool → T → List (List ℕ) };

    fn text_of(&self, alloc: Global, item: &T) -> Result<Vec<u8>, AllocError>
        ensures { IfOk result (λ v. v.items ≡ text self.now item.now) };

    /// The first of the failing places.
    fn first<'a>(
        &self,
        alloc: Global,
        is_new: bool,
        item: &'a T,
    ) -> Result<Option<&'a JsonPointer>, AllocError>
        ensures { IfOk result (λ o. option_copied o ≡ first (failing self.now is_new item.now)) };
}

/// The first failing place of a list, after texts that were seen.
pub(crate) fn first_along<'a, T, C: Along<T>>(
    alloc: Global,
    check: &C,
    mut seen: Seen,
    items: &'a [T],
) -> Result<Option<&'a JsonPointer>, AllocError>
    ensures { (earlier : List (List ℕ)) → HasSeen seen earlier → IfOk result
        (λ o. option_copied o ≡ first (along (C.text check.now) (C.failing check.now) earlier items.now)) }
{
    for item in items {
        let text = check.text_of(alloc, item)?;
        let is_new = seen.add(text)?;
        let here = check.first(alloc, is_new, item)?;
        match here {
            Some(place) => return Ok(Some(place)),
            None => {}
        }
    }
    Ok(None)
}

/// The first failing place of a list, before which nothing was seen.
pub(crate) fn first_from_start<'a, T, C: Along<T>>(
    alloc: Global,
    check: &C,
    items: &'a [T],
) -> Result<Option<&'a JsonPointer>, AllocError>
    ensures { IfOk result
        (λ o. option_copied o ≡ first (along (C.text check.now) (C.failing check.now) [] items.now)) }
{
    first_along(alloc, check, Seen::new(alloc), items)
}
