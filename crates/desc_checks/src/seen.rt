// The texts that came before.

ghost use Rattle.std.specs.Prelude.{◌≡◌, ℕ, List, [], ◌∷◌, IfOk, not};
ghost use Rattle.desc_checks.specs.Firsts.{is_among};
ghost use Rattle.desc_checks.specs.Seen.{HasSeen};

use std::alloc::{AllocError, Global};
use std::collections::BTreeSet;

/// Texts that were seen before.
#[derive(Drop)]
pub(crate) struct Seen {
    keys: BTreeSet<Vec<u8>>,
}

impl Seen {
    pub(crate) fn new(alloc: Global) -> Seen
        ensures { HasSeen result [] }
    {
        Seen {
            keys: BTreeSet::new(alloc),
        }
    }

    /// Whether the text is none of those seen. From now on it is one of them.
    pub(crate) fn add(&mut self, text: Vec<u8>) -> Result<bool, AllocError>
        ensures told { IfOk result (λ added. (earlier : List (List ℕ)) → HasSeen self.old earlier → added ≡ not (is_among earlier text.items)) }
        ensures seen { IfOk result (λ added. (earlier : List (List ℕ)) → HasSeen self.old earlier → HasSeen self.new (text.items ∷ earlier)) }
    {
        let added = self.keys.insert(text)?;
        Ok(added)
    }
}
