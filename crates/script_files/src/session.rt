// The sessions of a script.

ghost use Rattle.std.specs.Prelude.{◌≡◌, [], Some, IfOk, OnErr, OnOk};
ghost use Rattle.std.specs.List.{position_or_len};
ghost use Rattle.std.specs.Str.{bytes_eq};
ghost use Rattle.script_files.specs.Scripts.{with_name};

use cube_val::NameText;
use indexmap::IndexSet;
use std::alloc::{AllocError, Global};
use std::marker::Model;

/// The names of sessions, in the order of their first queries. The place of a name is the session's number.
#[derive(Drop)]
pub struct Sessions {
    names: IndexSet<Vec<u8>>,
}

impl Model for Sessions {
    ghost use Rattle.std.specs.Prelude.{ℕ, List, map};

    ghost Value = { List (List ℕ) };

    ghost view = { λ sessions. map (λ name. name.items) sessions.names.keys };
}

impl Sessions {
    /// No session.
    pub fn new(alloc: Global) -> Sessions
        ensures { result ≡ [] }
    {
        Sessions {
            names: IndexSet::new(alloc),
        }
    }

    /// The number of the session of this name; a new one comes last. There are too many to be numbered where want of memory is answered.
    pub fn number(&mut self, alloc: Global, name: &NameText) -> Result<u32, AllocError>
        ensures number { IfOk result (λ number. number ≡ position_or_len (bytes_eq name.now) self.old) }
        ensures names { OnOk result (self.new ≡ with_name self.old (Some name.now)) }
    {
        let name = Vec::from_slice(alloc, name.bytes())?;
        let (number, _) = self.names.insert_full(name)?;
        let Ok(number) = u32::try_from(number) else {
            return Err(AllocError);
        };
        Ok(number)
    }
}
