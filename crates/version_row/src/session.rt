// What a reader keeps from one pin to the next.

ghost use Rattle.std.specs.Prelude.{◌≡◌, ◌≤◌, ◌↔◌, IfOk, IfSome, IsTrue, OnErr};
ghost use Rattle.std.specs.Arc.{arc_value};
ghost use Rattle.version_row.specs.Rows.{IsOf, set_of};

use crate::published::Published;
use crate::row::{Shown, VersionRow};
use std::alloc::AllocError;
use std::marker::Model;
use std::sync::Arc;

/// A reader of a row, with the token of its last pin. Contracts see this token.
#[derive(Drop)]
pub struct Session<S: Published> {
    last: Arc<Shown<S>>,
}

impl<S: Published> Model for Session<S> {
    ghost use Rattle.std.specs.Arc.{arc_value};
    ghost use Rattle.version_row.specs.Entries.{Token, token_code};

    ghost Value = { Token S };

    ghost coded = { token_code S.code };

    ghost view = { λ s. arc_value s.last };
}

// The newer of two tokens, the first where both have one version.
fn newer<'a, S: Published>(
    row: &VersionRow<S>,
    one: &'a Arc<Shown<S>>,
    other: &'a Arc<Shown<S>>,
) -> &'a Arc<Shown<S>>
    requires one { IsOf row.now (arc_value one.now) }
    requires other { IsOf row.now (arc_value other.now) }
    ensures of { IsOf row.now (arc_value result.now) }
    ensures no_older { S.number (set_of (arc_value one.now)) ≤ S.number (set_of (arc_value result.now)) }
    ensures no_older_than_other { S.number (set_of (arc_value other.now)) ≤ S.number (set_of (arc_value result.now)) }
{
    if row.set(one).version() < row.set(other).version() {
        other
    } else {
        one
    }
}

// The set that stands last in the row behind the token's place and is no older; the token itself where there is none.
fn newest<S: Published + Drop>(
    row: &VersionRow<S>,
    known: &Arc<Shown<S>>,
) -> Result<Arc<Shown<S>>, AllocError>
    requires { IsOf row.now (arc_value known.now) }
    ensures of { IfOk result (λ shown. IsOf row.now (arc_value shown)) }
    ensures no_older { IfOk result (λ shown. S.number (set_of (arc_value known.now)) ≤ S.number (set_of (arc_value shown))) }
{
    match row.last_behind(known) {
        Some(shown) => row.shared(shown),
        None => known.clone(),
    }
}

impl<S: Published + Drop> Session<S> {
    /// A session whose last pin is this token.
    pub fn new(first: Arc<Shown<S>>) -> Session<S>
        ensures { result ≡ arc_value first }
    {
        Session { last: first }
    }

    /// Pins a set of the row: its version is at least that of the token that it is told and that of the last pin. It looks from
    /// the end of the row back to the newer of these two, and passes over what stands there under another descriptor. A refusal of memory
    /// leaves the session as it was.
    pub fn pin(
        &mut self,
        row: &VersionRow<S>,
        told: Arc<Shown<S>>,
    ) -> Result<Arc<Shown<S>>, AllocError>
        requires last { IsOf row.now self.old }
        requires told { IsOf row.now (arc_value told) }
        ensures of { IfOk result (λ shown. IsOf row.now (arc_value shown)) }
        ensures told { IfOk result (λ shown. S.number (set_of (arc_value told)) ≤ S.number (set_of (arc_value shown))) }
        ensures last { IfOk result (λ shown. S.number (set_of self.old) ≤ S.number (set_of (arc_value shown))) }
        ensures kept { IfOk result (λ shown. self.new ≡ arc_value shown) }
        ensures refused { OnErr result (self.new ≡ self.old) }
    {
        let pinned = newest(row, newer(row, &self.last, &told))?;
        self.last = pinned.clone()?;
        Ok(pinned)
    }
}
