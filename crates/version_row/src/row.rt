// The row and its tokens.

ghost use Rattle.std.specs.Prelude.{◌≡◌, ◌≤◌, ◌↔◌, IfOk, IfSome, IsTrue};
ghost use Rattle.std.specs.Arc.{arc_value};
ghost use Rattle.version_row.specs.Rows.{IsOf, place_of, set_of};

use crate::published::Published;
use boxcar::{Pushed, Vec as Places};
use cube_desc::CubeDesc;
use std::alloc::{AllocError, Global};
use std::marker::Model;
use std::sync::{Arc, Wait};

/// A published set, beside the descriptor of the row that it was published in.
#[derive(Drop)]
pub(crate) struct Publication<S: Published> {
    desc: Arc<CubeDesc>,
    set: S,
}

impl<S: Published> Model for Publication<S> {
    ghost use Rattle.std.specs.Arc.{arc_value};
    ghost use Rattle.version_row.specs.Entries.{Entry, entry_code};

    ghost Value = { Entry S };

    ghost coded = { entry_code S.code };

    ghost view = { λ p. record { desc = arc_value p.desc; set = p.set } };

    ghost invariant = { λ p. S.is_built_for (arc_value p.desc) p.set };
}

/// A row of published sets. Contracts see its descriptor, and the places of its sets as `boxcar` has them.
#[derive(Drop)]
pub struct VersionRow<S: Published> {
    alloc: Global,
    desc: Arc<CubeDesc>,
    places: Places<Publication<S>>,
}

impl<S: Published> Model for VersionRow<S> {
    ghost use Rattle.std.specs.Arc.{arc_value};
    ghost use Rattle.version_row.specs.Rows.{Row, row_code};

    ghost Value = { Row };

    ghost coded = { row_code };

    ghost view = { λ r. record { desc = arc_value r.desc; places = r.places } };
}

/// A token for one set of a row. Contracts see its place, the set and the descriptor beside it.
#[derive(Drop)]
pub struct Shown<S: Published> {
    place: Pushed<Publication<S>>,
}

impl<S: Published> Model for Shown<S> {
    ghost use Rattle.version_row.specs.Entries.{Token, token_code};

    ghost Value = { Token S };

    ghost coded = { token_code S.code };

    ghost view = { λ s. s.place };
}

impl<S: Published> VersionRow<S> {
    /// The row's descriptor, for which each of its sets is built.
    pub fn desc(&self) -> &CubeDesc
        ensures { result.now ≡ self.now.desc }
    {
        &self.desc
    }

    /// The set of a token: exactly the one that was published with it.
    pub fn set<'a>(&'a self, shown: &Shown<S>) -> &'a S
        requires { IsOf self.now shown.now }
        ensures set { result.now ≡ set_of shown.now }
        ensures built { S.is_built_for self.now.desc result.now }
    {
        let publication = self.places.value(&shown.place);
        &publication.set
    }

    /// Whether both tokens name one place of the row; then both sets are one. Two places may hold equal sets.
    pub fn agree(&self, one: &Shown<S>, other: &Shown<S>) -> bool
        requires one { IsOf self.now one.now }
        requires other { IsOf self.now other.now }
        ensures places { IsTrue result ↔ (place_of one.now ≡ place_of other.now) }
        ensures sets { IsTrue result → set_of one.now ≡ set_of other.now }
    {
        if one.place.index() == other.place.index() {
            self.places.agrees(&one.place, &other.place);
            true
        } else {
            false
        }
    }
}

impl<S: Published + Drop> VersionRow<S> {
    /// A row of no sets. What it publishes has to be built for this descriptor.
    pub fn new(alloc: Global, desc: Arc<CubeDesc>) -> Result<VersionRow<S>, AllocError>
        ensures { IfOk result (λ row. row.desc ≡ arc_value desc) }
    {
        Ok(VersionRow {
            alloc,
            desc,
            places: Places::new(alloc)?,
        })
    }

    /// Puts a set into the row, and answers its token. Where memory is refused, the set may stand in the row all the same, and then a
    /// pin may give a token of it.
    pub fn publish<R: Wait>(&self, rt: &R, set: S) -> Result<Arc<Shown<S>>, AllocError>
        requires { S.is_built_for self.now.desc set }
        ensures of { IfOk result (λ shown. IsOf self.now (arc_value shown)) }
        ensures set { IfOk result (λ shown. set_of (arc_value shown) ≡ set) }
    {
        let desc = self.desc.clone()?;
        let Ok(place) = self.places.push_shown(rt, Publication { desc, set }) else {
            return Err(AllocError);
        };
        Ok(Arc::new(self.alloc, Shown { place })?)
    }
}

impl<S: Published> VersionRow<S> {
    // Whether an entry stands under the row's descriptor. Descriptors of equal bytes are one.
    fn is_own(&self, publication: &Publication<S>) -> bool
        ensures { IsTrue result ↔ (publication.now.desc ≡ self.now.desc) }
    {
        publication.desc.source() == self.desc.source()
    }

    // The token of a place, if a set of the row stands there.
    fn token_at(&self, place: usize) -> Option<Shown<S>>
        ensures { IfSome result (λ shown. IsOf self.now shown) }
    {
        let place = self.places.witness(place)?;
        if self.is_own(self.places.value(&place)) {
            Some(Shown { place })
        } else {
            None
        }
    }

    // The token of a place, if a set of the row stands there that is no older than the version.
    fn token_since(&self, place: usize, version: u32) -> Option<Shown<S>>
        ensures of { IfSome result (λ shown. IsOf self.now shown) }
        ensures no_older { IfSome result (λ shown. version ≤ S.number (set_of shown)) }
    {
        let shown = self.token_at(place)?;
        if version <= self.set(&shown).version() {
            Some(shown)
        } else {
            None
        }
    }

    /// The set that stands last in the row, of those behind the token's place that are no older.
    pub(crate) fn last_behind(&self, known: &Shown<S>) -> Option<Shown<S>>
        requires { IsOf self.now known.now }
        ensures of { IfSome result (λ shown. IsOf self.now shown) }
        ensures no_older { IfSome result (λ shown. S.number (set_of known.now) ≤ S.number (set_of shown)) }
    {
        let version = self.set(known).version();
        let behind = known.place.index().saturating_add(1);
        for place in (behind..self.places.count()).rev() {
            if let Some(shown) = self.token_since(place, version) {
                return Some(shown);
            }
        }
        None
    }

    /// The token behind a pointer that is shared.
    pub(crate) fn shared(&self, shown: Shown<S>) -> Result<Arc<Shown<S>>, AllocError>
        ensures { IfOk result (λ shared. arc_value shared ≡ shown) }
    {
        Ok(Arc::new(self.alloc, shown)?)
    }
}
