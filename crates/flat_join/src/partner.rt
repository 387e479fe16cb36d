// What a fact row matches in the lookups.

ghost use Rattle.std.specs.Prelude.{◌≡◌, ◌||◌, ◌++◌, ◌∷◌, [], IfOk, OnOk, is_some, length, not, option_copied};
ghost use Rattle.flat_join.specs.Joins.{has_inner_matches};
ghost use Rattle.flat_join.specs.Partners.{found_in};
ghost use Rattle.lookup_snap.specs.Snaps.{value_in};
ghost use Rattle.table_reader.specs.Keys.{key_of, val_at};

use cube_val::{JoinStep, Row, Val};
use lookup_snap::LookupSnap;
use std::alloc::{AllocError, Global};
use std::marker::Model;

/// The row of a lookup that a fact row matches, or none. Contracts see it as that row.
#[derive(Drop)]
pub(crate) struct Partner<'a> {
    row: Option<&'a Row>,
}

impl<'a> Model for Partner<'a> {
    ghost use Rattle.std.specs.Prelude.{List, Option, option_copied};
    ghost use Rattle.cube_val.specs.declared.val.Val.{Val};

    ghost Value = { Option (List Val) };

    ghost view = { λ partner. option_copied partner.row };
}

impl<'a> Partner<'a> {
    fn of(row: Option<&'a Row>) -> Partner<'a>
        ensures { result ≡ option_copied row.entry }
    {
        Partner { row }
    }

    /// The row, if there is one.
    pub(crate) fn row(&self) -> Option<&'a Row>
        ensures { option_copied result ≡ self.now }
    {
        self.row
    }

    fn is_some(&self) -> bool
        ensures { result ≡ is_some self.now }
    {
        self.row.is_some()
    }
}

/// A copy of the row's value at a place; null where it has none there.
pub(crate) fn value_at(row: &Row, place: usize) -> Result<Val, AllocError>
    ensures { IfOk result (λ v. v ≡ val_at row.now place) }
{
    if place < row.len() {
        row.get(place).copy()
    } else {
        Ok(Val::Null)
    }
}

// Adds a copy of the row's value at a place.
fn add_value(vals: &mut Vec<Val>, row: &Row, place: usize) -> Result<(), AllocError>
    ensures { OnOk result (vals.new.items ≡ vals.old.items ++ val_at row.now place ∷ []) }
{
    let value = value_at(row, place)?;
    vals.push(value)?;
    Ok(())
}

// The key of the row: its values at the places.
fn key_of(alloc: Global, places: &[usize], row: &Row) -> Result<Row, AllocError>
    ensures { IfOk result (λ key. key ≡ key_of places.now row.now) }
{
    let mut vals = Vec::new(alloc);
    for place in places {
        add_value(&mut vals, row, *place)?;
    }
    Ok(Row::of(vals))
}

// What the fact row matches in one lookup.
fn partner_of<'a>(
    alloc: Global,
    join: &JoinStep,
    snap: &'a LookupSnap,
    fact: &Row,
) -> Result<Partner<'a>, AllocError>
    ensures { IfOk result (λ p. p ≡ value_in snap.now (key_of join.now.foreign fact.now)) }
{
    let key = key_of(alloc, join.foreign.as_slice(), fact)?;
    Ok(Partner::of(snap.find(&key)))
}

/// What a fact row matches in each lookup, in the order of the joins.
pub(crate) fn partners<'a>(
    alloc: Global,
    joins: &[JoinStep],
    snaps: &'a [LookupSnap],
    fact: &Row,
) -> Result<Vec<Partner<'a>>, AllocError>
    requires { length joins.now ≡ length snaps.now }
    ensures { IfOk result (λ found. found.items ≡ found_in joins.now snaps.now fact.now) }
{
    let mut found = Vec::new(alloc);
    for i in 0..joins.len() {
        let partner = partner_of(alloc, &joins[i], &snaps[i], fact)?;
        found.push(partner)?;
    }
    Ok(found)
}

// Whether a join drops no fact row that has this partner.
fn keeps(join: &JoinStep, partner: &Partner<'_>) -> bool
    ensures { result ≡ (not join.now.inner || is_some partner.now) }
{
    !join.inner || partner.is_some()
}

/// Whether each inner join has a partner.
pub(crate) fn has_inner_partners(joins: &[JoinStep], found: &[Partner<'_>]) -> bool
    ensures { result ≡ has_inner_matches joins.now found.now }
{
    joins
        .iter()
        .zip(found)
        .all(|(join, partner)| keeps(join, partner))
}
