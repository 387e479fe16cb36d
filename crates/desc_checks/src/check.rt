// What a check is.
#![tactic(auto, using(crate::proofs::FirstLemmas::first_append))]

ghost use Rattle.std.specs.Prelude.{◌≡◌, ℕ, List, [], ◌∷◌, ◌++◌, Option};
ghost use Rattle.std.specs.List.{flat_map};
ghost use Rattle.std.specs.Option.{option_copied, option_or};
ghost use Rattle.descriptor_json.specs.declared.raw.RawName.{RawName};
ghost use Rattle.desc_checks.specs.Firsts.{first, unless};
ghost use Rattle.desc_checks.specs.Groups.{of_group};

use cube_val::Items;
use descriptor_json::{JsonPointer, RawGroup, RawName};

/// A check of a part of the descriptor.
pub(crate) trait Check<T> {
    /// The failing places in this part, in the order of the walk.
    ghost failing: { Self → T → List (List ℕ) };

    /// The first of them.
    fn first<'a>(&self, item: &'a T) -> Option<&'a JsonPointer>
        ensures { option_copied result ≡ first (failing self.now item.now) };
}

/// The first failing place of a list.
pub(crate) fn first_in<'a, T, C: Check<T>>(check: &C, items: &'a [T]) -> Option<&'a JsonPointer>
    ensures { option_copied result ≡ first (flat_map (C.failing check.now) items.now) }
{
    for item in items {
        match check.first(item) {
            Some(place) => return Some(place),
            None => {}
        }
    }
    None
}

/// The one place, or else the other.
pub(crate) fn or_first<'a>(
    a: Option<&'a JsonPointer>,
    b: Option<&'a JsonPointer>,
) -> Option<&'a JsonPointer>
    ensures { option_copied result ≡ option_or (option_copied a.entry) (option_copied b.entry) }
{
    match a {
        Some(place) => Some(place),
        None => b,
    }
}

/// The place, where the test fails.
pub(crate) fn place_unless(holds: bool, place: &JsonPointer) -> Option<&JsonPointer>
    ensures { option_copied result ≡ first (unless holds place.now) }
{
    if holds { None } else { Some(place) }
}

/// A check of each item of lists.
#[derive(Clone, Copy)]
pub(crate) struct InLists<'a, C> {
    pub(crate) check: &'a C,
}

impl<'c, C: Check<RawName>> Check<Items<RawName>> for InLists<'c, C> {
    ghost failing = { λ s texts. flat_map (C.failing s.check.now) texts };

    fn first<'a>(&self, texts: &'a Items<RawName>) -> Option<&'a JsonPointer> {
        first_in(self.check, texts.as_slice())
    }
}

/// A check of each text of aggregation groups.
#[derive(Clone, Copy)]
pub(crate) struct InGroups<'a, C> {
    pub(crate) check: &'a C,
}

impl<'c, C: Check<RawName>> Check<RawGroup> for InGroups<'c, C> {
    ghost failing = { λ s group. of_group (C.failing s.check.now) group };

    fn first<'a>(&self, group: &'a RawGroup) -> Option<&'a JsonPointer> {
        let check = self.check;
        let rule = &group.rule;
        let lists = InLists { check };
        let alone = or_first(
            first_in(check, group.includes.as_slice()),
            first_in(check, rule.mandatory.as_slice()),
        );
        let with_hierarchies = or_first(alone, first_in(&lists, rule.hierarchies.as_slice()));
        or_first(with_hierarchies, first_in(&lists, rule.joints.as_slice()))
    }
}
