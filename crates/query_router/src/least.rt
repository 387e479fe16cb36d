// The least cuboid.

ghost use Rattle.std.specs.Prelude.{◌≡◌, ◌<◌, length, slice_index, Some};
ghost use Rattle.std.specs.Option.{ForSome};
ghost use Rattle.agg_group.specs.Mask.{IsRising};
ghost use Rattle.agg_group.specs.Least.{beats, better};
ghost use Rattle.query_router.specs.Route.{serves, least_cuboid, IsServed, IsLeastCuboid};

use agg_group::Mask;

fn serves(masks: &[Mask], needed: Mask, place: usize) -> bool
    requires { place < length masks.now }
    ensures { result ≡ serves masks.now needed place }
{
    needed.within(masks[place])
}

// Whether the place has a lesser length than the best so far.
fn is_shorter(lens: &[usize], place: usize, best: Option<usize>) -> bool
    requires place { place < length lens.now }
    requires best { ForSome best (λ b. b < length lens.now) }
    ensures { result ≡ beats (λ k. slice_index lens.now k) place best }
{
    match best {
        None => true,
        Some(best) => lens[place] < lens[best],
    }
}

// The better of the best so far and the place, where that serves.
fn shorter(lens: &[usize], place: usize, serves: bool, best: Option<usize>) -> Option<usize>
    requires place { place < length lens.now }
    requires best { ForSome best (λ b. b < length lens.now) }
    ensures { result ≡ better (λ k. slice_index lens.now k) place serves best }
{
    if serves && is_shorter(lens, place, best) {
        Some(place)
    } else {
        best
    }
}

/// The place of the cuboid that a query with these needed dimensions reads, where `lens` has each
/// cuboid's number of rows: of the masks that have every needed dimension the one with the fewest
/// rows, and of several such the least mask.
pub fn route(masks: &[Mask], lens: &[usize], needed: Mask) -> usize
    requires equal { length masks.now ≡ length lens.now }
    requires rising { IsRising masks.now }
    requires served { IsServed masks.now needed }
    ensures value { least_cuboid masks.now lens.now needed ≡ Some result }
    ensures least { IsLeastCuboid masks.now lens.now needed result }
{
    let mut best = None;
    for place in 0..masks.len() {
        let serves = serves(masks, needed, place);
        best = shorter(lens, place, serves, best);
    }
    best.unwrap()
}
