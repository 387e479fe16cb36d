ghost use Rattle.std.specs.Prelude.{◌≡◌, ◌<◌, vec_len};
ghost use Rattle.std.specs.Option.{ForSome, is_some};
ghost use Rattle.job_list.specs.Links.{slot_at, with_next, with_previous, end_without};

/// The neighbours of a number in the list.
#[derive(Clone, Copy, Debug, PartialEq, Eq)]
pub struct Link {
    pub previous: Option<u32>,
    pub next: Option<u32>,
}

/// Whether there is a slot for `id` and the number is in the list.
pub fn is_listed(slots: &[Option<Link>], id: u32) -> bool
    ensures { result ≡ is_some (slot_at slots.now id) }
{
    match slots.get(id as usize) {
        Some(slot) => slot.is_some(),
        None => false,
    }
}

/// The slot of `id` leads on to `next`. Without an `id` nothing changes.
pub fn set_next(slots: &mut Vec<Option<Link>>, id: Option<u32>, next: Option<u32>)
    requires { ForSome id (λ n. n < vec_len slots.old) }
    ensures items { slots.new.items ≡ with_next id next slots.old.items }
    ensures len { vec_len slots.new ≡ vec_len slots.old }
{
    if let Some(id) = id {
        let at = id as usize;
        slots[at] = slots[at].map(|link| Link { next, ..link });
    }
}

/// The slot of `id` leads back to `previous`. Without an `id` nothing changes.
pub fn set_previous(slots: &mut Vec<Option<Link>>, id: Option<u32>, previous: Option<u32>)
    requires { ForSome id (λ n. n < vec_len slots.old) }
    ensures items { slots.new.items ≡ with_previous id previous slots.old.items }
    ensures len { vec_len slots.new ≡ vec_len slots.old }
{
    if let Some(id) = id {
        let at = id as usize;
        slots[at] = slots[at].map(|link| Link { previous, ..link });
    }
}

/// An end of the list once a number is gone: its inner neighbour where it had no outer one, else the `end` as it was.
pub fn end_without(outer: Option<u32>, inner: Option<u32>, end: Option<u32>) -> Option<u32>
    ensures { result ≡ end_without outer inner end }
{
    match outer {
        None => inner,
        Some(_) => end,
    }
}
