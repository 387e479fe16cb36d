// Moves in lists.

ghost use Rattle.std.specs.Prelude.{◌≡◌, ◌+◌, ◌<◌, ◌≤◌, ◌++◌, ◌∷◌, [], vec_capacity, vec_len};
ghost use Rattle.worker_pool.specs.Lists.{IsWithout};

/// Takes the item of a place out.
pub(crate) fn take_at<T: Drop>(list: &mut Vec<T>, place: usize) -> T
    requires { place < vec_len list.old }
    ensures taken { IsWithout result list.old.items list.new.items }
    ensures len { vec_len list.new + 1 ≡ vec_len list.old }
    ensures capacity { vec_capacity list.new ≡ vec_capacity list.old }
{
    list.remove(place)
}

/// Puts an item last, where there is room.
pub(crate) fn put<T: Drop>(list: &mut Vec<T>, item: T)
    requires { vec_len list.old < vec_capacity list.old }
    ensures put { IsWithout item list.new.items list.old.items }
    ensures len { vec_len list.new ≡ vec_len list.old + 1 }
    ensures capacity { vec_capacity list.new ≡ vec_capacity list.old }
{
    list.push_reserved(item);
}
