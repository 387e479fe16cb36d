// Lists in which there is room.

ghost use Rattle.std.specs.Prelude.{◌≡◌, ◌<◌, ◌++◌, [], ◌∷◌, vec_capacity, vec_len};

/// Puts an item last. It takes no memory.
pub fn put<X: Drop>(list: &mut Vec<X>, item: X)
    requires { vec_len list.old < vec_capacity list.old }
    ensures { list.new.items ≡ list.old.items ++ item ∷ [] }
{
    let _ = list.push(item);
}
