// The dictionaries of D1 and D2.

ghost use Rattle.std.specs.Prelude.{◌≡◌, ◌<◌, ◌^◌, IfOk, length};
ghost use Rattle.cubes_plain.specs.Cuboids.{column_dict, dicts_of};

use cube_val::Row;
use dim_dictionary::{Dict, DictSet};
use layer_builder::dict_of_column;
use std::alloc::{AllocError, Global};
use std::thread::{self, Threads};

/// The dictionaries of D1 and of D2, made side by side.
pub fn dictionaries<R: Threads>(rt: &R, alloc: Global, rows: &[Row]) -> Result<DictSet, AllocError>
    requires { length rows.now < 2 ^ 32 }
    ensures { IfOk result (λ dicts. dicts ≡ dicts_of rows.now) }
{
    let (first, second) = thread::join(
        rt,
        move || -> Result<Dict, AllocError>
            requires { length rows.now < 2 ^ 32 }
            ensures { IfOk result (λ dict. dict ≡ column_dict rows.entry.now 0) }
        { dict_of_column(alloc, rows, 0) },
        move || -> Result<Dict, AllocError>
            requires { length rows.now < 2 ^ 32 }
            ensures { IfOk result (λ dict. dict ≡ column_dict rows.entry.now 1) }
        { dict_of_column(alloc, rows, 1) },
    );
    let mut dicts = Vec::with_capacity(alloc, 2)?;
    dicts.push(first?)?;
    dicts.push(second?)?;
    Ok(DictSet::new(dicts))
}
