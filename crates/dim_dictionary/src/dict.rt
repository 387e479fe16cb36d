// A dictionary, and its look-ups.

ghost use Rattle.std.specs.Prelude.{◌≡◌, ◌<◌, ◌^◌, ◌↔◌, [], Contains, IfOk, IfSome, IsNone, IsTrue, Some, count_by, length, slice_get};
ghost use Rattle.std.specs.Ordering.{is_lt};
ghost use Rattle.cube_val.specs.Order.{val_cmp};
ghost use Rattle.dim_dictionary.specs.Dictionaries.{IsDictionary, dictionary_of};

use crate::sorting::{copies, references, sort_distinct};
use cube_val::Val;
use std::alloc::{AllocError, Global};
use std::marker::Model;

/// The distinct values of a column, in order. The number of a value is its place among them.
#[derive(Drop)]
pub struct Dict {
    values: Vec<Val>,
}

impl Model for Dict {
    ghost use Rattle.std.specs.Prelude.{List};
    ghost use Rattle.cube_val.specs.declared.val.Val.{Val};
    ghost use Rattle.dim_dictionary.specs.Dictionaries.{IsDictionary};

    ghost Value = { List Val };

    ghost view = { λ d. d.values.items };

    ghost invariant = { λ d. IsDictionary d.values.items };
}

impl Dict {
    /// The dictionary of these values, which may stand in any order and more than once.
    pub fn from_values(alloc: Global, values: &[Val]) -> Result<Dict, AllocError>
        requires { length (dictionary_of values.now) < 2 ^ 32 }
        ensures { IfOk result (λ d. d ≡ dictionary_of values.now) }
    {
        let refs = sort_distinct(references(alloc, values)?);
        let values = copies(alloc, &refs)?;
        Ok(Dict { values })
    }

    /// The dictionary of values that rise strictly already. It takes no memory.
    pub fn of(values: Vec<Val>) -> Dict
        requires { IsDictionary values.items }
        ensures { result ≡ values.items }
    {
        Dict { values }
    }

    /// How many values there are.
    pub fn len(&self) -> u32
        ensures len { result ≡ length self.now }
        ensures dictionary { IsDictionary self.now }
    {
        self.values.len() as u32
    }

    /// Whether there is no value.
    pub fn is_empty(&self) -> bool
        ensures { IsTrue result ↔ (self.now ≡ []) }
    {
        self.values.is_empty()
    }

    /// The number of a value, if it is there. It takes no memory.
    pub fn id_of(&self, v: &Val) -> Option<u32>
        ensures found { IfSome result (λ id. slice_get self.now id ≡ Some v.now) }
        ensures absent { IsNone result ↔ ¬ (Contains self.now v.now) }
    {
        match self.values.binary_search(v) {
            Ok(id) => Some(id as u32),
            Err(_place) => None,
        }
    }

    /// How many values are less than this one, which need not be there. It takes no memory.
    pub fn lower_bound(&self, v: &Val) -> u32
        ensures { result ≡ count_by (λ w. is_lt (val_cmp w v.now)) self.now }
    {
        match self.values.binary_search(v) {
            Ok(id) => id as u32,
            Err(place) => place as u32,
        }
    }

    /// The value of a number.
    pub fn value(&self, id: u32) -> &Val
        requires { id < length self.now }
        ensures { slice_get self.now id ≡ Some result.now }
    {
        &self.values[id as usize]
    }

    /// The values in order.
    pub fn values(&self) -> &[Val]
        ensures values { result.now ≡ self.now }
        ensures dictionary { IsDictionary result.now }
    {
        &self.values
    }
}
