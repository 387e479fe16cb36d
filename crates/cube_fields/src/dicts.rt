// Dictionaries.

ghost use Rattle.std.specs.Prelude.{◌≡◌};
ghost use Rattle.byte_frame.specs.Outcomes.{Gives};
ghost use Rattle.cube_fields.specs.Reading.{dict_at, dicts_at};

use crate::order::rise;
use byte_frame::{FieldReader, ReadError, Reads, read_counted, read_list};
use dim_dictionary::{Dict, DictSet};
use std::alloc::Global;
use step_fields::Column;

/// What a dictionary is read by.
#[derive(Clone, Copy)]
pub struct DictForm {
    /// The column of its values.
    pub column: Column,
    /// The most values that it may have.
    pub limit: u32,
}

impl Reads<Dict> for DictForm {
    ghost use Rattle.cube_fields.specs.Reading.{dict_at};

    ghost at = { dict_at };

    fn read(&self, alloc: Global, r: &mut FieldReader) -> Result<Dict, ReadError> {
        let limit = self.limit;
        let values = match read_list(alloc, &self.column, limit, r) {
            Ok(values) => values,
            Err(e) => return Err(e),
        };
        if !rise(values.as_slice()) {
            return Err(ReadError::Malformed);
        }
        Ok(Dict::of(values))
    }
}

/// A dictionary for each form, behind their number.
pub fn read_dicts(
    alloc: Global,
    forms: &[DictForm],
    r: &mut FieldReader,
) -> Result<DictSet, ReadError>
    ensures { Gives (λ dicts. (dicts, r.new)) result (dicts_at forms.now r.old) }
{
    match read_counted(alloc, forms, r) {
        Ok(dicts) => Ok(DictSet::new(dicts)),
        Err(e) => Err(e),
    }
}
