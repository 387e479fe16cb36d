// The check of measures.

ghost use Rattle.std.specs.Prelude.{◌≡◌, ℕ, List, [], Option, Bool, IfOk};
ghost use Rattle.std.specs.Option.{option_copied};
ghost use Rattle.desc_checks.specs.Firsts.{first, unless, along};
ghost use Rattle.desc_checks.specs.Measures.{takes_one, takes_parameter, is_measure, function_of, bad_measure, bad_measures};

use crate::along::{Along, first_from_start};
use crate::check::place_unless;
use crate::columns::takes_column;
use crate::tables::fact_columns;
use crate::types::{is_number_type, type_of};
use descriptor_json::{JsonPointer, RawDesc, RawMeasure};
use measure_laws::{ItemKind, MeasureForm};
use std::alloc::{AllocError, Global};

fn takes_one(measure: &RawMeasure) -> bool
    ensures { result ≡ takes_one measure.now }
{
    let function = &measure.function;
    let (kind, value) = (&function.parameter.kind, &function.parameter.value);
    kind.text.bytes() == b"constant".as_slice() && value.text.bytes() == b"1".as_slice()
}

// Whether a measure of such items is applied to what it takes.
fn takes_parameter(raw: &RawDesc, measure: &RawMeasure, kind: ItemKind) -> bool
    ensures { result ≡ takes_parameter raw.now measure.now kind }
{
    match kind {
        ItemKind::Rows => takes_one(measure),
        ItemKind::Values => false,
        ItemKind::Numbers => {
            let value = &measure.function.parameter.value;
            takes_column(measure) && is_number_type(type_of(fact_columns(raw), value.text.bytes()))
        }
        ItemKind::Ids => takes_column(measure),
    }
}

fn is_measure(raw: &RawDesc, measure: &RawMeasure) -> bool
    ensures { result ≡ is_measure raw.now measure.now }
{
    let word = &measure.function.expression;
    match MeasureForm::of_word(word.text.bytes()) {
        None => false,
        Some(form) => takes_parameter(raw, measure, form.item_kind()),
    }
}

/// A measure whose function is none, or that of an earlier measure.
#[derive(Clone, Copy)]
pub(crate) struct BadMeasure<'a> {
    pub(crate) raw: &'a RawDesc,
}

impl<'r> Along<RawMeasure> for BadMeasure<'r> {
    ghost text = { λ _ m. function_of m };

    ghost failing = { λ s is_new m. bad_measure s.raw.now is_new m };

    fn text_of(&self, alloc: Global, measure: &RawMeasure) -> Result<Vec<u8>, AllocError> {
        let function = &measure.function;
        let (word, value) = (&function.expression, &function.parameter.value);
        let mut text = Vec::from_slice(alloc, word.text.bytes())?;
        text.push(b'.')?;
        text.extend_from_slice(value.text.bytes())?;
        Ok(text)
    }

    fn first<'a>(
        &self,
        _alloc: Global,
        is_new: bool,
        measure: &'a RawMeasure,
    ) -> Result<Option<&'a JsonPointer>, AllocError> {
        Ok(place_unless(is_new && is_measure(self.raw, measure), &measure.place))
    }
}

pub(crate) fn bad_measure_place<'a>(
    alloc: Global,
    raw: &'a RawDesc,
) -> Result<Option<&'a JsonPointer>, AllocError>
    ensures { IfOk result (λ o. option_copied o ≡ first (bad_measures raw.now)) }
{
    let measures = &raw.measures;
    first_from_start(alloc, &BadMeasure { raw }, measures.items.as_slice())
}
