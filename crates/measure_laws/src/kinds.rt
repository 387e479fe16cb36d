// What each form of measure is of.

ghost use Rattle.std.specs.Prelude.{◌≡◌, ◌<◌, ◌+◌, ◌^◌, IsTrue};
ghost use Rattle.measure_laws.specs.Kinds.{are_ids, are_rows, counts_rows, dict_after, form_number, form_of_word, has_dictionary, item_kind, place_after, same_form};

use crate::measure::MeasureForm;

/// What measures are of. All that is said of a measure's column and dictionary is said of these kinds.
#[derive(Clone, Copy, Debug, PartialEq, Eq)]
pub enum ItemKind {
    /// Rows, whatever stands in them. Such a measure has no column.
    Rows,
    /// The values of a column that aren't null.
    Values,
    /// The numbers of a column.
    Numbers,
    /// The numbers that a column's values have in a dictionary of their own, those that aren't null.
    Ids,
}

impl ItemKind {
    /// Whether they are rows.
    pub fn are_rows(self) -> bool
        ensures { result ≡ are_rows self }
    {
        match self {
            ItemKind::Rows => true,
            ItemKind::Values | ItemKind::Numbers | ItemKind::Ids => false,
        }
    }

    /// Whether they are numbers of a dictionary.
    pub fn are_ids(self) -> bool
        ensures { result ≡ are_ids self }
    {
        match self {
            ItemKind::Ids => true,
            ItemKind::Rows | ItemKind::Values | ItemKind::Numbers => false,
        }
    }

    // The place of the dictionary after a measure of these items.
    fn place_after(self, place: usize) -> usize
        requires { IsTrue (are_ids self) → place + 1 < 2 ^ 64 }
        ensures { result ≡ place_after self place }
    {
        match self {
            ItemKind::Ids => place + 1,
            ItemKind::Rows | ItemKind::Values | ItemKind::Numbers => place,
        }
    }
}

impl MeasureForm {
    /// What a measure of the form is of.
    pub fn item_kind(self) -> ItemKind
        ensures { result ≡ item_kind self }
    {
        match self {
            MeasureForm::Count => ItemKind::Rows,
            MeasureForm::Known => ItemKind::Values,
            MeasureForm::Sum | MeasureForm::Min | MeasureForm::Max => ItemKind::Numbers,
            MeasureForm::Distinct => ItemKind::Ids,
        }
    }

    /// Whether a measure of the form counts rows, and has no column.
    pub fn counts_rows(self) -> bool
        ensures { result ≡ counts_rows self }
    {
        self.item_kind().are_rows()
    }

    /// Whether a measure of the form has a dictionary of its column's values.
    pub fn has_dictionary(self) -> bool
        ensures { result ≡ has_dictionary self }
    {
        self.item_kind().are_ids()
    }

    /// The place of the dictionary after a measure of the form, where those of measures stand one after another.
    pub fn dict_after(self, place: usize) -> usize
        requires { IsTrue (has_dictionary self) → place + 1 < 2 ^ 64 }
        ensures { result ≡ dict_after self place }
    {
        self.item_kind().place_after(place)
    }

    // The forms in turn.
    fn form_number(self) -> u8
        ensures { result ≡ form_number self }
    {
        match self {
            MeasureForm::Count => 0,
            MeasureForm::Known => 1,
            MeasureForm::Sum => 2,
            MeasureForm::Min => 3,
            MeasureForm::Max => 4,
            MeasureForm::Distinct => 5,
        }
    }

    /// Whether two forms are the same.
    pub fn same_form(self, other: MeasureForm) -> bool
        ensures { result ≡ same_form self other }
    {
        self.form_number() == other.form_number()
    }

    /// The form that a descriptor's word names, as `COUNT_DISTINCT` names sets of different values. It is none for every
    /// other word; a count of known values has no word, since it is kept unasked.
    pub fn of_word(word: &[u8]) -> Option<MeasureForm>
        ensures { result ≡ form_of_word word.now }
    {
        if word == b"COUNT".as_slice() {
            Some(MeasureForm::Count)
        } else if word == b"SUM".as_slice() {
            Some(MeasureForm::Sum)
        } else if word == b"MIN".as_slice() {
            Some(MeasureForm::Min)
        } else if word == b"MAX".as_slice() {
            Some(MeasureForm::Max)
        } else if word == b"COUNT_DISTINCT".as_slice() {
            Some(MeasureForm::Distinct)
        } else {
            None
        }
    }
}
