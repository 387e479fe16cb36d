// The kinds of aggregate, and the forms in which a cube keeps them.

ghost use Rattle.std.specs.Prelude.{◌≡◌};
ghost use Rattle.plain_answer.specs.Kinds.{form_of_kind, kind_number, kind_of_form, same_kind};

use crate::ask::AggKind;
use measure_laws::MeasureForm;

impl AggKind {
    /// The form in which a cube keeps an aggregate of the kind. An average is kept as its sum, beside the count of the same
    /// column.
    pub fn form(self) -> MeasureForm
        ensures { result ≡ form_of_kind self }
    {
        match self {
            AggKind::Count => MeasureForm::Count,
            AggKind::Known => MeasureForm::Known,
            AggKind::Sum | AggKind::Avg => MeasureForm::Sum,
            AggKind::Min => MeasureForm::Min,
            AggKind::Max => MeasureForm::Max,
            AggKind::Distinct => MeasureForm::Distinct,
        }
    }

    /// The kind of aggregate that a measure of the form is.
    pub fn of_form(form: MeasureForm) -> AggKind
        ensures kind { result ≡ kind_of_form form }
        ensures kept { form_of_kind result ≡ form }
    {
        match form {
            MeasureForm::Count => AggKind::Count,
            MeasureForm::Known => AggKind::Known,
            MeasureForm::Sum => AggKind::Sum,
            MeasureForm::Min => AggKind::Min,
            MeasureForm::Max => AggKind::Max,
            MeasureForm::Distinct => AggKind::Distinct,
        }
    }

    // The kinds in turn.
    fn kind_number(self) -> u8
        ensures { result ≡ kind_number self }
    {
        match self {
            AggKind::Count => 0,
            AggKind::Known => 1,
            AggKind::Sum => 2,
            AggKind::Min => 3,
            AggKind::Max => 4,
            AggKind::Distinct => 5,
            AggKind::Avg => 6,
        }
    }

    /// Whether two kinds are the same.
    pub fn same_kind(self, other: AggKind) -> bool
        ensures { result ≡ same_kind self other }
    {
        self.kind_number() == other.kind_number()
    }
}
