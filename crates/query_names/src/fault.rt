// The checks in their order.

ghost use Rattle.std.specs.Prelude.{◌≡◌, Option};
ghost use Rattle.std.specs.Option.{option_or};
ghost use Rattle.query_names.specs.Faults.{fault_from, fault_at, fault_of_names, fault_of_model, fault_of_types, fault_of};

use crate::joins::{join_missing_place, join_not_in_model_place};
use crate::names::{no_column_place, no_table_place};
use crate::scope::Scope;
use crate::types::type_clash_place;
use crate::uses::{no_measure_place, not_dimension_place, not_grouped_place};
use query_faults::{BindFault, BindKind};

fn fault_from(kind: BindKind, place: Option<u32>) -> Option<BindFault>
    ensures { result ≡ fault_from kind place }
{
    match place {
        Some(place) => Some(BindFault { place, kind }),
        None => None,
    }
}

/// The one fault, or else the other.
fn or_fault(a: Option<BindFault>, b: Option<BindFault>) -> Option<BindFault>
    ensures { result ≡ option_or a b }
{
    match a {
        Some(fault) => Some(fault),
        None => b,
    }
}

fn fault_of_names(scope: &Scope<'_>) -> Option<BindFault>
    ensures { result ≡ fault_of_names scope.now.parts.now scope.now.query.now }
{
    let table = fault_from(BindKind::NoTable, no_table_place(scope));
    let column = fault_from(BindKind::NoColumn, no_column_place(scope));
    let dimension = fault_from(BindKind::NotDimension, not_dimension_place(scope));
    or_fault(table, or_fault(column, dimension))
}

fn fault_of_model(scope: &Scope<'_>) -> Option<BindFault>
    ensures { result ≡ fault_of_model scope.now.parts.now scope.now.query.now }
{
    let measure = fault_from(BindKind::NoMeasure, no_measure_place(scope));
    let missing = fault_from(BindKind::JoinMissing, join_missing_place(scope));
    let other = fault_from(BindKind::JoinNotInModel, join_not_in_model_place(scope));
    or_fault(measure, or_fault(missing, other))
}

fn fault_of_types(scope: &Scope<'_>) -> Option<BindFault>
    ensures { result ≡ fault_of_types scope.now.parts.now scope.now.query.now }
{
    let clash = fault_from(BindKind::TypeClash, type_clash_place(scope));
    let grouped = fault_from(BindKind::NotGrouped, not_grouped_place(scope));
    or_fault(clash, grouped)
}

/// The first fault of the query, in the order of `BindKind`, at the least byte at which it stands; none exactly where the cube can answer
/// the query.
pub fn first_fault(scope: &Scope<'_>) -> Option<BindFault>
    ensures { result ≡ fault_of scope.now.parts.now scope.now.query.now }
{
    let names = fault_of_names(scope);
    if names.is_some() {
        return names;
    }
    or_fault(fault_of_model(scope), fault_of_types(scope))
}
