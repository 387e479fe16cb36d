// Binding a query.

ghost use Rattle.std.specs.Prelude.{◌≡◌, ◌≤◌, ◌<◌, List, [], ◌++◌, Ok, Err, Some, None, IfOk, length, map};
ghost use Rattle.cube_desc.specs.Sound as cubes;
ghost use Rattle.plain_answer.specs.Asks.{IsSound};
ghost use Rattle.query_names.specs.Faults.{fault_of};
ghost use Rattle.query_names.specs.Resolve.{dimension_count};
ghost use Rattle.query_faults.specs.declared.bind.BindFault.{BindFault};
ghost use Rattle.query_bind.specs.Asks.{ask_of, ask_with, bound_item, bound_or_true, column_number};
ghost use Rattle.query_bind.specs.Bounds.{IsBound, IsWithinRowkey};

use crate::aggs::aggs_of;
use crate::bound_query::{BindRefusal, Bound};
use crate::needs::needed;
use crate::terms::{bound_items, bound_keys, bound_or_true, group_columns};
use cube_desc::CubeDesc;
use cube_val::Items;
use plain_answer::{Agg, Ask, Cond, Out};
use query_names::{Scope, first_fault};
use sql_reader::Query;
use std::alloc::{AllocError, Global};

// The conditions on rows and on groups.
fn conditions(alloc: Global, scope: &Scope<'_>, aggs: &[Agg]) -> Result<(Cond, Cond), AllocError>
    requires { dimension_count scope.now.parts.now ≤ length scope.now.parts.now.plan.wide }
    ensures { IfOk result (λ both. both ≡ (bound_or_true scope.now.parts.now scope.now.query.now aggs.now scope.now.query.now.filter, bound_or_true scope.now.parts.now scope.now.query.now aggs.now scope.now.query.now.having)) }
{
    let query = scope.query;
    let filter = bound_or_true(alloc, scope, aggs, &query.filter)?;
    Ok((filter, bound_or_true(alloc, scope, aggs, &query.having)?))
}

// The columns of groups, and what is shown of each.
fn shown(
    alloc: Global,
    scope: &Scope<'_>,
    aggs: &[Agg],
) -> Result<(Items<usize>, Items<Out>), AllocError>
    requires { dimension_count scope.now.parts.now ≤ length scope.now.parts.now.plan.wide }
    ensures { IfOk result (λ both. both ≡ (map (column_number scope.now.parts.now scope.now.query.now) scope.now.query.now.group, map (bound_item scope.now.parts.now scope.now.query.now aggs.now) scope.now.query.now.items)) }
{
    let query = scope.query;
    let group = group_columns(alloc, scope, query.group.as_slice())?;
    Ok((
        group,
        bound_items(alloc, scope, aggs, query.items.as_slice())?,
    ))
}

// The ask with these aggregates.
fn ask_with(alloc: Global, scope: &Scope<'_>, own: Vec<Agg>) -> Result<Ask, AllocError>
    requires { dimension_count scope.now.parts.now ≤ length scope.now.parts.now.plan.wide }
    ensures { IfOk result (λ a. a ≡ ask_with scope.now.parts.now scope.now.query.now own.items) }
{
    let query = scope.query;
    let aggs = own.as_slice();
    let order = bound_keys(alloc, scope, aggs, query.order.as_slice())?;
    let (group, outs) = shown(alloc, scope, aggs)?;
    let (filter, having) = conditions(alloc, scope, aggs)?;
    Ok(Ask {
        filter,
        group,
        aggs: Items::of(own),
        outs,
        having,
        order,
        limit: query.limit,
    })
}

fn ask_of(alloc: Global, scope: &Scope<'_>) -> Result<Ask, AllocError>
    requires { dimension_count scope.now.parts.now ≤ length scope.now.parts.now.plan.wide }
    ensures { IfOk result (λ a. a ≡ ask_of scope.now.parts.now scope.now.query.now) }
{
    let aggs = aggs_of(alloc, scope)?;
    ask_with(alloc, scope, aggs)
}

fn bound(alloc: Global, scope: &Scope<'_>) -> Result<Bound, AllocError>
    requires sound { cubes.IsSound scope.now.parts.now }
    requires faultless { fault_of scope.now.parts.now scope.now.query.now ≡ None }
    ensures bound { IfOk result (λ b. IsBound scope.now.parts.now scope.now.query.now b) }
    ensures sound { IfOk result (λ b. IsSound b.ask) }
    ensures within { IfOk result (λ b. IsWithinRowkey scope.now.parts.now b.needed) }
{
    let needed = needed(alloc, scope)?;
    let ask = ask_of(alloc, scope)?;
    Ok(Bound { ask, needed })
}

/// Binds a query to a cube. A fault is the first kind, in the order of `BindKind`, that has a failing place, at the least of its places; want
/// of memory may stand in place of every answer.
pub fn bind(alloc: Global, desc: &CubeDesc, query: &Query) -> Result<Bound, BindRefusal>
    ensures bound { IfOk result (λ b. IsBound desc.now.cube query.now b) }
    ensures sound { IfOk result (λ b. IsSound b.ask) }
    ensures within { IfOk result (λ b. IsWithinRowkey desc.now.cube b.needed) }
    ensures fault { (f : BindFault) → result ≡ Err (BindRefusal.Fault f) → fault_of desc.now.cube query.now ≡ Some f }
{
    let scope = Scope {
        parts: desc.parts(),
        query,
    };
    if let Some(fault) = first_fault(&scope) {
        return Err(BindRefusal::Fault(fault));
    }
    Ok(bound(alloc, &scope)?)
}
