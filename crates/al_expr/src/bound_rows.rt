ghost use Rattle.std.specs.Prelude.{◌≡◌, false, Ok};
ghost use Rattle.al_values.specs.Convert.{assigned};
ghost use Rattle.al_values.specs.Gives.{GivesUnlessNoMemory};
ghost use Rattle.al_expr.specs.Bound.{placed, joint_value, joints_value, among, first_of, bound_value, bound_truth, links_bound, items_bound};
ghost use Rattle.al_expr.specs.Evaluation.{followed, below_high, prefixed_value, casts_value, tests_value};
ghost use Rattle.al_expr.specs.Values.{related, denied_if, absolute, measured, read_in, converted};

use crate::arithmetic::absolute;
use crate::evaluation::{cast_all, prefixed, valued_tests};
use crate::held::Held;
use crate::roots::as_truth;
use crate::texts::{assigned_to, measured, operated, read_in};
use crate::values::{both, decides, denied_if, either, is_null, related};
use crate::{Bound, Comparison, EvalFault, Joint, Operator, Prefix, Typed};
use al_values::{Cant, Kind, Row, Tri, Value};
use std::alloc::Global;

/// The value of a bound expression on a row, or the first fault that evaluation meets: what the expression has on that
/// row, as it was bound. No name is looked up.
pub fn eval_bound(alloc: Global, bound: &Bound, row: &Row) -> Result<Value, Cant<EvalFault>>
    ensures { GivesUnlessNoMemory result (bound_value bound.now row.now) }
{
    let value = valued(alloc, bound, row.as_slice())?;
    Ok(value.into_value(alloc)?)
}

/// Whether a bound condition is true of a row (the manual, 7.2.2 and 5.4.1).
pub fn truth_of_bound(alloc: Global, bound: &Bound, row: &Row) -> Result<Tri, Cant<EvalFault>>
    ensures { GivesUnlessNoMemory result (bound_truth bound.now row.now) }
{
    let value = valued(alloc, bound, row.as_slice())?;
    Ok(as_truth(value.get()))
}

// Each node with operands has a function of its own, which keeps what the stack holds of a level small.
#[tactic(auto, using(crate::proofs::BoundNodes::bound_nodes))]
#[cycle(bound_valuing)]
fn valued<'a>(
    alloc: Global,
    bound: &'a Bound,
    row: &'a [Value],
) -> Result<Held<'a>, Cant<EvalFault>>
    ensures { GivesUnlessNoMemory result (bound_value bound.now row.now) }
{
    match bound {
        Bound::Fixed(value) => Ok(Held::lent(value)),
        Bound::Faulty(fault) => Err(Cant::Why(*fault)),
        Bound::Place(place) => Ok(placed(row, *place)),
        Bound::Chain(first, links) => {
            let left = valued(alloc, first.get(), row)?;
            valued_joints(alloc, left, links.as_slice(), row)
        }
        Bound::Prefixed(typed, operand, prefixes) => {
            valued_prefixed(alloc, *typed, operand.get(), prefixes.as_slice(), row)
        }
        Bound::Casts(operand, casts) => valued_casts(alloc, operand.get(), casts.as_slice(), row),
        Bound::IsNull(operand, tests) => {
            valued_is_null(alloc, operand.get(), tests.as_slice(), row)
        }
        Bound::Between(negated, value, low, high) => {
            let value = valued(alloc, value.get(), row)?;
            let low = valued(alloc, low.get(), row)?;
            valued_between(alloc, *negated, value, low, high.get(), row)
        }
        Bound::In(negated, value, items) => {
            let value = valued(alloc, value.get(), row)?;
            valued_in(alloc, *negated, value, items.as_slice(), row)
        }
        Bound::Coalesce(items) => valued_first(alloc, items.as_slice(), row),
        Bound::Abs(kind, operand) => valued_abs(alloc, *kind, operand.get(), row),
        Bound::Length(operand) => valued_length(alloc, operand.get(), row),
        Bound::Read(kind, operand) => valued_read(alloc, *kind, operand.get(), row),
        Bound::Store(kind, operand) => valued_stored(alloc, *kind, operand.get(), row),
    }
}

#[cycle(bound_valuing)]
#[inline(never)]
fn valued_prefixed<'a>(
    alloc: Global,
    typed: Typed,
    operand: &'a Bound,
    prefixes: &[(u32, Prefix)],
    row: &'a [Value],
) -> Result<Held<'a>, Cant<EvalFault>>
    ensures { GivesUnlessNoMemory result (followed (bound_value operand.now row.now) (λ value. prefixed_value typed value prefixes.now)) }
{
    let value = valued(alloc, operand, row)?;
    prefixed(alloc, typed, value, prefixes)
}

#[cycle(bound_valuing)]
#[inline(never)]
fn valued_casts<'a>(
    alloc: Global,
    operand: &'a Bound,
    casts: &[(u32, Kind)],
    row: &'a [Value],
) -> Result<Held<'a>, Cant<EvalFault>>
    ensures { GivesUnlessNoMemory result (followed (bound_value operand.now row.now) (λ value. casts_value value casts.now)) }
{
    let value = valued(alloc, operand, row)?;
    cast_all(alloc, value, casts)
}

#[cycle(bound_valuing)]
#[inline(never)]
fn valued_is_null<'a>(
    alloc: Global,
    operand: &'a Bound,
    tests: &[(u32, bool)],
    row: &'a [Value],
) -> Result<Held<'a>, Cant<EvalFault>>
    ensures { GivesUnlessNoMemory result (followed (bound_value operand.now row.now) (λ value. Ok (tests_value value tests.now))) }
{
    let value = valued(alloc, operand, row)?;
    Ok(valued_tests(value, tests))
}

#[cycle(bound_valuing)]
#[inline(never)]
fn valued_abs<'a>(
    alloc: Global,
    kind: Kind,
    operand: &'a Bound,
    row: &'a [Value],
) -> Result<Held<'a>, Cant<EvalFault>>
    ensures { GivesUnlessNoMemory result (followed (bound_value operand.now row.now) (λ value. absolute kind value)) }
{
    let value = valued(alloc, operand, row)?;
    match absolute(kind, value.get()) {
        Ok(number) => Ok(Held::own(number)),
        Err(fault) => Err(Cant::Why(fault)),
    }
}

#[cycle(bound_valuing)]
#[inline(never)]
fn valued_length<'a>(
    alloc: Global,
    operand: &'a Bound,
    row: &'a [Value],
) -> Result<Held<'a>, Cant<EvalFault>>
    ensures { GivesUnlessNoMemory result (followed (bound_value operand.now row.now) measured) }
{
    let text = valued(alloc, operand, row)?;
    match measured(text.get()) {
        Ok(count) => Ok(Held::own(count)),
        Err(fault) => Err(Cant::Why(fault)),
    }
}

#[cycle(bound_valuing)]
#[inline(never)]
fn valued_read<'a>(
    alloc: Global,
    kind: Kind,
    operand: &'a Bound,
    row: &'a [Value],
) -> Result<Held<'a>, Cant<EvalFault>>
    ensures { GivesUnlessNoMemory result (followed (bound_value operand.now row.now) (λ value. read_in kind Typed.Untyped value)) }
{
    let value = valued(alloc, operand, row)?;
    read_in(alloc, kind, Typed::Untyped, value)
}

#[cycle(bound_valuing)]
#[inline(never)]
fn valued_stored<'a>(
    alloc: Global,
    kind: Kind,
    operand: &'a Bound,
    row: &'a [Value],
) -> Result<Held<'a>, Cant<EvalFault>>
    ensures { GivesUnlessNoMemory result (followed (bound_value operand.now row.now) (λ value. converted (assigned value kind))) }
{
    let value = valued(alloc, operand, row)?;
    let stored = assigned_to(alloc, value.get(), kind)?;
    Ok(Held::own(stored))
}

/// The value at a place, where the row has one.
fn placed<'a>(row: &'a [Value], place: usize) -> Held<'a>
    ensures { result ≡ placed row.now place }
{
    match row.get(place) {
        Some(value) => Held::lent(value),
        None => Held::own(Value::Null),
    }
}

/// Operators in a row.
#[tactic(auto, unfolding(crate::specs::Bound::links_bound))]
#[cycle(bound_valuing)]
fn valued_joints<'a>(
    alloc: Global,
    first: Held<'a>,
    links: &'a [(Joint, Bound)],
    row: &'a [Value],
) -> Result<Held<'a>, Cant<EvalFault>>
    ensures { GivesUnlessNoMemory result (joints_value first.entry (links_bound row.now links.now)) }
{
    let mut left = first;
    for link in links {
        left = valued_joint(alloc, link.0, left, &link.1, row)?;
    }
    Ok(left)
}

/// An operator, whose left side is evaluated.
#[cycle(bound_valuing)]
fn valued_joint<'a>(
    alloc: Global,
    joint: Joint,
    left: Held<'a>,
    right: &'a Bound,
    row: &'a [Value],
) -> Result<Held<'a>, Cant<EvalFault>>
    ensures { GivesUnlessNoMemory result (joint_value joint left.entry (bound_value right.now row.now)) }
{
    let left = read_in(alloc, joint.operands, joint.left, left)?;
    if decides(joint.operator, left.get()) {
        return Ok(left);
    }
    let right = valued(alloc, right, row)?;
    let value = operated(alloc, joint.operator, joint.gives, left.get(), right.get())?;
    Ok(Held::own(value))
}

#[cycle(bound_valuing)]
#[inline(never)]
fn valued_between<'a>(
    alloc: Global,
    negated: bool,
    value: Held<'a>,
    low: Held<'a>,
    high: &'a Bound,
    row: &'a [Value],
) -> Result<Held<'a>, Cant<EvalFault>>
    ensures { GivesUnlessNoMemory result (followed (below_high value.entry (related Comparison.GreaterOrEqual value.entry low.entry) (bound_value high.now row.now)) (λ truth. Ok (denied_if negated truth))) }
{
    let truth = valued_up_to(alloc, value, low, high, row)?;
    Ok(Held::own(denied_if(negated, truth)))
}

/// BETWEEN, whose value and lower end are evaluated.
#[cycle(bound_valuing)]
#[inline(never)]
fn valued_up_to<'a>(
    alloc: Global,
    value: Held<'a>,
    low: Held<'a>,
    high: &'a Bound,
    row: &'a [Value],
) -> Result<Value, Cant<EvalFault>>
    ensures { GivesUnlessNoMemory result (below_high value.entry (related Comparison.GreaterOrEqual value.entry low.entry) (bound_value high.now row.now)) }
{
    let above = related(Comparison::GreaterOrEqual, value.get(), low.get());
    if decides(Operator::And, &above) {
        return Ok(above);
    }
    let high = valued(alloc, high, row)?;
    let below = related(Comparison::LessOrEqual, value.get(), high.get());
    Ok(both(&above, &below))
}

#[cycle(bound_valuing)]
#[inline(never)]
fn valued_in<'a>(
    alloc: Global,
    negated: bool,
    value: Held<'a>,
    items: &'a [Bound],
    row: &'a [Value],
) -> Result<Held<'a>, Cant<EvalFault>>
    ensures { GivesUnlessNoMemory result (followed (among value.entry (Value.Bool false) (items_bound row.now items.now)) (λ truth. Ok (denied_if negated truth))) }
{
    let truth = valued_among(alloc, value, items, row)?;
    Ok(Held::own(denied_if(negated, truth)))
}

/// IN, whose value is evaluated.
#[tactic(auto, unfolding(crate::specs::Bound::items_bound))]
#[cycle(bound_valuing)]
fn valued_among<'a>(
    alloc: Global,
    value: Held<'a>,
    items: &'a [Bound],
    row: &'a [Value],
) -> Result<Value, Cant<EvalFault>>
    ensures { GivesUnlessNoMemory result (among value.entry (Value.Bool false) (items_bound row.now items.now)) }
{
    let mut found = Value::Bool(false);
    for item in items {
        let item = valued(alloc, item, row)?;
        found = either(&found, &related(Comparison::Equal, value.get(), item.get()));
        if decides(Operator::Or, &found) {
            return Ok(found);
        }
    }
    Ok(found)
}

/// The first of the values that isn't null.
#[tactic(auto, unfolding(crate::specs::Bound::items_bound))]
#[cycle(bound_valuing)]
fn valued_first<'a>(
    alloc: Global,
    items: &'a [Bound],
    row: &'a [Value],
) -> Result<Held<'a>, Cant<EvalFault>>
    ensures { GivesUnlessNoMemory result (first_of (items_bound row.now items.now)) }
{
    for item in items {
        let value = valued(alloc, item, row)?;
        if !is_null(value.get()) {
            return Ok(value);
        }
    }
    Ok(Held::own(Value::Null))
}
