ghost use Rattle.std.specs.Prelude.{◌≡◌, false, Some, Ok};
ghost use Rattle.al_values.specs.Gives.{GivesUnlessNoMemory};
ghost use Rattle.al_values.specs.Reading.{read_as};
ghost use Rattle.al_expr.specs.Columns.{column_kind, column_value, first_value, later_values};
ghost use Rattle.al_expr.specs.Kinds.{common, common_with, settled};
ghost use Rattle.al_expr.specs.Nominal.{nominal, met, shared_by, items_nominal, as_typed, chain_gives, prefixed_gives, casts_gives, operator_gives, links_nominal};
ghost use Rattle.al_expr.specs.Typing.{literal_kind, tests_kind};
ghost use Rattle.al_expr.specs.Values.{read_in, operand_kind, related, converted, literal_value, absolute, measured};
ghost use Rattle.al_expr.specs.Evaluation.{value_of, known, followed, sides_value, operator_value, chain_value, prefixed_value, casts_value, tests_value, side_value, below_high, in_value, coalesce_value, links_sides, items_sides};

use crate::arithmetic::{absolute, literal_value};
use crate::held::Held;
use crate::kinds::{common, common_with, settled};
use crate::nominal::{
    casts_gives, met, nominal, nominal_items, operator_gives, prefix_gives, prefixed_gives,
};
use crate::texts::{cast_to, measured, operated, prefix_value, read_in, read_text};
use crate::typing::{literal_kind, typed_tests};
use crate::values::{both, decides, denied_if, either, is_null, operand_kind, related, tested};
use crate::{Column, Comparison, EvalFault, Expr, Operator, Prefix, Typed};
use al_values::{Cant, Kind, Name, Txt, Value};
use std::alloc::Global;

/// A value with its kind.
#[tactic(auto, using(crate::proofs::ValueNodes::value_nodes, crate::proofs::NominalNodes::nominal_nodes))]
#[cycle(valuing)]
pub(crate) fn valued<'a>(
    alloc: Global,
    expr: &'a Expr,
    columns: &[Column],
    row: &'a [Value],
) -> Result<(Typed, Held<'a>), Cant<EvalFault>>
    ensures { GivesUnlessNoMemory result (known (nominal expr.now columns.now) (value_of expr.now columns.now row.now)) }
{
    match expr {
        Expr::Literal(_, value) => valued_literal(value),
        Expr::Date(_, text) => valued_date(alloc, text),
        Expr::Column(_, name) => Ok(column_found(columns, row, name)),
        Expr::Chain(first, links) => {
            let (typed, left) = valued(alloc, first.get(), columns, row)?;
            valued_chain(alloc, typed, left, links.as_slice(), columns, row)
        }
        Expr::Prefixed(operand, prefixes) => {
            let (typed, value) = valued(alloc, operand.get(), columns, row)?;
            valued_prefixes(alloc, typed, value, prefixes.as_slice())
        }
        Expr::Casts(operand, casts) => {
            let (typed, value) = valued(alloc, operand.get(), columns, row)?;
            valued_casts(alloc, typed, value, casts.as_slice())
        }
        Expr::IsNull(operand, tests) => {
            valued_is_null(alloc, operand.get(), tests.as_slice(), columns, row)
        }
        Expr::Between(_, negated, value, low, high) => {
            let kind = between_kind(value.get(), low.get(), high.get(), columns);
            let value = valued_as(alloc, kind, value.get(), columns, row)?;
            let low = valued_as(alloc, kind, low.get(), columns, row)?;
            let truth = valued_up_to(alloc, kind, value, low, high.get(), columns, row)?;
            Ok((
                Typed::Known(Kind::Boolean),
                Held::own(denied_if(*negated, truth)),
            ))
        }
        Expr::In(_, negated, value, items) => {
            let first = nominal(value.get(), columns);
            let kind = met(nominal_items(Some(first), items.as_slice(), columns));
            let value = valued_as(alloc, kind, value.get(), columns, row)?;
            let truth = valued_among(alloc, kind, value, items.as_slice(), columns, row)?;
            Ok((
                Typed::Known(Kind::Boolean),
                Held::own(denied_if(*negated, truth)),
            ))
        }
        Expr::Coalesce(_, items) => valued_first(alloc, items.as_slice(), columns, row),
        Expr::Abs(_, operand) => valued_abs(alloc, operand.get(), columns, row),
        Expr::Length(_, operand) => valued_length(alloc, operand.get(), columns, row),
    }
}

#[inline(never)]
fn valued_literal<'a>(value: &'a Value) -> Result<(Typed, Held<'a>), Cant<EvalFault>>
    ensures { GivesUnlessNoMemory result (known (literal_kind value.now) (literal_value value.now)) }
{
    let written = literal_value(value).map_err(Cant::Why)?;
    Ok((literal_kind(value), written))
}

#[inline(never)]
fn valued_date<'a>(alloc: Global, text: &Txt) -> Result<(Typed, Held<'a>), Cant<EvalFault>>
    ensures { GivesUnlessNoMemory result (known (Typed.Known Kind.Date) (converted (read_as text.now Kind.Date))) }
{
    let day = read_text(alloc, text, Kind::Date)?;
    Ok((Typed::Known(Kind::Date), Held::own(day)))
}

#[cycle(valuing)]
#[inline(never)]
fn valued_is_null<'a>(
    alloc: Global,
    operand: &'a Expr,
    tests: &[(u32, bool)],
    columns: &[Column],
    row: &'a [Value],
) -> Result<(Typed, Held<'a>), Cant<EvalFault>>
    ensures { GivesUnlessNoMemory result
        (known (tests_kind (nominal operand.now columns.now) tests.now)
        (followed (side_value Kind.Text (nominal operand.now columns.now, value_of operand.now columns.now row.now)) (λ value. Ok (tests_value value tests.now)))) }
{
    let (typed, value) = valued(alloc, operand, columns, row)?;
    let value = read_in(alloc, Kind::Text, typed, value)?;
    Ok((typed_tests(typed, tests), valued_tests(value, tests)))
}

#[cycle(valuing)]
#[inline(never)]
fn valued_first<'a>(
    alloc: Global,
    items: &'a [Expr],
    columns: &[Column],
    row: &'a [Value],
) -> Result<(Typed, Held<'a>), Cant<EvalFault>>
    ensures { GivesUnlessNoMemory result
        (known (Typed.Known (met (shared_by (Some Typed.Untyped) (items_nominal columns.now items.now))))
        (coalesce_value (met (shared_by (Some Typed.Untyped) (items_nominal columns.now items.now))) (items_sides columns.now row.now items.now))) }
{
    let kind = met(nominal_items(Some(Typed::Untyped), items, columns));
    let value = valued_coalesce(alloc, kind, items, columns, row)?;
    Ok((Typed::Known(kind), value))
}

#[cycle(valuing)]
#[inline(never)]
fn valued_abs<'a>(
    alloc: Global,
    operand: &'a Expr,
    columns: &[Column],
    row: &'a [Value],
) -> Result<(Typed, Held<'a>), Cant<EvalFault>>
    ensures { GivesUnlessNoMemory result
        (known (nominal operand.now columns.now)
        (followed (value_of operand.now columns.now row.now) (λ value. absolute (settled (nominal operand.now columns.now)) value))) }
{
    let (typed, value) = valued(alloc, operand, columns, row)?;
    match absolute(settled(typed), value.get()) {
        Ok(number) => Ok((typed, Held::own(number))),
        Err(fault) => Err(Cant::Why(fault)),
    }
}

#[cycle(valuing)]
#[inline(never)]
fn valued_length<'a>(
    alloc: Global,
    operand: &'a Expr,
    columns: &[Column],
    row: &'a [Value],
) -> Result<(Typed, Held<'a>), Cant<EvalFault>>
    ensures { GivesUnlessNoMemory result
        (known (Typed.Known Kind.Integer)
        (followed (side_value Kind.Text (nominal operand.now columns.now, value_of operand.now columns.now row.now)) measured)) }
{
    let text = valued_as(alloc, Kind::Text, operand, columns, row)?;
    match measured(text.get()) {
        Ok(count) => Ok((Typed::Known(Kind::Integer), Held::own(count))),
        Err(fault) => Err(Cant::Why(fault)),
    }
}

/// An operand, read as the kind.
#[cycle(valuing)]
fn valued_as<'a>(
    alloc: Global,
    kind: Kind,
    expr: &'a Expr,
    columns: &[Column],
    row: &'a [Value],
) -> Result<Held<'a>, Cant<EvalFault>>
    ensures { GivesUnlessNoMemory result (side_value kind (nominal expr.now columns.now, value_of expr.now columns.now row.now)) }
{
    let (typed, value) = valued(alloc, expr, columns, row)?;
    read_in(alloc, kind, typed, value)
}

/// Operators in a row.
#[tactic(auto, unfolding(crate::specs::Evaluation::links_sides, crate::specs::Nominal::links_nominal))]
#[cycle(valuing)]
fn valued_chain<'a>(
    alloc: Global,
    first_type: Typed,
    first: Held<'a>,
    links: &'a [(u32, Operator, Expr)],
    columns: &[Column],
    row: &'a [Value],
) -> Result<(Typed, Held<'a>), Cant<EvalFault>>
    ensures { GivesUnlessNoMemory result
        (known (chain_gives first_type (links_nominal columns.now links.now))
        (chain_value first_type first.entry (links_sides columns.now row.now links.now))) }
{
    let mut typed = first_type;
    let mut left = first;
    for link in links {
        let (next_type, next) = valued_operator(alloc, link.1, typed, left, &link.2, columns, row)?;
        typed = next_type;
        left = next;
    }
    Ok((typed, left))
}

/// An operator, whose left side is evaluated.
#[cycle(valuing)]
fn valued_operator<'a>(
    alloc: Global,
    operator: Operator,
    left_type: Typed,
    left: Held<'a>,
    right: &'a Expr,
    columns: &[Column],
    row: &'a [Value],
) -> Result<(Typed, Held<'a>), Cant<EvalFault>>
    ensures { GivesUnlessNoMemory result
        (known (operator_gives operator left_type (nominal right.now columns.now))
        (operator_value operator left_type left.entry (nominal right.now columns.now, value_of right.now columns.now row.now))) }
{
    let left = left_read(alloc, operator, left_type, left, right, columns)?;
    if decides(operator, left.get()) {
        return Ok((Typed::Known(Kind::Boolean), left));
    }
    let (right_type, right) = valued(alloc, right, columns, row)?;
    let typed = operator_gives(operator, left_type, right_type);
    let value = sides_value(alloc, operator, left_type, left, right_type, right)?;
    Ok((typed, Held::own(value)))
}

/// An operator, whose sides are evaluated, and the left one is read.
fn sides_value(
    alloc: Global,
    operator: Operator,
    left_type: Typed,
    left: Held<'_>,
    right_type: Typed,
    right: Held<'_>,
) -> Result<Value, Cant<EvalFault>>
    ensures { GivesUnlessNoMemory result (sides_value operator left_type left.entry right_type right.entry) }
{
    let kind = operand_kind(operator, left_type, right_type);
    let right = read_in(alloc, kind, right_type, right)?;
    let typed = operator_gives(operator, left_type, right_type);
    operated(alloc, operator, settled(typed), left.get(), right.get())
}

/// The left side of an operator: a string is read by the kind of the right side, which isn't evaluated yet.
fn left_read<'a>(
    alloc: Global,
    operator: Operator,
    left_type: Typed,
    left: Held<'a>,
    right: &Expr,
    columns: &[Column],
) -> Result<Held<'a>, Cant<EvalFault>>
    ensures { GivesUnlessNoMemory result (read_in (operand_kind operator left_type (nominal right.now columns.now)) left_type left.entry) }
{
    match left_type {
        Typed::Known(_) => Ok(left),
        Typed::Untyped => {
            let kind = operand_kind(operator, left_type, nominal(right, columns));
            read_in(alloc, kind, left_type, left)
        }
    }
}

/// BETWEEN, whose value and lower end are evaluated.
#[cycle(valuing)]
fn valued_up_to<'a>(
    alloc: Global,
    kind: Kind,
    value: Held<'a>,
    low: Held<'a>,
    high: &'a Expr,
    columns: &[Column],
    row: &'a [Value],
) -> Result<Value, Cant<EvalFault>>
    ensures { GivesUnlessNoMemory result (below_high value.entry (related Comparison.GreaterOrEqual value.entry low.entry)
        (side_value kind (nominal high.now columns.now, value_of high.now columns.now row.now))) }
{
    let above = related(Comparison::GreaterOrEqual, value.get(), low.get());
    if decides(Operator::And, &above) {
        return Ok(above);
    }
    let high = valued_as(alloc, kind, high, columns, row)?;
    let below = related(Comparison::LessOrEqual, value.get(), high.get());
    Ok(both(&above, &below))
}

/// IN, whose value is evaluated.
#[tactic(auto, unfolding(crate::specs::Evaluation::items_sides))]
#[cycle(valuing)]
fn valued_among<'a>(
    alloc: Global,
    kind: Kind,
    value: Held<'a>,
    items: &'a [Expr],
    columns: &[Column],
    row: &'a [Value],
) -> Result<Value, Cant<EvalFault>>
    ensures { GivesUnlessNoMemory result (in_value kind value.entry (Value.Bool false) (items_sides columns.now row.now items.now)) }
{
    let mut found = Value::Bool(false);
    for item in items {
        let item = valued_as(alloc, kind, item, columns, row)?;
        found = either(&found, &related(Comparison::Equal, value.get(), item.get()));
        if decides(Operator::Or, &found) {
            return Ok(found);
        }
    }
    Ok(found)
}

/// The first of the values that isn't null.
#[tactic(auto, unfolding(crate::specs::Evaluation::items_sides))]
#[cycle(valuing)]
fn valued_coalesce<'a>(
    alloc: Global,
    kind: Kind,
    items: &'a [Expr],
    columns: &[Column],
    row: &'a [Value],
) -> Result<Held<'a>, Cant<EvalFault>>
    ensures { GivesUnlessNoMemory result (coalesce_value kind (items_sides columns.now row.now items.now)) }
{
    for item in items {
        let value = valued_as(alloc, kind, item, columns, row)?;
        if !is_null(value.get()) {
            return Ok(value);
        }
    }
    Ok(Held::own(Value::Null))
}

/// The kind as which the operands of BETWEEN are read.
pub(crate) fn between_kind(value: &Expr, low: &Expr, high: &Expr, columns: &[Column]) -> Kind
    ensures { result ≡ met (common_with (common (nominal value.now columns.now) (nominal low.now columns.now)) (nominal high.now columns.now)) }
{
    let low_shared = common(nominal(value, columns), nominal(low, columns));
    met(common_with(low_shared, nominal(high, columns)))
}

/// The value of a column, with its kind.
fn column_found<'a>(columns: &[Column], row: &'a [Value], name: &Name) -> (Typed, Held<'a>)
    ensures kind { result.0 ≡ as_typed (column_kind columns.now name.now) }
    ensures value { result.1 ≡ column_value columns.now row.now name.now }
{
    let mut rest = row;
    for column in columns {
        if column.name == *name {
            return (Typed::Known(column.kind), first_value(rest));
        }
        rest = later_values(rest);
    }
    (Typed::Untyped, Held::own(Value::Null))
}

/// The first value, where there is one.
fn first_value<'a>(row: &'a [Value]) -> Held<'a>
    ensures { result ≡ first_value row.now }
{
    match row {
        [value, ..] => Held::lent(value),
        [] => Held::own(Value::Null),
    }
}

/// The values after the first.
fn later_values<'a>(row: &'a [Value]) -> &'a [Value]
    ensures { result.now ≡ later_values row.now }
{
    match row {
        [_, rest @ ..] => rest,
        [] => row,
    }
}

/// NOTs and signs in a row.
fn valued_prefixes<'a>(
    alloc: Global,
    inner_type: Typed,
    inner: Held<'a>,
    prefixes: &[(u32, Prefix)],
) -> Result<(Typed, Held<'a>), Cant<EvalFault>>
    ensures { GivesUnlessNoMemory result (known (prefixed_gives inner_type prefixes.now) (prefixed_value inner_type inner.entry prefixes.now)) }
{
    let value = prefixed(alloc, inner_type, inner, prefixes)?;
    Ok((prefixed_gives(inner_type, prefixes), value))
}

/// The value of NOTs and signs in a row.
pub(crate) fn prefixed<'a>(
    alloc: Global,
    inner_type: Typed,
    inner: Held<'a>,
    prefixes: &[(u32, Prefix)],
) -> Result<Held<'a>, Cant<EvalFault>>
    ensures { GivesUnlessNoMemory result (prefixed_value inner_type inner.entry prefixes.now) }
{
    let mut typed = inner_type;
    let mut value = inner;
    for (_, prefix) in prefixes {
        value = prefix_value(alloc, *prefix, typed, value)?;
        typed = prefix_gives(*prefix, typed);
    }
    Ok(value)
}

/// Casts in a row.
fn valued_casts<'a>(
    alloc: Global,
    inner_type: Typed,
    inner: Held<'a>,
    casts: &[(u32, Kind)],
) -> Result<(Typed, Held<'a>), Cant<EvalFault>>
    ensures { GivesUnlessNoMemory result (known (casts_gives inner_type casts.now) (casts_value inner.entry casts.now)) }
{
    let value = cast_all(alloc, inner, casts)?;
    Ok((casts_gives(inner_type, casts), value))
}

/// The value of casts in a row.
pub(crate) fn cast_all<'a>(
    alloc: Global,
    inner: Held<'a>,
    casts: &[(u32, Kind)],
) -> Result<Held<'a>, Cant<EvalFault>>
    ensures { GivesUnlessNoMemory result (casts_value inner.entry casts.now) }
{
    let mut value = inner;
    for (_, to) in casts {
        let cast = cast_to(alloc, value.get(), *to)?;
        value = Held::own(cast);
    }
    Ok(value)
}

/// IS NULL and IS NOT NULL in a row.
pub(crate) fn valued_tests<'a>(inner: Held<'a>, tests: &[(u32, bool)]) -> Held<'a>
    ensures { result ≡ tests_value inner.entry tests.now }
{
    let mut value = inner;
    for (_, negated) in tests {
        value = Held::own(tested(*negated, value.get()));
    }
    value
}
