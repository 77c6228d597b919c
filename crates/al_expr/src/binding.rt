ghost use Rattle.std.specs.Prelude.{◌≡◌, true, Some, Ok, IfOk};
ghost use Rattle.std.specs.Option.{option_copied};
ghost use Rattle.al_values.specs.Reading.{read_as};
ghost use Rattle.al_expr.specs.Bound.{IsBound, IsSoundOn};
ghost use Rattle.al_expr.specs.Binding.{place_from, bound_place, bound_outcome, written, literal_read, read_untyped, read_bound, joint_of, bound_of, bound_as, links_joints, items_as, stored_bound};
ghost use Rattle.al_expr.specs.Evaluation.{side_value};
ghost use Rattle.al_expr.specs.Kinds.{is_truth, settled};
ghost use Rattle.al_expr.specs.Columns.{column_kind};
ghost use Rattle.al_expr.specs.Nominal.{nominal, as_typed, met, shared_by, items_nominal, chain_gives, prefixed_gives, casts_gives, links_nominal};
ghost use Rattle.al_expr.specs.Roots.{root_of, output_of, stored_of, is_assignable};
ghost use Rattle.al_expr.specs.Typing.{kind_is, literal_kind, tests_kind};
ghost use Rattle.al_expr.specs.Values.{converted, literal_value, read_in};

use crate::arithmetic::literal_value;
use crate::column::column_kind;
use crate::evaluation::between_kind;
use crate::held::Held;
use crate::kinds::settled;
use crate::nominal::{
    as_typed, casts_gives, met, nominal, nominal_items, operator_gives, prefixed_gives,
};
use crate::texts::{read_in, read_text};
use crate::typing::{literal_kind, typed_tests};
use crate::values::operand_kind;
use crate::{Bound, Column, ColumnList, Expr, Joint, Operator, Prefix, Typed};
use al_values::{Cant, Copied, Kind, Name, NoMemory, Txt, Value};
use sqlite_items::{Boxed, Items};
use std::alloc::Global;

/// An expression bound to columns, once for many rows, as an output of a query: on each row it has the value that `eval`
/// gives. Where the expression has a kind, that is Null or a value of it on each row that fits the columns, or the row's
/// fault.
pub fn bind_output(alloc: Global, expr: &Expr, columns: &ColumnList) -> Result<Bound, NoMemory>
    ensures value { IfOk result (λ bound. IsBound bound (λ row. output_of (root_of expr.now columns.now row))) }
    ensures kind { IfOk result (λ bound. (typed : Typed) → kind_is expr.now columns.now ≡ Ok typed → IsSoundOn columns.now (settled typed) bound) }
{
    bind_as(alloc, Kind::Text, expr, columns.as_slice())
}

/// An expression bound to columns, once for many rows, as a condition: on each row `truth_of_bound` gives what `truth_of`
/// does.
pub fn bind_condition(alloc: Global, expr: &Expr, columns: &ColumnList) -> Result<Bound, NoMemory>
    ensures value { IfOk result (λ bound. IsBound bound (λ row. side_value Kind.Boolean (root_of expr.now columns.now row))) }
    ensures kind { IfOk result (λ bound. (typed : Typed) → kind_is expr.now columns.now ≡ Ok typed → is_truth typed ≡ true → IsSoundOn columns.now Kind.Boolean bound) }
{
    bind_as(alloc, Kind::Boolean, expr, columns.as_slice())
}

/// An expression bound to columns, once for many rows, as a value that is stored in a column of the kind: on each row it has
/// the value that `eval_as` gives.
pub fn bind_stored(
    alloc: Global,
    expr: &Expr,
    columns: &ColumnList,
    kind: Kind,
) -> Result<Bound, NoMemory>
    ensures value { IfOk result (λ bound. IsBound bound (λ row. stored_of kind (root_of expr.now columns.now row))) }
    ensures kind { IfOk result (λ bound. (typed : Typed) → kind_is expr.now columns.now ≡ Ok typed → is_assignable typed kind ≡ true → IsSoundOn columns.now kind bound) }
{
    bind_store(alloc, kind, expr, columns.as_slice())
}

fn bind_store(alloc: Global, kind: Kind, expr: &Expr, columns: &[Column]) -> Result<Bound, NoMemory>
    ensures { IfOk result (λ bound. bound ≡ stored_bound kind (nominal expr.now columns.now) (written expr.now) (bound_of expr.now columns.now)) }
{
    let (typed, bound) = bind(alloc, expr, columns)?;
    match typed {
        Typed::Known(_) => Ok(Bound::Store(kind, Boxed::new(alloc, bound)?)),
        Typed::Untyped => read_untyped(alloc, kind, written(expr), bound),
    }
}

/// An expression's tree, with its kind. Each node with operands has a function of its own, which keeps what the stack holds of a
/// level small.
#[tactic(auto, using(crate::proofs::BindNodes::bind_nodes, crate::proofs::NominalNodes::nominal_nodes))]
#[cycle(binding)]
fn bind(alloc: Global, expr: &Expr, columns: &[Column]) -> Result<(Typed, Bound), NoMemory>
    ensures kind { IfOk result (λ it. it.0 ≡ nominal expr.now columns.now) }
    ensures tree { IfOk result (λ it. it.1 ≡ bound_of expr.now columns.now) }
{
    match expr {
        Expr::Literal(_, value) => bind_literal(alloc, value),
        Expr::Date(_, text) => bind_date(alloc, text),
        Expr::Column(_, name) => Ok(bind_column(columns, name)),
        Expr::Chain(first, links) => {
            let (left, first) = bind_boxed(alloc, first.get(), columns)?;
            bind_chain(alloc, links.as_slice(), columns, left, first)
        }
        Expr::Prefixed(operand, prefixes) => {
            bind_prefixed(alloc, operand.get(), prefixes.as_slice(), columns)
        }
        Expr::Casts(operand, casts) => bind_casts(alloc, operand.get(), casts.as_slice(), columns),
        Expr::IsNull(operand, tests) => {
            bind_is_null(alloc, operand.get(), tests.as_slice(), columns)
        }
        Expr::Between(_, negated, value, low, high) => {
            let kind = between_kind(value.get(), low.get(), high.get(), columns);
            let value = boxed_as(alloc, kind, value.get(), columns)?;
            let low = boxed_as(alloc, kind, low.get(), columns)?;
            let high = boxed_as(alloc, kind, high.get(), columns)?;
            Ok(between_bound(*negated, value, low, high))
        }
        Expr::In(_, negated, value, items) => {
            let first = nominal(value.get(), columns);
            let kind = met(nominal_items(Some(first), items.as_slice(), columns));
            let value = boxed_as(alloc, kind, value.get(), columns)?;
            bind_in(alloc, items.as_slice(), columns, kind, *negated, value)
        }
        Expr::Coalesce(_, items) => bind_coalesce(alloc, items.as_slice(), columns),
        Expr::Abs(_, operand) => bind_abs(alloc, operand.get(), columns),
        Expr::Length(_, operand) => bind_length(alloc, operand.get(), columns),
    }
}

#[cycle(binding)]
#[inline(never)]
fn bind_boxed(
    alloc: Global,
    expr: &Expr,
    columns: &[Column],
) -> Result<(Typed, Boxed<Bound>), NoMemory>
    ensures kind { IfOk result (λ it. it.0 ≡ nominal expr.now columns.now) }
    ensures tree { IfOk result (λ it. it.1 ≡ bound_of expr.now columns.now) }
{
    let (typed, bound) = bind(alloc, expr, columns)?;
    Ok((typed, Boxed::new(alloc, bound)?))
}

/// Operators in a row, whose first side is bound.
#[cycle(binding)]
#[inline(never)]
fn bind_chain(
    alloc: Global,
    links: &[(u32, Operator, Expr)],
    columns: &[Column],
    left: Typed,
    first: Boxed<Bound>,
) -> Result<(Typed, Bound), NoMemory>
    ensures kind { IfOk result (λ it. it.0 ≡ chain_gives left (links_nominal columns.now links.now)) }
    ensures tree { IfOk result (λ it. it.1 ≡ Bound.Chain first (links_joints columns.now left links.now)) }
{
    let (typed, joints) = bind_joints(alloc, left, links, columns)?;
    Ok((typed, Bound::Chain(first, joints)))
}

/// NOTs and signs in a row.
#[cycle(binding)]
#[inline(never)]
fn bind_prefixed(
    alloc: Global,
    operand: &Expr,
    prefixes: &[(u32, Prefix)],
    columns: &[Column],
) -> Result<(Typed, Bound), NoMemory>
    ensures kind { IfOk result (λ it. it.0 ≡ prefixed_gives (nominal operand.now columns.now) prefixes.now) }
    ensures tree { IfOk result (λ it. it.1 ≡ Bound.Prefixed (nominal operand.now columns.now) (bound_of operand.now columns.now) prefixes.now) }
{
    let (typed, operand) = bind_boxed(alloc, operand, columns)?;
    let row = Items::from_slice(alloc, prefixes)?;
    Ok((
        prefixed_gives(typed, prefixes),
        Bound::Prefixed(typed, operand, row),
    ))
}

/// Casts in a row.
#[cycle(binding)]
#[inline(never)]
fn bind_casts(
    alloc: Global,
    operand: &Expr,
    casts: &[(u32, Kind)],
    columns: &[Column],
) -> Result<(Typed, Bound), NoMemory>
    ensures kind { IfOk result (λ it. it.0 ≡ casts_gives (nominal operand.now columns.now) casts.now) }
    ensures tree { IfOk result (λ it. it.1 ≡ Bound.Casts (bound_of operand.now columns.now) casts.now) }
{
    let (typed, operand) = bind_boxed(alloc, operand, columns)?;
    let row = Items::from_slice(alloc, casts)?;
    Ok((casts_gives(typed, casts), Bound::Casts(operand, row)))
}

/// IS NULL and IS NOT NULL in a row.
#[cycle(binding)]
#[inline(never)]
fn bind_is_null(
    alloc: Global,
    operand: &Expr,
    tests: &[(u32, bool)],
    columns: &[Column],
) -> Result<(Typed, Bound), NoMemory>
    ensures kind { IfOk result (λ it. it.0 ≡ tests_kind (nominal operand.now columns.now) tests.now) }
    ensures tree { IfOk result (λ it. it.1 ≡ Bound.IsNull (bound_as Kind.Text operand.now columns.now) tests.now) }
{
    let typed = nominal(operand, columns);
    let operand = boxed_as(alloc, Kind::Text, operand, columns)?;
    let row = Items::from_slice(alloc, tests)?;
    Ok((typed_tests(typed, tests), Bound::IsNull(operand, row)))
}

/// BETWEEN, whose operands are bound.
#[inline(never)]
fn between_bound(
    negated: bool,
    value: Boxed<Bound>,
    low: Boxed<Bound>,
    high: Boxed<Bound>,
) -> (Typed, Bound)
    ensures kind { result.0 ≡ Typed.Known Kind.Boolean }
    ensures tree { result.1 ≡ Bound.Between negated value low high }
{
    (
        Typed::Known(Kind::Boolean),
        Bound::Between(negated, value, low, high),
    )
}

/// IN, whose value is bound.
#[cycle(binding)]
#[inline(never)]
fn bind_in(
    alloc: Global,
    items: &[Expr],
    columns: &[Column],
    kind: Kind,
    negated: bool,
    value: Boxed<Bound>,
) -> Result<(Typed, Bound), NoMemory>
    ensures kind { IfOk result (λ it. it.0 ≡ Typed.Known Kind.Boolean) }
    ensures tree { IfOk result (λ it. it.1 ≡ Bound.In negated value (items_as kind columns.now items.now)) }
{
    let items = bind_items(alloc, kind, items, columns)?;
    Ok((
        Typed::Known(Kind::Boolean),
        Bound::In(negated, value, items),
    ))
}

/// COALESCE.
#[cycle(binding)]
#[inline(never)]
fn bind_coalesce(
    alloc: Global,
    items: &[Expr],
    columns: &[Column],
) -> Result<(Typed, Bound), NoMemory>
    ensures kind { IfOk result (λ it. it.0 ≡ Typed.Known (met (shared_by (Some Typed.Untyped) (items_nominal columns.now items.now)))) }
    ensures tree { IfOk result (λ it. it.1 ≡ Bound.Coalesce (items_as (met (shared_by (Some Typed.Untyped) (items_nominal columns.now items.now))) columns.now items.now)) }
{
    let kind = met(nominal_items(Some(Typed::Untyped), items, columns));
    let items = bind_items(alloc, kind, items, columns)?;
    Ok((Typed::Known(kind), Bound::Coalesce(items)))
}

/// abs.
#[cycle(binding)]
#[inline(never)]
fn bind_abs(alloc: Global, operand: &Expr, columns: &[Column]) -> Result<(Typed, Bound), NoMemory>
    ensures kind { IfOk result (λ it. it.0 ≡ nominal operand.now columns.now) }
    ensures tree { IfOk result (λ it. it.1 ≡ Bound.Abs (settled (nominal operand.now columns.now)) (bound_of operand.now columns.now)) }
{
    let (typed, operand) = bind_boxed(alloc, operand, columns)?;
    Ok((typed, Bound::Abs(settled(typed), operand)))
}

/// length.
#[cycle(binding)]
#[inline(never)]
fn bind_length(
    alloc: Global,
    operand: &Expr,
    columns: &[Column],
) -> Result<(Typed, Bound), NoMemory>
    ensures kind { IfOk result (λ it. it.0 ≡ Typed.Known Kind.Integer) }
    ensures tree { IfOk result (λ it. it.1 ≡ Bound.Length (bound_as Kind.Text operand.now columns.now)) }
{
    let operand = boxed_as(alloc, Kind::Text, operand, columns)?;
    Ok((Typed::Known(Kind::Integer), Bound::Length(operand)))
}

/// An operand's tree, read as the kind.
#[cycle(binding)]
fn bind_as(alloc: Global, kind: Kind, expr: &Expr, columns: &[Column]) -> Result<Bound, NoMemory>
    ensures { IfOk result (λ bound. bound ≡ bound_as kind expr.now columns.now) }
{
    let (typed, bound) = bind(alloc, expr, columns)?;
    read_bound(alloc, kind, typed, written(expr), bound)
}

#[cycle(binding)]
#[inline(never)]
fn boxed_as(
    alloc: Global,
    kind: Kind,
    expr: &Expr,
    columns: &[Column],
) -> Result<Boxed<Bound>, NoMemory>
    ensures { IfOk result (λ bound. bound ≡ bound_as kind expr.now columns.now) }
{
    let bound = bind_as(alloc, kind, expr, columns)?;
    Ok(Boxed::new(alloc, bound)?)
}

/// Operators in a row.
#[tactic(auto, unfolding(crate::specs::Binding::links_joints, crate::specs::Nominal::links_nominal))]
#[cycle(binding)]
fn bind_joints(
    alloc: Global,
    first: Typed,
    links: &[(u32, Operator, Expr)],
    columns: &[Column],
) -> Result<(Typed, Items<(Joint, Bound)>), NoMemory>
    ensures kind { IfOk result (λ it. it.0 ≡ chain_gives first (links_nominal columns.now links.now)) }
    ensures tree { IfOk result (λ it. it.1 ≡ links_joints columns.now first links.now) }
{
    let mut left = first;
    let mut joints = Items::new(alloc);
    for link in links {
        let (right, bound) = bind(alloc, &link.2, columns)?;
        let joint = joint_of(link.1, left, right);
        let bound = read_bound(alloc, joint.operands, right, written(&link.2), bound)?;
        joints.push((joint, bound))?;
        left = operator_gives(link.1, left, right);
    }
    Ok((left, joints))
}

/// Operands in a list, read as the kind.
#[tactic(auto, unfolding(crate::specs::Binding::items_as))]
#[cycle(binding)]
fn bind_items(
    alloc: Global,
    kind: Kind,
    items: &[Expr],
    columns: &[Column],
) -> Result<Items<Bound>, NoMemory>
    ensures { IfOk result (λ bounds. bounds ≡ items_as kind columns.now items.now) }
{
    let mut bounds = Items::new(alloc);
    for item in items {
        bounds.push(bind_as(alloc, kind, item, columns)?)?;
    }
    Ok(bounds)
}

/// An operator with what the kinds of its sides say.
fn joint_of(operator: Operator, left: Typed, right: Typed) -> Joint
    ensures { result ≡ joint_of operator left right }
{
    Joint {
        operator,
        left,
        operands: operand_kind(operator, left, right),
        gives: settled(operator_gives(operator, left, right)),
    }
}

/// A tree that is read as the kind, where it has none of its own.
fn read_bound(
    alloc: Global,
    kind: Kind,
    typed: Typed,
    literal: Option<&Value>,
    bound: Bound,
) -> Result<Bound, NoMemory>
    ensures { IfOk result (λ read. read ≡ read_bound kind typed (option_copied literal.entry) bound) }
{
    match typed {
        Typed::Known(_) => Ok(bound),
        Typed::Untyped => read_untyped(alloc, kind, literal, bound),
    }
}

/// A tree that has no kind of its own, read as the kind: a literal at once.
fn read_untyped(
    alloc: Global,
    kind: Kind,
    literal: Option<&Value>,
    bound: Bound,
) -> Result<Bound, NoMemory>
    ensures { IfOk result (λ read. read ≡ read_untyped kind (option_copied literal.entry) bound) }
{
    match literal {
        Some(value) => read_literal(alloc, kind, value),
        None => Ok(Bound::Read(kind, Boxed::new(alloc, bound)?)),
    }
}

/// A literal that has no kind of its own, read as the kind.
fn read_literal(alloc: Global, kind: Kind, value: &Value) -> Result<Bound, NoMemory>
    ensures { IfOk result (λ bound. bound ≡ bound_outcome (literal_read kind value.now)) }
{
    match literal_value(value) {
        Ok(literal) => read_held(alloc, kind, literal),
        Err(fault) => Ok(Bound::Faulty(fault)),
    }
}

fn read_held(alloc: Global, kind: Kind, literal: Held<'_>) -> Result<Bound, NoMemory>
    ensures { IfOk result (λ bound. bound ≡ bound_outcome (read_in kind Typed.Untyped literal.entry)) }
{
    match read_in(alloc, kind, Typed::Untyped, literal) {
        Ok(read) => Ok(Bound::Fixed(read.into_value(alloc)?)),
        Err(Cant::Why(fault)) => Ok(Bound::Faulty(fault)),
        Err(Cant::NoMemory) => Err(NoMemory),
    }
}

/// A literal.
#[inline(never)]
fn bind_literal(alloc: Global, value: &Value) -> Result<(Typed, Bound), NoMemory>
    ensures kind { IfOk result (λ it. it.0 ≡ literal_kind value.now) }
    ensures tree { IfOk result (λ it. it.1 ≡ bound_outcome (literal_value value.now)) }
{
    let kind = literal_kind(value);
    match literal_value(value) {
        Ok(literal) => Ok((kind, Bound::Fixed(literal.into_value(alloc)?))),
        Err(fault) => Ok((kind, Bound::Faulty(fault))),
    }
}

/// DATE and a string.
#[inline(never)]
fn bind_date(alloc: Global, text: &Txt) -> Result<(Typed, Bound), NoMemory>
    ensures kind { IfOk result (λ it. it.0 ≡ Typed.Known Kind.Date) }
    ensures tree { IfOk result (λ it. it.1 ≡ bound_outcome (converted (read_as text.now Kind.Date))) }
{
    let kind = Typed::Known(Kind::Date);
    match read_text(alloc, text, Kind::Date) {
        Ok(day) => Ok((kind, Bound::Fixed(day))),
        Err(Cant::Why(fault)) => Ok((kind, Bound::Faulty(fault))),
        Err(Cant::NoMemory) => Err(NoMemory),
    }
}

/// A column's name.
#[inline(never)]
fn bind_column(columns: &[Column], name: &Name) -> (Typed, Bound)
    ensures kind { result.0 ≡ as_typed (column_kind columns.now name.now) }
    ensures tree { result.1 ≡ bound_place (place_from 0 columns.now name.now) }
{
    (
        as_typed(column_kind(columns, name)),
        bind_place(place_in(columns, name)),
    )
}

/// The place of the first column of the name.
fn place_in(columns: &[Column], name: &Name) -> Option<usize>
    ensures { result ≡ place_from 0 columns.now name.now }
{
    for (place, column) in columns.iter().enumerate() {
        if column.name == *name {
            return Some(place);
        }
    }
    None
}

/// A name that stands for a column, or for none.
fn bind_place(found: Option<usize>) -> Bound
    ensures { result ≡ bound_place found }
{
    match found {
        Some(place) => Bound::Place(place),
        None => Bound::Fixed(Value::Null),
    }
}

/// The value of a literal, where the expression is one.
#[tactic(auto, using(crate::proofs::WrittenNodes::written_nodes))]
fn written(expr: &Expr) -> Option<&Value>
    ensures { option_copied result ≡ written expr.now }
{
    match expr {
        Expr::Literal(_, value) => Some(value),
        Expr::Date(_, _)
        | Expr::Column(_, _)
        | Expr::Chain(_, _)
        | Expr::Prefixed(_, _)
        | Expr::Casts(_, _)
        | Expr::IsNull(_, _)
        | Expr::Between(_, _, _, _, _)
        | Expr::In(_, _, _, _)
        | Expr::Coalesce(_, _)
        | Expr::Abs(_, _)
        | Expr::Length(_, _) => None,
    }
}
