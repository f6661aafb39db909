//! Expressions, level by level: each operand is read, and then what stands on it.

ghost use Rattle.std.specs.Prelude.{◌≡◌};
ghost use Rattle.aqe_rules.specs.Faults.{Says};
ghost use Rattle.aqe_typing.specs.Calls.{at_calls};
ghost use Rattle.aqe_typing.specs.Values.{value_of_or, value_of_and, value_of_not, value_of_predicate, value_of_comparison, value_of_sum, value_of_product, value_of_sign, value_of_primary, value_of_arm, values_of, values_of_arms, value_if_any, SaysAll, SaysTest};

use crate::calls::{Call, aggregate_named, called, calls_within, counted_rows};
use crate::cases::case;
use crate::literals::{boolean, null, number, text};
use crate::names::Names;
use crate::steps::{
    added, arm_of, asked, cast, compared, joined, matched, multiplied, negated_if, negated_times,
    one_of, there, under_signs, with_arm, with_one, within,
};
use aqe_expr::BinaryOp;
use aqe_rules::{AnalysisFault, Typed};
use aqe_script::parts::{
    and_parts, arm_parts, comparison_parts, not_parts, or_parts, predicate_parts, product_parts,
    sign_parts, sum_parts,
};
use aqe_trees::{
    AndTree, Arm, ComparisonTree, NotTree, OrTree, PredicateTree, PrimaryTree, ProductTree,
    SignTree, SumTree, Test,
};
use sqlite_items::Boxed;
use std::alloc::Global;

/// Operands of OR.
#[cycle(expression)]
pub(crate) fn or<N: Names>(
    alloc: Global,
    tree: &OrTree,
    names: &N,
    calls: &[Call],
) -> Result<Typed, AnalysisFault>
    ensures { Says result (value_of_or tree.now (at_calls (N.place names.now) calls.now)) }
{
    let (first, rest) = or_parts(tree);
    let mut value = and(alloc, first, names, calls);
    'more: for next in rest {
        value = joined(alloc, BinaryOp::Or, value, and(alloc, next, names, calls));
    }
    value
}

/// Operands of AND.
#[cycle(expression)]
fn and<N: Names>(
    alloc: Global,
    tree: &AndTree,
    names: &N,
    calls: &[Call],
) -> Result<Typed, AnalysisFault>
    ensures { Says result (value_of_and tree.now (at_calls (N.place names.now) calls.now)) }
{
    let (first, rest) = and_parts(tree);
    let mut value = negation(alloc, first, names, calls);
    'more: for next in rest {
        value = joined(
            alloc,
            BinaryOp::And,
            value,
            negation(alloc, next, names, calls),
        );
    }
    value
}

/// A predicate under its NOTs.
#[cycle(expression)]
fn negation<N: Names>(
    alloc: Global,
    tree: &NotTree,
    names: &N,
    calls: &[Call],
) -> Result<Typed, AnalysisFault>
    ensures { Says result (value_of_not tree.now (at_calls (N.place names.now) calls.now)) }
{
    let (count, operand) = not_parts(tree);
    negated_times(alloc, count, predicate(alloc, operand, names, calls))
}

/// A value and what is asked of it.
#[cycle(expression)]
fn predicate<N: Names>(
    alloc: Global,
    tree: &PredicateTree,
    names: &N,
    calls: &[Call],
) -> Result<Typed, AnalysisFault>
    ensures { Says result (value_of_predicate tree.now (at_calls (N.place names.now) calls.now)) }
{
    let (value, asked) = predicate_parts(tree);
    test(
        alloc,
        asked,
        comparison(alloc, value, names, calls),
        names,
        calls,
    )
}

/// A test of a value.
#[cycle(expression)]
fn test<N: Names>(
    alloc: Global,
    tree: &Test,
    value: Result<Typed, AnalysisFault>,
    names: &N,
    calls: &[Call],
) -> Result<Typed, AnalysisFault>
    ensures { SaysTest tree.now (at_calls (N.place names.now) calls.now) value result }
{
    match tree {
        Test::Plain => value,
        Test::Between { negated, low, high } => {
            let low = comparison(alloc, low, names, calls);
            let high = comparison(alloc, high, names, calls);
            negated_if(alloc, *negated, within(alloc, value, low, high))
        }
        Test::OneOf { negated, list } => {
            let all = several(alloc, list.as_slice(), names, calls);
            negated_if(alloc, *negated, one_of(alloc, value, all))
        }
        Test::Like { negated, pattern } => {
            let pattern = comparison(alloc, pattern, names, calls);
            negated_if(alloc, *negated, matched(alloc, value, pattern))
        }
        Test::Is { negated, truth } => negated_if(alloc, *negated, asked(alloc, *truth, value)),
    }
}

/// Expressions in order.
#[cycle(expression)]
fn several<N: Names>(
    alloc: Global,
    trees: &[OrTree],
    names: &N,
    calls: &[Call],
) -> Result<Vec<Typed>, AnalysisFault>
    ensures { SaysAll result (values_of trees.now (at_calls (N.place names.now) calls.now)) }
{
    let mut all = Ok(Vec::new(alloc));
    'trees: for next in trees {
        all = with_one(all, or(alloc, next, names, calls));
    }
    all
}

/// Sums that are compared.
#[cycle(expression)]
fn comparison<N: Names>(
    alloc: Global,
    tree: &ComparisonTree,
    names: &N,
    calls: &[Call],
) -> Result<Typed, AnalysisFault>
    ensures { Says result (value_of_comparison tree.now (at_calls (N.place names.now) calls.now)) }
{
    let (first, rest) = comparison_parts(tree);
    let mut value = sum(alloc, first, names, calls);
    'more: for next in rest {
        value = compared(alloc, next.0, value, sum(alloc, &next.1, names, calls));
    }
    value
}

/// Products that are added.
#[cycle(expression)]
fn sum<N: Names>(
    alloc: Global,
    tree: &SumTree,
    names: &N,
    calls: &[Call],
) -> Result<Typed, AnalysisFault>
    ensures { Says result (value_of_sum tree.now (at_calls (N.place names.now) calls.now)) }
{
    let (first, rest) = sum_parts(tree);
    let mut value = product(alloc, first, names, calls);
    'more: for next in rest {
        value = added(alloc, next.0, value, product(alloc, &next.1, names, calls));
    }
    value
}

/// Signed operands that are multiplied.
#[cycle(expression)]
fn product<N: Names>(
    alloc: Global,
    tree: &ProductTree,
    names: &N,
    calls: &[Call],
) -> Result<Typed, AnalysisFault>
    ensures { Says result (value_of_product tree.now (at_calls (N.place names.now) calls.now)) }
{
    let (first, rest) = product_parts(tree);
    let mut value = sign(alloc, first, names, calls);
    'more: for next in rest {
        value = multiplied(alloc, next.0, value, sign(alloc, &next.1, names, calls));
    }
    value
}

/// An operand under its signs.
#[cycle(expression)]
fn sign<N: Names>(
    alloc: Global,
    tree: &SignTree,
    names: &N,
    calls: &[Call],
) -> Result<Typed, AnalysisFault>
    ensures { Says result (value_of_sign tree.now (at_calls (N.place names.now) calls.now)) }
{
    let (signs, operand) = sign_parts(tree);
    under_signs(alloc, signs, primary(alloc, operand, names, calls))
}

/// An operand without an operator outside of parentheses.
#[cycle(expression)]
fn primary<N: Names>(
    alloc: Global,
    tree: &PrimaryTree,
    names: &N,
    calls: &[Call],
) -> Result<Typed, AnalysisFault>
    ensures { Says result (value_of_primary tree.now (at_calls (N.place names.now) calls.now)) }
{
    match tree {
        PrimaryTree::Number {
            negative,
            value,
            long,
        } => Ok(number(*negative, *value, *long)),
        PrimaryTree::Literal(content) => text(alloc, content),
        PrimaryTree::Boolean(value) => Ok(boolean(*value)),
        PrimaryTree::Null => Ok(null()),
        PrimaryTree::Column(name) => names.column(alloc, name, calls),
        PrimaryTree::TableColumn { table, name } => names.column_of(alloc, table, name),
        PrimaryTree::Paren(value) => or(alloc, value.get(), names, calls),
        PrimaryTree::Cast { value, kind } => cast(
            alloc,
            *kind,
            or(alloc, value.get(), names, calls),
        ),
        PrimaryTree::Case {
            operand,
            arms,
            otherwise,
        } => {
            let operand = maybe(alloc, operand, names, calls);
            let arms = arms_of(alloc, arms.as_slice(), names, calls);
            case(alloc, operand, arms, maybe(alloc, otherwise, names, calls))
        }
        PrimaryTree::CountAll => counted_rows(alloc, names.width(), calls),
        PrimaryTree::Call { name, arguments } => {
            let fun = aggregate_named(name);
            let inner = calls_within(fun, calls);
            let arguments = several(alloc, arguments.as_slice(), names, inner);
            called(alloc, name, fun, arguments, names.width(), calls)
        }
    }
}

/// An expression that may be left out.
#[cycle(expression)]
fn maybe<N: Names>(
    alloc: Global,
    tree: &Option<Boxed<OrTree>>,
    names: &N,
    calls: &[Call],
) -> Result<Option<Typed>, AnalysisFault>
    ensures { Says result (value_if_any tree.now (at_calls (N.place names.now) calls.now)) }
{
    match tree {
        Some(tree) => there(or(alloc, tree.get(), names, calls)),
        None => Ok(None),
    }
}

/// The arms of a CASE.
#[cycle(expression)]
fn arms_of<N: Names>(
    alloc: Global,
    trees: &[Arm],
    names: &N,
    calls: &[Call],
) -> Result<Vec<(Typed, Typed)>, AnalysisFault>
    ensures { SaysAll result (values_of_arms trees.now (at_calls (N.place names.now) calls.now)) }
{
    let mut all = Ok(Vec::new(alloc));
    'trees: for next in trees {
        all = with_arm(all, arm(alloc, next, names, calls));
    }
    all
}

/// An arm of a CASE.
#[cycle(expression)]
fn arm<N: Names>(
    alloc: Global,
    tree: &Arm,
    names: &N,
    calls: &[Call],
) -> Result<(Typed, Typed), AnalysisFault>
    ensures { Says result (value_of_arm tree.now (at_calls (N.place names.now) calls.now)) }
{
    let (when, gives) = arm_parts(tree);
    let when = or(alloc, when, names, calls);
    arm_of(when, or(alloc, gives, names, calls))
}
