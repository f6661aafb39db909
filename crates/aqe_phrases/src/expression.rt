//! Expressions, one function for each level of the grammar.

ghost use Rattle.std.specs.Prelude.{[], ◌∷◌, List, Option, OnOk};
ghost use Rattle.aqe_trees.specs.declared.expression.OrTree.{OrTree};
ghost use Rattle.aqe_trees.specs.declared.expression.Arm.{Arm};
ghost use Rattle.aqe_trees.specs.declared.expression.PrimaryTree.TheVariants as primary;
ghost use Rattle.aqe_trees.specs.Expressions.{IsOr, IsAnd, IsNot, IsPredicate, IsTest, IsList, IsComparison, IsSum, IsProduct, IsSign, IsPrimary, IsArms};
ghost use Rattle.aqe_phrases.specs.Written.{Spelled, Going, IsCaseOf};

use crate::leaf::{
    boolean, column, count_all, is_truth, negation, nots, null, signed_number, signs, string,
    table_column, type_word,
};
use crate::operator::{compare_key, product_key, sign_key};
use crate::word::{fixed, name};
use aqe_script::parts::{
    and_parts, arm_parts, comparison_parts, not_parts, or_parts, predicate_parts, product_parts,
    sign_parts, sum_parts,
};
use aqe_trees::{
    AndTree, Arm, ComparisonTree, Key, NotTree, OrTree, PredicateTree, PrimaryTree, ProductTree,
    SignTree, SumTree, Test,
};
use aqe_values::{SqlType, Text};
use sqlite_items::Boxed;
use std::alloc::AllocError;

/// Writes the operands of OR.
#[cycle(expression)]
pub fn or(out: &mut Vec<u8>, tree: &OrTree) -> Result<(), AllocError>
    ensures { OnOk result (Spelled IsOr tree.now out.old.items out.new.items) }
{
    let (first, rest) = or_parts(tree);
    and(out, first)?;
    'more: for next in rest {
        fixed(out, Key::Or)?;
        and(out, next)?;
    }
    Ok(())
}

/// Writes the operands of AND.
#[cycle(expression)]
fn and(out: &mut Vec<u8>, tree: &AndTree) -> Result<(), AllocError>
    ensures { OnOk result (Spelled IsAnd tree.now out.old.items out.new.items) }
{
    let (first, rest) = and_parts(tree);
    negated(out, first)?;
    'more: for next in rest {
        fixed(out, Key::And)?;
        negated(out, next)?;
    }
    Ok(())
}

/// Writes a predicate under its NOTs.
#[cycle(expression)]
fn negated(out: &mut Vec<u8>, tree: &NotTree) -> Result<(), AllocError>
    ensures { OnOk result (Spelled IsNot tree.now out.old.items out.new.items) }
{
    let (count, operand) = not_parts(tree);
    nots(out, count)?;
    predicate(out, operand)?;
    Ok(())
}

/// Writes a value and what is asked of it.
#[cycle(expression)]
fn predicate(out: &mut Vec<u8>, tree: &PredicateTree) -> Result<(), AllocError>
    ensures { OnOk result (Spelled IsPredicate tree.now out.old.items out.new.items) }
{
    let (value, test) = predicate_parts(tree);
    comparison(out, value)?;
    asked(out, test)?;
    Ok(())
}

/// Writes what is asked of a value.
#[cycle(expression)]
fn asked(out: &mut Vec<u8>, test: &Test) -> Result<(), AllocError>
    ensures { OnOk result (Spelled IsTest test.now out.old.items out.new.items) }
{
    match test {
        Test::Plain => Ok(()),
        Test::Between { negated, low, high } => {
            negation(out, *negated)?;
            fixed(out, Key::Between)?;
            comparison(out, low)?;
            fixed(out, Key::And)?;
            comparison(out, high)?;
            Ok(())
        }
        Test::OneOf {
            negated,
            list: items,
        } => {
            negation(out, *negated)?;
            fixed(out, Key::In)?;
            fixed(out, Key::Open)?;
            list(out, items.as_slice())?;
            fixed(out, Key::Close)?;
            Ok(())
        }
        Test::Like { negated, pattern } => {
            negation(out, *negated)?;
            fixed(out, Key::Like)?;
            comparison(out, pattern)?;
            Ok(())
        }
        Test::Is { negated, truth } => is_truth(out, *negated, *truth),
    }
}

/// Writes expressions with commas between them.
#[cycle(expression)]
fn list(out: &mut Vec<u8>, items: &[OrTree]) -> Result<(), AllocError>
    ensures { OnOk result (Spelled IsList items.now out.old.items out.new.items) }
{
    let Some((first, rest)) = items.split_first() else {
        return Ok(());
    };
    or(out, first)?;
    'more: for next in rest {
        fixed(out, Key::Comma)?;
        or(out, next)?;
    }
    Ok(())
}

/// Writes sums with comparisons between them.
#[cycle(expression)]
fn comparison(out: &mut Vec<u8>, tree: &ComparisonTree) -> Result<(), AllocError>
    ensures { OnOk result (Spelled IsComparison tree.now out.old.items out.new.items) }
{
    let (first, rest) = comparison_parts(tree);
    sum(out, first)?;
    'more: for next in rest {
        fixed(out, compare_key(next.0))?;
        sum(out, &next.1)?;
    }
    Ok(())
}

/// Writes products with signs between them.
#[cycle(expression)]
fn sum(out: &mut Vec<u8>, tree: &SumTree) -> Result<(), AllocError>
    ensures { OnOk result (Spelled IsSum tree.now out.old.items out.new.items) }
{
    let (first, rest) = sum_parts(tree);
    product(out, first)?;
    'more: for next in rest {
        fixed(out, sign_key(next.0))?;
        product(out, &next.1)?;
    }
    Ok(())
}

/// Writes signed operands with operators between them.
#[cycle(expression)]
fn product(out: &mut Vec<u8>, tree: &ProductTree) -> Result<(), AllocError>
    ensures { OnOk result (Spelled IsProduct tree.now out.old.items out.new.items) }
{
    let (first, rest) = product_parts(tree);
    signed(out, first)?;
    'more: for next in rest {
        fixed(out, product_key(next.0))?;
        signed(out, &next.1)?;
    }
    Ok(())
}

/// Writes an operand under its signs.
#[cycle(expression)]
fn signed(out: &mut Vec<u8>, tree: &SignTree) -> Result<(), AllocError>
    ensures { OnOk result (Spelled IsSign tree.now out.old.items out.new.items) }
{
    let (marks, operand) = sign_parts(tree);
    signs(out, marks)?;
    primary(out, operand)?;
    Ok(())
}

/// Writes an operand.
#[cycle(expression)]
fn primary(out: &mut Vec<u8>, tree: &PrimaryTree) -> Result<(), AllocError>
    ensures { OnOk result (Spelled IsPrimary tree.now out.old.items out.new.items) }
{
    match tree {
        PrimaryTree::Number {
            negative,
            value,
            long,
        } => signed_number(out, *negative, *value, *long),
        PrimaryTree::Literal(text) => string(out, text),
        PrimaryTree::Boolean(truth) => boolean(out, *truth),
        PrimaryTree::Null => null(out),
        PrimaryTree::Column(name) => column(out, name),
        PrimaryTree::TableColumn { table, name } => table_column(out, table, name),
        PrimaryTree::Paren(value) => {
            paren(out, value.get())?;
            Ok(())
        }
        PrimaryTree::Cast { value, kind } => {
            cast(out, value.get(), *kind)?;
            Ok(())
        }
        PrimaryTree::Case {
            operand,
            arms: pairs,
            otherwise,
        } => {
            case_of(out, operand)?;
            arms(out, pairs.as_slice())?;
            case_end(out, otherwise)?;
            Ok(())
        }
        PrimaryTree::CountAll => count_all(out),
        PrimaryTree::Call {
            name: called,
            arguments,
        } => {
            call(out, called, arguments.as_slice())?;
            Ok(())
        }
    }
}

/// Writes an expression between parentheses.
#[cycle(expression)]
fn paren(out: &mut Vec<u8>, inner: &OrTree) -> Result<(), AllocError>
    ensures { OnOk result (Spelled IsPrimary (primary.Paren inner.now) out.old.items out.new.items) }
{
    fixed(out, Key::Open)?;
    or(out, inner)?;
    fixed(out, Key::Close)?;
    Ok(())
}

/// Writes a CAST.
#[cycle(expression)]
fn cast(out: &mut Vec<u8>, value: &OrTree, kind: SqlType) -> Result<(), AllocError>
    ensures { OnOk result (Spelled IsPrimary (primary.Cast value.now kind) out.old.items out.new.items) }
{
    fixed(out, Key::Cast)?;
    fixed(out, Key::Open)?;
    or(out, value)?;
    fixed(out, Key::As)?;
    type_word(out, kind)?;
    fixed(out, Key::Close)?;
    Ok(())
}

/// Writes a call.
#[cycle(expression)]
fn call(out: &mut Vec<u8>, called: &Text, arguments: &[OrTree]) -> Result<(), AllocError>
    ensures { OnOk result (Spelled IsPrimary (primary.Call called.now arguments.now) out.old.items out.new.items) }
{
    name(out, called)?;
    fixed(out, Key::Open)?;
    list(out, arguments)?;
    fixed(out, Key::Close)?;
    Ok(())
}

/// Writes CASE and its operand.
#[cycle(expression)]
fn case_of(out: &mut Vec<u8>, operand: &Option<Boxed<OrTree>>) -> Result<(), AllocError>
    ensures { OnOk result (Spelled IsCaseOf operand.now out.old.items out.new.items) }
{
    fixed(out, Key::Case)?;
    match operand {
        Some(value) => {
            or(out, value.get())?;
            Ok(())
        }
        None => Ok(()),
    }
}

/// Writes pairs of WHEN and THEN.
#[cycle(expression)]
fn arms(out: &mut Vec<u8>, arms: &[Arm]) -> Result<(), AllocError>
    ensures { OnOk result ((otherwise : Option OrTree)
        → Going (λ arms. IsArms arms otherwise) arms.now [] out.old.items out.new.items) }
{
    'arms: for next in arms {
        arm(out, next)?;
    }
    Ok(())
}

/// Writes WHEN and THEN.
#[cycle(expression)]
fn arm(out: &mut Vec<u8>, pair: &Arm) -> Result<(), AllocError>
    ensures { OnOk result ((otherwise : Option OrTree) → (rest : List Arm)
        → Going (λ arms. IsArms arms otherwise) (pair.now ∷ rest) rest out.old.items out.new.items) }
{
    let (when, gives) = arm_parts(pair);
    fixed(out, Key::When)?;
    or(out, when)?;
    fixed(out, Key::Then)?;
    or(out, gives)?;
    Ok(())
}

/// Writes ELSE and what it gives, and END.
#[cycle(expression)]
fn case_end(out: &mut Vec<u8>, otherwise: &Option<Boxed<OrTree>>) -> Result<(), AllocError>
    ensures { OnOk result (Spelled (IsArms []) otherwise.now out.old.items out.new.items) }
{
    match otherwise {
        Some(value) => {
            fixed(out, Key::Else)?;
            or(out, value.get())?;
            fixed(out, Key::End)?;
            Ok(())
        }
        None => {
            fixed(out, Key::End)?;
            Ok(())
        }
    }
}
