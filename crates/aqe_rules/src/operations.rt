//! The operations on expressions with their types: what each asks of its operands, and what it
//! gives.

ghost use Rattle.std.specs.Prelude.{◌≡◌, ◌≤◌, ◌∷◌, [], IfOk, length};
ghost use Rattle.aqe_values.specs.Bounds.{text_limit};
ghost use Rattle.aqe_rules.specs.Operations as spec;
ghost use Rattle.aqe_rules.specs.Outcomes as outcomes;
ghost use Rattle.aqe_rules.specs.Faults.{Tells, Says};

use crate::AnalysisFault;
use crate::typed::{
    Typed, common, common_of_all, common_with, is_number, is_same_kind, is_text, is_truth, wider,
};
use aqe_base::AnalysisKind;
use aqe_boxes::{all_three, both};
use aqe_expr::{BinaryOp, Expr, Operands, UnaryOp};
use aqe_trees::{CompareOp, ProductOp, Sign, Truth};
use aqe_values::{Memory, SqlType, Text, Value};
use std::alloc::Global;

/// The refusal of a kind that is about a name, which is copied; `Memory` where it finds no room.
pub fn refused(alloc: Global, kind: AnalysisKind, name: &str) -> AnalysisFault
    requires { length name.now ≤ text_limit }
    ensures { Tells result (outcomes.refused kind name.now) }
{
    match Text::copy_of(alloc, name) {
        Ok(name) => AnalysisFault::Refused { kind, name },
        Err(_) => AnalysisFault::Memory,
    }
}

/// The refusal of operands whose types do not fit; it is about no name.
pub fn mismatch(alloc: Global) -> AnalysisFault
    ensures { Tells result spec.mismatch }
{
    refused(alloc, AnalysisKind::TypeMismatch, "")
}

/// The value as one of another type.
#[tactic(auto, using(crate::proofs::Steps::steps))]
fn cast_to(alloc: Global, kind: SqlType, expr: Expr) -> Result<Expr, Memory>
    ensures { IfOk result (λ e. e ≡ spec.cast_to kind expr) }
{
    match kind {
        SqlType::NullType => Ok(Expr::Literal(Value::Null)),
        SqlType::Boolean => Expr::unary(alloc, UnaryOp::CastBoolean, expr),
        SqlType::Int => Expr::unary(alloc, UnaryOp::CastInt, expr),
        SqlType::BigInt => Expr::unary(alloc, UnaryOp::CastBigInt, expr),
        SqlType::Text => Expr::unary(alloc, UnaryOp::CastText, expr),
    }
}

/// The value as one of the type, cast where it is of another.
pub(crate) fn converted(alloc: Global, kind: SqlType, a: Typed) -> Result<Expr, Memory>
    ensures { IfOk result (λ e. e ≡ spec.converted kind a) }
{
    if is_same_kind(a.kind, kind) {
        return Ok(a.expr);
    }
    cast_to(alloc, kind, a.expr)
}

/// `CAST (a AS kind)`, from each type to each.
pub fn cast(alloc: Global, kind: SqlType, a: Typed) -> Result<Typed, Memory>
    ensures { IfOk result (λ t. t ≡ spec.cast kind a) }
{
    let expr = cast_to(alloc, kind, a.expr)?;
    Ok(Typed { expr, kind })
}

/// `+ a` and `- a`
#[tactic(auto, using(crate::proofs::Steps::steps))]
pub fn signed_operation(alloc: Global, op: Sign, a: Typed) -> Result<Typed, AnalysisFault>
    ensures { Says result (spec.signed_operation op a) }
{
    if !is_number(a.kind) {
        return Err(mismatch(alloc));
    }
    let kind = wider(a.kind, a.kind);
    match op {
        Sign::Plus => Ok(Typed { expr: a.expr, kind }),
        Sign::Minus => {
            let expr = Expr::unary(alloc, UnaryOp::Neg, a.expr)?;
            Ok(Typed { expr, kind })
        }
    }
}

/// An operation on two numbers that gives this type.
#[tactic(auto, using(crate::proofs::Steps::steps))]
fn arithmetic(
    alloc: Global,
    op: BinaryOp,
    kind: SqlType,
    a: Typed,
    b: Typed,
) -> Result<Typed, AnalysisFault>
    ensures { Says result (spec.arithmetic op kind a b) }
{
    if is_number(a.kind) && is_number(b.kind) {
        let expr = Expr::binary(alloc, op, a.expr, b.expr)?;
        Ok(Typed { expr, kind })
    } else {
        Err(mismatch(alloc))
    }
}

/// `a * b`, `a % b` and `a DIV b`. What a divisor of 0 gives is left to the evaluation.
pub fn product_operation(
    alloc: Global,
    op: ProductOp,
    a: Typed,
    b: Typed,
) -> Result<Typed, AnalysisFault>
    ensures { Says result (spec.product_operation op a b) }
{
    let kind = wider(a.kind, b.kind);
    match op {
        ProductOp::Times => arithmetic(alloc, BinaryOp::Mul, kind, a, b),
        ProductOp::Remainder => arithmetic(alloc, BinaryOp::Rem, kind, a, b),
        ProductOp::Divide => arithmetic(alloc, BinaryOp::Div, SqlType::BigInt, a, b),
    }
}

/// `a + b` and `a - b`
pub fn sum_operation(alloc: Global, op: Sign, a: Typed, b: Typed) -> Result<Typed, AnalysisFault>
    ensures { Says result (spec.sum_operation op a b) }
{
    let kind = wider(a.kind, b.kind);
    match op {
        Sign::Plus => arithmetic(alloc, BinaryOp::Add, kind, a, b),
        Sign::Minus => arithmetic(alloc, BinaryOp::Sub, kind, a, b),
    }
}

/// The operation that compares.
fn comparing(op: CompareOp) -> BinaryOp
    ensures { result ≡ spec.comparing op }
{
    match op {
        CompareOp::Equal => BinaryOp::Eq,
        CompareOp::Same => BinaryOp::Same,
        CompareOp::NotEqual => BinaryOp::Ne,
        CompareOp::Less => BinaryOp::Lt,
        CompareOp::AtMost => BinaryOp::Le,
        CompareOp::Greater => BinaryOp::Gt,
        CompareOp::AtLeast => BinaryOp::Ge,
    }
}

/// `a = b` and the other comparisons of two operands.
#[tactic(auto, using(crate::proofs::Comparing::with_common))]
pub fn comparison(alloc: Global, op: CompareOp, a: Typed, b: Typed) -> Result<Typed, AnalysisFault>
    ensures { Says result (spec.comparison op a b) }
{
    match common(a.kind, b.kind) {
        Some(kind) => {
            let (left, right) = both(converted(alloc, kind, a), converted(alloc, kind, b))?;
            let expr = Expr::binary(alloc, comparing(op), left, right)?;
            Ok(Typed {
                expr,
                kind: SqlType::Boolean,
            })
        }
        None => Err(mismatch(alloc)),
    }
}

/// The common type of three.
fn common_of_three(a: &Typed, b: &Typed, c: &Typed) -> Option<SqlType>
    ensures { result ≡ spec.common_of_all (a.now ∷ b.now ∷ c.now ∷ []) }
{
    match common(a.kind, b.kind) {
        Some(kind) => common(kind, c.kind),
        None => None,
    }
}

/// `a BETWEEN low AND high`
#[tactic(auto, using(crate::proofs::Comparing::with_common))]
pub fn between(alloc: Global, a: Typed, low: Typed, high: Typed) -> Result<Typed, AnalysisFault>
    ensures { Says result (spec.between a low high) }
{
    match common_of_three(&a, &low, &high) {
        Some(kind) => {
            let (a, low, high) = all_three(
                converted(alloc, kind, a),
                converted(alloc, kind, low),
                converted(alloc, kind, high),
            )?;
            let expr = Expr::between(alloc, a, low, high)?;
            Ok(Typed {
                expr,
                kind: SqlType::Boolean,
            })
        }
        None => Err(mismatch(alloc)),
    }
}

/// The expression, converted, in front of the chain.
fn in_front(alloc: Global, kind: SqlType, a: Typed, chain: Operands) -> Result<Operands, Memory>
    ensures { IfOk result (λ l. l ≡ Operands.More (spec.converted kind a) chain) }
{
    let (item, chain) = both(converted(alloc, kind, a), Ok(chain))?;
    Operands::more(alloc, item, chain)
}

/// The chain of the expressions, each converted.
#[tactic(auto, using(crate::proofs::Comparing::behind_push, crate::proofs::Comparing::all_behind))]
fn operands(alloc: Global, kind: SqlType, all: Vec<Typed>) -> Result<Operands, Memory>
    ensures { IfOk result (λ l. l ≡ spec.operands kind all.items) }
{
    let mut all = all;
    let mut chain = Operands::End;
    'all: while let Some(a) = all.pop() {
        chain = in_front(alloc, kind, a, chain)?;
    }
    Ok(chain)
}

/// `coalesce(..)`. That it has an argument is left to the caller.
#[tactic(auto, using(crate::proofs::Comparing::with_common))]
pub fn coalesce(alloc: Global, all: Vec<Typed>) -> Result<Typed, AnalysisFault>
    ensures { Says result (spec.coalesce all.items) }
{
    match common_of_all(all.as_slice()) {
        Some(kind) => {
            let list = operands(alloc, kind, all)?;
            Ok(Typed {
                expr: Expr::Coalesce(list),
                kind,
            })
        }
        None => Err(mismatch(alloc)),
    }
}

/// The common type of a value and of a list.
fn common_with_list(a: &Typed, all: &[Typed]) -> Option<SqlType>
    ensures { result ≡ spec.common_of_all (a.now ∷ all.now) }
{
    let mut so_far = Some(a.kind);
    'all: for b in all {
        so_far = common_with(so_far, b.kind);
    }
    so_far
}

/// `a IN (..)`. That the list is not empty is left to the caller.
#[tactic(auto, using(crate::proofs::Comparing::with_common))]
pub fn in_list(alloc: Global, a: Typed, all: Vec<Typed>) -> Result<Typed, AnalysisFault>
    ensures { Says result (spec.in_list a all.items) }
{
    match common_with_list(&a, all.as_slice()) {
        Some(kind) => {
            let (value, list) = both(converted(alloc, kind, a), operands(alloc, kind, all))?;
            let expr = Expr::one_of(alloc, value, list)?;
            Ok(Typed {
                expr,
                kind: SqlType::Boolean,
            })
        }
        None => Err(mismatch(alloc)),
    }
}

/// `a LIKE pattern`. Each text is a pattern.
#[tactic(auto, using(crate::proofs::Steps::steps))]
pub fn like(alloc: Global, a: Typed, pattern: Typed) -> Result<Typed, AnalysisFault>
    ensures { Says result (spec.like a pattern) }
{
    if is_text(a.kind) && is_text(pattern.kind) {
        let expr = Expr::binary(alloc, BinaryOp::Like, a.expr, pattern.expr)?;
        Ok(Typed {
            expr,
            kind: SqlType::Boolean,
        })
    } else {
        Err(mismatch(alloc))
    }
}

/// An operation on a BOOLEAN that gives a BOOLEAN.
#[tactic(auto, using(crate::proofs::Steps::steps))]
fn on_truth(alloc: Global, op: UnaryOp, a: Typed) -> Result<Typed, AnalysisFault>
    ensures { Says result (spec.on_truth op a) }
{
    if !is_truth(a.kind) {
        return Err(mismatch(alloc));
    }
    let expr = Expr::unary(alloc, op, a.expr)?;
    Ok(Typed {
        expr,
        kind: SqlType::Boolean,
    })
}

/// `NOT a`
pub fn negation(alloc: Global, a: Typed) -> Result<Typed, AnalysisFault>
    ensures { Says result (spec.negation a) }
{
    on_truth(alloc, UnaryOp::Not, a)
}

/// `a AND b` and `a OR b`. That `op` is one of these two is left to the caller.
#[tactic(auto, using(crate::proofs::Steps::steps))]
pub fn logical(alloc: Global, op: BinaryOp, a: Typed, b: Typed) -> Result<Typed, AnalysisFault>
    ensures { Says result (spec.logical op a b) }
{
    if is_truth(a.kind) && is_truth(b.kind) {
        let expr = Expr::binary(alloc, op, a.expr, b.expr)?;
        Ok(Typed {
            expr,
            kind: SqlType::Boolean,
        })
    } else {
        Err(mismatch(alloc))
    }
}

/// `a IS NULL`, `a IS TRUE` and `a IS FALSE`
#[tactic(auto, using(crate::proofs::Steps::steps))]
pub fn is_operation(alloc: Global, truth: Truth, a: Typed) -> Result<Typed, AnalysisFault>
    ensures { Says result (spec.is_operation truth a) }
{
    match truth {
        Truth::Null => {
            let expr = Expr::unary(alloc, UnaryOp::IsNull, a.expr)?;
            Ok(Typed {
                expr,
                kind: SqlType::Boolean,
            })
        }
        Truth::True => on_truth(alloc, UnaryOp::IsTrue, a),
        Truth::False => on_truth(alloc, UnaryOp::IsFalse, a),
    }
}

/// `length(a)`
#[tactic(auto, using(crate::proofs::Steps::steps))]
pub fn length_of(alloc: Global, a: Typed) -> Result<Typed, AnalysisFault>
    ensures { Says result (spec.length_of a) }
{
    if !is_text(a.kind) {
        return Err(mismatch(alloc));
    }
    let expr = Expr::unary(alloc, UnaryOp::Length, a.expr)?;
    Ok(Typed {
        expr,
        kind: SqlType::Int,
    })
}
