//! Forms of an expression, over what their parts came to: the first part that has no value decides.

ghost use Rattle.std.specs.Prelude.{◌≡◌, Err, MatchResult};
ghost use Rattle.aqe_sources.specs.Given.{Gives};

use aqe_expr::{BinaryOp, CasePairs, Expr, Operands, UnaryOp};
use aqe_rules::AnalysisFault;
use aqe_values::Value;
use std::alloc::Global;

/// The literal of a copy of the value.
pub(crate) fn literal(alloc: Global, value: &Value) -> Result<Expr, AnalysisFault>
    ensures { Gives result (λ e. e ≡ Expr.Literal value.now) }
{
    let value = value.copy(alloc)?;
    Ok(Expr::Literal(value))
}

/// An operation on one value.
pub(crate) fn unary(
    alloc: Global,
    op: UnaryOp,
    arg: Result<Expr, AnalysisFault>,
) -> Result<Expr, AnalysisFault>
    ensures { MatchResult arg (λ a. Gives result (λ e. e ≡ Expr.Unary op a)) (λ f. result ≡ Err f) }
{
    let arg = arg?;
    let expr = Expr::unary(alloc, op, arg)?;
    Ok(expr)
}

/// An operation on two values.
pub(crate) fn binary(
    alloc: Global,
    op: BinaryOp,
    parts: Result<(Expr, Expr), AnalysisFault>,
) -> Result<Expr, AnalysisFault>
    ensures { MatchResult parts (λ p. Gives result (λ e. e ≡ Expr.Binary op p.0 p.1)) (λ f. result ≡ Err f) }
{
    let (left, right) = parts?;
    let expr = Expr::binary(alloc, op, left, right)?;
    Ok(expr)
}

/// `value BETWEEN low AND high`
pub(crate) fn between(
    alloc: Global,
    parts: Result<(Expr, (Expr, Expr)), AnalysisFault>,
) -> Result<Expr, AnalysisFault>
    ensures { MatchResult parts (λ p. Gives result (λ e. e ≡ Expr.Between p.0 p.1.0 p.1.1)) (λ f. result ≡ Err f) }
{
    let (value, (low, high)) = parts?;
    let expr = Expr::between(alloc, value, low, high)?;
    Ok(expr)
}

/// `value IN (list)`
pub(crate) fn one_of(
    alloc: Global,
    parts: Result<(Expr, Operands), AnalysisFault>,
) -> Result<Expr, AnalysisFault>
    ensures { MatchResult parts (λ p. Gives result (λ e. e ≡ Expr.OneOf p.0 p.1)) (λ f. result ≡ Err f) }
{
    let (value, list) = parts?;
    let expr = Expr::one_of(alloc, value, list)?;
    Ok(expr)
}

/// CASE without an operand.
pub(crate) fn case_of(
    alloc: Global,
    parts: Result<(CasePairs, Expr), AnalysisFault>,
) -> Result<Expr, AnalysisFault>
    ensures { MatchResult parts (λ p. Gives result (λ e. e ≡ Expr.Case p.0 p.1)) (λ f. result ≡ Err f) }
{
    let (pairs, otherwise) = parts?;
    let expr = Expr::case_of(alloc, pairs, otherwise)?;
    Ok(expr)
}

/// CASE with an operand.
pub(crate) fn switch(
    alloc: Global,
    parts: Result<(Expr, (CasePairs, Expr)), AnalysisFault>,
) -> Result<Expr, AnalysisFault>
    ensures { MatchResult parts (λ p. Gives result (λ e. e ≡ Expr.Switch p.0 p.1.0 p.1.1)) (λ f. result ≡ Err f) }
{
    let (operand, (pairs, otherwise)) = parts?;
    let expr = Expr::switch(alloc, operand, pairs, otherwise)?;
    Ok(expr)
}

/// The first value that is not NULL.
pub(crate) fn coalesce(list: Result<Operands, AnalysisFault>) -> Result<Expr, AnalysisFault>
    ensures { MatchResult list (λ l. Gives result (λ e. e ≡ Expr.Coalesce l)) (λ f. result ≡ Err f) }
{
    let list = list?;
    Ok(Expr::Coalesce(list))
}
