//! The operations, over what their operands came to: the first operand that has no value decides.

ghost use Rattle.std.specs.Prelude.{◌≡◌, [], ◌∷◌, ◌++◌, List, Ok, Some};
ghost use Rattle.aqe_rules.specs.Outcomes.{Outcome, upon, each, if_any};
ghost use Rattle.aqe_rules.specs.Operations as operation;
ghost use Rattle.aqe_rules.specs.declared.typed.Typed.{Typed};
ghost use Rattle.aqe_rules.specs.Faults.{Says};
ghost use Rattle.aqe_typing.specs.Values as spec;
ghost use Rattle.aqe_typing.specs.Values.{SaysAll};

use aqe_expr::BinaryOp;
use aqe_rules::{AnalysisFault, Typed};
use aqe_trees::{CompareOp, ProductOp, Sign, Truth};
use aqe_values::SqlType;
use std::alloc::Global;

/// `a AND b` and `a OR b`
#[tactic(auto, using(crate::proofs::StepLemmas::steps))]
pub(crate) fn joined(
    alloc: Global,
    op: BinaryOp,
    a: Result<Typed, AnalysisFault>,
    b: Result<Typed, AnalysisFault>,
) -> Result<Typed, AnalysisFault>
    ensures { (o p : Outcome Typed) → Says a o → Says b p
        → Says result (spec.on_two (operation.logical op) o p) }
{
    aqe_rules::logical(alloc, op, a?, b?)
}

/// `a < b` and the other comparisons
#[tactic(auto, using(crate::proofs::StepLemmas::steps))]
pub(crate) fn compared(
    alloc: Global,
    op: CompareOp,
    a: Result<Typed, AnalysisFault>,
    b: Result<Typed, AnalysisFault>,
) -> Result<Typed, AnalysisFault>
    ensures { (o p : Outcome Typed) → Says a o → Says b p
        → Says result (spec.on_two (operation.comparison op) o p) }
{
    aqe_rules::comparison(alloc, op, a?, b?)
}

/// `a + b` and `a - b`
#[tactic(auto, using(crate::proofs::StepLemmas::steps))]
pub(crate) fn added(
    alloc: Global,
    op: Sign,
    a: Result<Typed, AnalysisFault>,
    b: Result<Typed, AnalysisFault>,
) -> Result<Typed, AnalysisFault>
    ensures { (o p : Outcome Typed) → Says a o → Says b p
        → Says result (spec.on_two (operation.sum_operation op) o p) }
{
    aqe_rules::sum_operation(alloc, op, a?, b?)
}

/// `a * b`, `a % b` and `a DIV b`
#[tactic(auto, using(crate::proofs::StepLemmas::steps))]
pub(crate) fn multiplied(
    alloc: Global,
    op: ProductOp,
    a: Result<Typed, AnalysisFault>,
    b: Result<Typed, AnalysisFault>,
) -> Result<Typed, AnalysisFault>
    ensures { (o p : Outcome Typed) → Says a o → Says b p
        → Says result (spec.on_two (operation.product_operation op) o p) }
{
    aqe_rules::product_operation(alloc, op, a?, b?)
}

/// `a LIKE pattern`
#[tactic(auto, using(crate::proofs::StepLemmas::steps))]
pub(crate) fn matched(
    alloc: Global,
    a: Result<Typed, AnalysisFault>,
    pattern: Result<Typed, AnalysisFault>,
) -> Result<Typed, AnalysisFault>
    ensures { (o p : Outcome Typed) → Says a o → Says pattern p
        → Says result (spec.on_two operation.like o p) }
{
    aqe_rules::like(alloc, a?, pattern?)
}

/// `a BETWEEN low AND high`
#[tactic(auto, using(crate::proofs::StepLemmas::steps))]
pub(crate) fn within(
    alloc: Global,
    a: Result<Typed, AnalysisFault>,
    low: Result<Typed, AnalysisFault>,
    high: Result<Typed, AnalysisFault>,
) -> Result<Typed, AnalysisFault>
    ensures { (o p q : Outcome Typed) → Says a o → Says low p → Says high q
        → Says result (spec.on_three operation.between o p q) }
{
    aqe_rules::between(alloc, a?, low?, high?)
}

/// `a IN (..)`
#[tactic(auto, using(crate::proofs::StepLemmas::steps))]
pub(crate) fn one_of(
    alloc: Global,
    a: Result<Typed, AnalysisFault>,
    all: Result<Vec<Typed>, AnalysisFault>,
) -> Result<Typed, AnalysisFault>
    ensures { (o : Outcome Typed) (p : Outcome (List Typed)) → Says a o → SaysAll all p
        → Says result (upon o (λ x. upon p (operation.in_list x))) }
{
    aqe_rules::in_list(alloc, a?, all?)
}

/// `a IS NULL`, `a IS TRUE` and `a IS FALSE`
#[tactic(auto, using(crate::proofs::StepLemmas::steps))]
pub(crate) fn asked(
    alloc: Global,
    truth: Truth,
    a: Result<Typed, AnalysisFault>,
) -> Result<Typed, AnalysisFault>
    ensures { (o : Outcome Typed) → Says a o → Says result (upon o (operation.is_operation truth)) }
{
    aqe_rules::is_operation(alloc, truth, a?)
}

/// `CAST (a AS kind)`
#[tactic(auto, using(crate::proofs::StepLemmas::steps))]
pub(crate) fn cast(
    alloc: Global,
    kind: SqlType,
    a: Result<Typed, AnalysisFault>,
) -> Result<Typed, AnalysisFault>
    ensures { (o : Outcome Typed) → Says a o
        → Says result (upon o (λ x. Ok (operation.cast kind x))) }
{
    let cast = aqe_rules::cast(alloc, kind, a?)?;
    Ok(cast)
}

/// `NOT a`
#[tactic(auto, using(crate::proofs::StepLemmas::steps))]
fn negated(alloc: Global, a: Result<Typed, AnalysisFault>) -> Result<Typed, AnalysisFault>
    ensures { (o : Outcome Typed) → Says a o → Says result (upon o operation.negation) }
{
    aqe_rules::negation(alloc, a?)
}

/// The test as it is, or under a NOT.
pub(crate) fn negated_if(
    alloc: Global,
    is_negated: bool,
    a: Result<Typed, AnalysisFault>,
) -> Result<Typed, AnalysisFault>
    ensures { (o : Outcome Typed) → Says a o → Says result (spec.not_if is_negated o) }
{
    if is_negated { negated(alloc, a) } else { a }
}

/// The value under so many NOTs.
pub(crate) fn negated_times(
    alloc: Global,
    count: u64,
    a: Result<Typed, AnalysisFault>,
) -> Result<Typed, AnalysisFault>
    ensures { (o : Outcome Typed) → Says a o → Says result (spec.not_times count o) }
{
    let mut value = a;
    'times: for _ in 0..count {
        value = negated(alloc, value);
    }
    value
}

/// `+ a` and `- a`
#[tactic(auto, using(crate::proofs::StepLemmas::steps))]
fn signed(
    alloc: Global,
    sign: Sign,
    a: Result<Typed, AnalysisFault>,
) -> Result<Typed, AnalysisFault>
    ensures { (o : Outcome Typed) → Says a o
        → Says result (upon o (operation.signed_operation sign)) }
{
    aqe_rules::signed_operation(alloc, sign, a?)
}

/// The value under its signs, the outermost first.
pub(crate) fn under_signs(
    alloc: Global,
    signs: &[Sign],
    a: Result<Typed, AnalysisFault>,
) -> Result<Typed, AnalysisFault>
    ensures { (o : Outcome Typed) → Says a o → Says result (spec.with_signs signs.now o) }
{
    let mut value = a;
    let mut rest = signs;
    'signs: while let Some((sign, before)) = rest.split_last() {
        value = signed(alloc, *sign, value);
        rest = before;
    }
    value
}

/// The expressions so far, and one more.
#[tactic(auto, using(crate::proofs::ListSteps::list_steps))]
pub(crate) fn with_one(
    all: Result<Vec<Typed>, AnalysisFault>,
    next: Result<Typed, AnalysisFault>,
) -> Result<Vec<Typed>, AnalysisFault>
    ensures { (os : List (Outcome Typed)) (o : Outcome Typed) → SaysAll all (each os) → Says next o
        → SaysAll result (each (os ++ o ∷ [])) }
{
    let mut all = all?;
    all.push(next?)?;
    Ok(all)
}

/// WHEN and THEN.
#[tactic(auto, using(crate::proofs::StepLemmas::steps))]
pub(crate) fn arm_of(
    when: Result<Typed, AnalysisFault>,
    gives: Result<Typed, AnalysisFault>,
) -> Result<(Typed, Typed), AnalysisFault>
    ensures { (o p : Outcome Typed) → Says when o → Says gives p
        → Says result (upon o (λ test. upon p (λ gives. Ok (test, gives)))) }
{
    Ok((when?, gives?))
}

/// The arms so far, and one more.
#[tactic(auto, using(crate::proofs::ListSteps::list_steps))]
pub(crate) fn with_arm(
    arms: Result<Vec<(Typed, Typed)>, AnalysisFault>,
    next: Result<(Typed, Typed), AnalysisFault>,
) -> Result<Vec<(Typed, Typed)>, AnalysisFault>
    ensures { (os : List (Outcome (Typed × Typed))) (o : Outcome (Typed × Typed))
        → SaysAll arms (each os) → Says next o → SaysAll result (each (os ++ o ∷ [])) }
{
    let mut arms = arms?;
    arms.push(next?)?;
    Ok(arms)
}

/// An expression that is there.
#[tactic(auto, using(crate::proofs::StepLemmas::steps))]
pub(crate) fn there(a: Result<Typed, AnalysisFault>) -> Result<Option<Typed>, AnalysisFault>
    ensures { (o : Outcome Typed) → Says a o → Says result (if_any (Some o)) }
{
    Ok(Some(a?))
}
