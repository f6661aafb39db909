//! CASE.

ghost use Rattle.std.specs.Prelude.{◌≡◌, IfOk};
ghost use Rattle.std.specs.List.{list_all};
ghost use Rattle.aqe_rules.specs.Kinds as kinds;
ghost use Rattle.aqe_rules.specs.Operations as spec;
ghost use Rattle.aqe_rules.specs.Faults.{Says};

use crate::AnalysisFault;
use crate::operations::{converted, mismatch};
use crate::typed::{Typed, common_with, is_truth};
use aqe_boxes::{all_three, both};
use aqe_expr::{CasePairs, Expr};
use aqe_values::{Memory, SqlType, Value};
use std::alloc::Global;

/// Whether each WHEN may stand where a BOOLEAN is wanted.
fn are_truths(arms: &[(Typed, Typed)]) -> bool
    ensures { result ≡ list_all (λ arm. kinds.is_truth arm.0.kind) arms.now }
{
    arms.iter().all(|arm| is_truth(arm.0.kind))
}

/// The common type of the THENs.
fn common_of_results(arms: &[(Typed, Typed)]) -> Option<SqlType>
    ensures { result ≡ spec.common_of_results arms.now }
{
    let mut so_far = Some(SqlType::NullType);
    'arms: for arm in arms {
        so_far = common_with(so_far, arm.1.kind);
    }
    so_far
}

/// The common type of an operand and the WHENs.
fn common_of_tests(kind: SqlType, arms: &[(Typed, Typed)]) -> Option<SqlType>
    ensures { result ≡ spec.common_of_tests kind arms.now }
{
    let mut so_far = Some(kind);
    'arms: for arm in arms {
        so_far = common_with(so_far, arm.0.kind);
    }
    so_far
}

/// The common type of the THENs and the ELSE.
fn common_of_gives(arms: &[(Typed, Typed)], otherwise: &Option<Typed>) -> Option<SqlType>
    ensures { result ≡ spec.common_of_gives arms.now otherwise.now }
{
    let kind = common_of_results(arms);
    match otherwise {
        Some(otherwise) => common_with(kind, otherwise.kind),
        None => kind,
    }
}

/// The ELSE, converted; NULL where there is none.
fn otherwise_of(alloc: Global, kind: SqlType, otherwise: Option<Typed>) -> Result<Expr, Memory>
    ensures { IfOk result (λ e. e ≡ spec.otherwise_of kind otherwise) }
{
    match otherwise {
        Some(otherwise) => converted(alloc, kind, otherwise),
        None => Ok(Expr::Literal(Value::Null)),
    }
}

/// A WHEN as it is, or converted.
fn tested_as(alloc: Global, kind: Option<SqlType>, a: Typed) -> Result<Expr, Memory>
    ensures { IfOk result (λ e. e ≡ spec.tested_as kind a) }
{
    match kind {
        Some(kind) => converted(alloc, kind, a),
        None => Ok(a.expr),
    }
}

/// An arm, converted, in front of the chain.
fn arm_in_front(
    alloc: Global,
    tested: Option<SqlType>,
    gives: SqlType,
    arm: (Typed, Typed),
    chain: CasePairs,
) -> Result<CasePairs, Memory>
    ensures { IfOk result (λ p. p ≡ CasePairs.More (spec.tested_as tested arm.0) (spec.converted gives arm.1) chain) }
{
    let (test, result) = arm;
    let (test, result, chain) = all_three(
        tested_as(alloc, tested, test),
        converted(alloc, gives, result),
        Ok(chain),
    )?;
    CasePairs::more(alloc, test, result, chain)
}

/// The chain of the arms, each converted.
#[tactic(auto, using(crate::proofs::CaseSteps::arms_push, crate::proofs::CaseSteps::all_arms))]
fn case_pairs(
    alloc: Global,
    tested: Option<SqlType>,
    gives: SqlType,
    arms: Vec<(Typed, Typed)>,
) -> Result<CasePairs, Memory>
    ensures { IfOk result (λ p. p ≡ spec.case_pairs tested gives arms.items) }
{
    let mut arms = arms;
    let mut chain = CasePairs::End;
    'arms: while let Some(arm) = arms.pop() {
        chain = arm_in_front(alloc, tested, gives, arm, chain)?;
    }
    Ok(chain)
}

/// CASE without an operand. An arm is a WHEN and its THEN.
#[tactic(auto, using(crate::proofs::CaseSteps::case_steps))]
pub fn case_of(
    alloc: Global,
    arms: Vec<(Typed, Typed)>,
    otherwise: Option<Typed>,
) -> Result<Typed, AnalysisFault>
    ensures { Says result (spec.case None arms.items otherwise) }
{
    if !are_truths(arms.as_slice()) {
        return Err(mismatch(alloc));
    }
    match common_of_gives(arms.as_slice(), &otherwise) {
        Some(kind) => {
            let (pairs, otherwise) = both(
                case_pairs(alloc, None, kind, arms),
                otherwise_of(alloc, kind, otherwise),
            )?;
            let expr = Expr::case_of(alloc, pairs, otherwise)?;
            Ok(Typed { expr, kind })
        }
        None => Err(mismatch(alloc)),
    }
}

/// CASE with an operand, which each WHEN is compared with. An arm is a WHEN and its THEN.
#[tactic(auto, using(crate::proofs::CaseSteps::case_steps))]
pub fn switch(
    alloc: Global,
    a: Typed,
    arms: Vec<(Typed, Typed)>,
    otherwise: Option<Typed>,
) -> Result<Typed, AnalysisFault>
    ensures { Says result (spec.case (Some a) arms.items otherwise) }
{
    match common_of_tests(a.kind, arms.as_slice()) {
        Some(tested) => match common_of_gives(arms.as_slice(), &otherwise) {
            Some(kind) => {
                let (operand, pairs, otherwise) = all_three(
                    converted(alloc, tested, a),
                    case_pairs(alloc, Some(tested), kind, arms),
                    otherwise_of(alloc, kind, otherwise),
                )?;
                let expr = Expr::switch(alloc, operand, pairs, otherwise)?;
                Ok(Typed { expr, kind })
            }
            None => Err(mismatch(alloc)),
        },
        None => Err(mismatch(alloc)),
    }
}
