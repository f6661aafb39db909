//! CASE, over what its parts came to.

ghost use Rattle.aqe_rules.specs.Operations as operation;
ghost use Rattle.aqe_rules.specs.Faults.{Says};
ghost use Rattle.aqe_typing.specs.Values.{SaysCase};

use aqe_rules::{AnalysisFault, Typed, case_of, switch};
use std::alloc::Global;

/// `CASE [operand] arms [ELSE otherwise] END`
#[tactic(auto, using(crate::proofs::CaseSteps::case_steps))]
pub(crate) fn case(
    alloc: Global,
    operand: Result<Option<Typed>, AnalysisFault>,
    arms: Result<Vec<(Typed, Typed)>, AnalysisFault>,
    otherwise: Result<Option<Typed>, AnalysisFault>,
) -> Result<Typed, AnalysisFault>
    ensures { SaysCase operand arms otherwise result }
{
    chosen(alloc, operand?, arms?, otherwise?)
}

/// CASE with its operand, or without one.
fn chosen(
    alloc: Global,
    operand: Option<Typed>,
    arms: Vec<(Typed, Typed)>,
    otherwise: Option<Typed>,
) -> Result<Typed, AnalysisFault>
    ensures { Says result (operation.case operand arms.items otherwise) }
{
    match operand {
        Some(operand) => switch(alloc, operand, arms, otherwise),
        None => case_of(alloc, arms, otherwise),
    }
}
