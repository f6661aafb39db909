//! What an expression of ORDER BY means that is not over the output columns.

ghost use Rattle.std.specs.Prelude.{◌≡◌};
ghost use Rattle.aqe_base.specs.declared.status.AnalysisKind.TheVariants.{NoSuchColumn};
ghost use Rattle.aqe_rules.specs.Faults.{Says, Tells};
ghost use Rattle.aqe_rules.specs.Outcomes as outcomes;
ghost use Rattle.aqe_rules.specs.Outcomes.{Outcome};
ghost use Rattle.aqe_rules.specs.Plans as spec;
ghost use Rattle.aqe_rules.specs.declared.typed.Typed.{Typed};
ghost use Rattle.aqe_trees.specs.declared.expression.OrTree.{OrTree};
ghost use Rattle.aqe_ordered.specs.Refusals.{unknown};

use aqe_base::AnalysisKind;
use aqe_looks::{Mention, first_missing};
use aqe_rules::{AnalysisFault, Named, Typed, column_named, column_of_item, refused};
use aqe_trees::OrTree;
use std::alloc::Global;

/// Where a hidden column is read.
pub trait Hiding {
    /// The hidden column of an expression, or the check that fails.
    ghost rule: { Self → OrTree → Outcome Typed };

    /// The hidden column of an expression.
    fn hidden(&self, alloc: Global, value: &OrTree) -> Result<Typed, AnalysisFault>
        ensures { Says result (rule self.now value.now) };
}

/// Where no hidden column may stand: a union, a query in parentheses, and SELECT DISTINCT.
#[derive(Drop)]
pub struct ShownAlone<'a> {
    /// The output columns.
    pub outputs: &'a [Named],
}

/// The refusal of an aggregate call where no such column may stand. A name longer than a text finds no memory.
fn call_refused(alloc: Global, name: &str) -> AnalysisFault
    ensures { Tells result (outcomes.refused NoSuchColumn name.now) }
{
    if name.len() <= 67_108_864 {
        refused(alloc, AnalysisKind::NoSuchColumn, name)
    } else {
        AnalysisFault::Memory
    }
}

/// The refusal of what an expression mentions and no output column shows.
#[tactic(auto, using(crate::proofs::HidingSteps::unknown_steps))]
fn unknown(alloc: Global, mention: &Mention) -> Result<Typed, AnalysisFault>
    ensures { Says result (unknown mention.now) }
{
    match mention {
        Mention::Plain(name) => column_named(alloc, name, &[]),
        Mention::OfItem(table, name) => column_of_item(alloc, table, name, &[]),
        Mention::Aggregate(name) => Err(call_refused(alloc, name)),
    }
}

/// The refusal of the first thing that an expression mentions and no output column shows.
#[tactic(auto, using(crate::proofs::HidingSteps::refusal_steps))]
fn no_hidden(alloc: Global, value: &OrTree, outputs: &[Named]) -> Result<Typed, AnalysisFault>
    ensures { Says result (spec.no_hidden outputs.now value.now) }
{
    match first_missing(value, outputs) {
        Some(mention) => unknown(alloc, &mention),
        None => Err(refused(alloc, AnalysisKind::NoSuchColumn, "")),
    }
}

impl<'a> Hiding for ShownAlone<'a> {
    ghost use Rattle.aqe_rules.specs.Plans as spec;

    ghost rule = { λ shown. spec.no_hidden shown.outputs.now };

    fn hidden(&self, alloc: Global, value: &OrTree) -> Result<Typed, AnalysisFault> {
        no_hidden(alloc, value, self.outputs)
    }
}
