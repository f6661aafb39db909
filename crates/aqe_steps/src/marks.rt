//! Each stage is marked as needed or not.

ghost use Rattle.std.specs.Prelude.{◌≡◌, ◌<◌, ◌≤◌, ◌^◌, ◌++◌, false, List, length, map, slice_index_or, OnOk, IfOk};
ghost use Rattle.std.specs.List.{range_with_len};
ghost use Rattle.aqe_scheduler.specs.Fates.{noted};
ghost use Rattle.aqe_scheduler.specs.History.{Entry};
ghost use Rattle.aqe_scheduler.specs.Looks.{whole};
ghost use Rattle.aqe_scheduler.specs.Stands.{StandsFor};
ghost use Rattle.aqe_scheduler.specs.Tables.{births_on};
ghost use Rattle.aqe_journal.specs.Needed.{needed_stages};
ghost use Rattle.aqe_journal.specs.States.{marks_of};
ghost use Rattle.aqe_needs.specs.Noted.{stages_of};
ghost use Rattle.aqe_steps.specs.Runs.{IsSteadyRun, Marks};

use crate::run::{Run, numbered};
use aqe_base::{Listing, Memory};
use aqe_journal::StageNote;
use aqe_needs::needed;
use aqe_physical::Plan;
use aqe_scheduler::Board;
use std::alloc::Global;

/// For each stage whether it is whole.
fn whole_stages(alloc: Global, board: &Board, count: usize) -> Result<Listing<bool>, Memory>
    requires { count ≤ 2 ^ 32 }
    ensures count { IfOk result (λ flags. length flags ≡ count) }
    ensures asked { IfOk result (λ flags. (h : List Entry) → StandsFor board.now h → flags ≡ map (whole (noted h)) (range_with_len 0 count)) }
{
    let mut flags = Listing::new(alloc);
    'stages: for n in 0..count {
        flags.push(board.is_whole(numbered(n)))?;
    }
    Ok(flags)
}

/// The mark of a stage.
fn mark_at(marks: &[bool], n: usize) -> bool
    requires { n < length marks.now }
    ensures { result ≡ slice_index_or marks.now n false }
{
    marks[n]
}

/// Tells the board the marks of the stages, from the first on.
fn tell(board: &mut Board, marks: &[bool])
    requires count { length marks.now ≡ length (births_on board.old) }
    requires few { length marks.now ≤ 2 ^ 32 }
    ensures stands { (h : List Entry) → StandsFor board.old h → StandsFor board.new (h ++ marks_of 0 marks.now) }
    ensures births { births_on board.new ≡ births_on board.old }
{
    'marks: for n in 0..marks.len() {
        board.need(numbered(n), mark_at(marks, n));
    }
}

/// Which stages are needed, by the plan, the stages that were made, and what the board says of them.
fn marks_by(
    alloc: Global,
    plan: &Plan,
    stages: &[StageNote],
    board: &Board,
) -> Result<Listing<bool>, Memory>
    requires { length stages.now ≤ 2 ^ 32 }
    ensures count { IfOk result (λ marks. length marks ≡ length stages.now) }
    ensures marks { IfOk result (λ marks. (h : List Entry) → StandsFor board.now h
        → marks ≡ needed_stages (whole (noted h)) plan.now (stages_of stages.now)) }
{
    let whole = whole_stages(alloc, board, stages.len())?;
    needed(alloc, plan, stages, whole.slice())
}

/// Marks each stage as needed or not, by the current plan.
pub(crate) fn mark(alloc: Global, run: &mut Run) -> Result<(), Memory>
    requires { IsSteadyRun run.old }
    ensures { OnOk result (Marks run.old run.new) }
{
    let marks = marks_by(alloc, run.versions.plan(), &run.stages, &run.board)?;
    tell(&mut run.board, marks.slice());
    Ok(())
}
