//! The statements of a script, one by one.

ghost use Rattle.std.specs.Prelude.{◌≡◌, ◌≢◌, ◌≤◌, ◌<◌, ◌-◌, ◌^◌, ◌∷◌, [], length, IsTrue, IfErr, OnOk, MatchOption, Err};
ghost use Rattle.aqe_base.specs.declared.status.Status.TheVariants as status;
ghost use Rattle.aqe_store.specs.Told.{WhereTold};
ghost use Rattle.aqe_built.specs.Built.{is_script_built};
ghost use Rattle.aqe_course.specs.Ending.{ScriptEnds, left};
ghost use Rattle.aqe_answer.specs.Answer.{HasRun};
ghost use Rattle.aqe_course.specs.Statuses.{is_answer};
ghost use Rattle.aqe_run.specs.Steps.{CarriesOutAll, IsRunEnd, IsRunStep, IsSinkStep, is_statement_end};

use crate::made::Made;
use crate::statement::carried_out;
use aqe_base::Status;
use aqe_journal::Journal;
use aqe_store::{Sink, Store};
use aqe_task::Runner;
use aqe_texts::FaultPlace;
use aqe_trees::Stmt;
use std::alloc::Global;

/// The first statement, and those behind it.
fn next(script: &[Stmt]) -> Option<(&Stmt, &[Stmt])>
    ensures { MatchOption result (script.now ≡ []) (λ x. script.now ≡ x.0.now ∷ x.1.now) }
{
    match script {
        [] => None,
        [first, rest @ ..] => Some((first, rest)),
    }
}

/// Carries out the statements in order, to the end or to the first that is not.
fn all_carried_out<S: Store, O: Sink, R: Runner>(
    alloc: Global,
    script: &[Stmt],
    store: &mut S,
    out: &mut O,
    journal: &mut Journal,
    runner: &mut R,
    place: &mut FaultPlace,
) -> Result<(), Status>
    requires built { IsTrue (is_script_built script.now) }
    requires few { length script.now < 2 ^ 32 - 1 }
    requires empty { journal.old ≡ [] }
    ensures done { OnOk result (CarriesOutAll (S.files store.old) script.now (left journal.old (O.taken out.old)) (left journal.new (O.taken out.new))) }
    ensures early { IfErr result (λ end. WhereTold (S.files store.old)
        (λ files. ScriptEnds files script.now (left journal.old (O.taken out.old)) (left journal.new (O.taken out.new)) end)) }
    ensures named { IfErr result (λ end. IsTrue (is_statement_end end)) }
    ensures ran { result ≢ Err status.Memory → HasRun journal.old journal.new (R.ran runner.old) (R.ran runner.new) }
    ensures sink { IsSinkStep status.WriteFault (O.faults out.old) (O.faults out.new) result }
    ensures step { IsRunStep S.files S.faults S.misses store.old store.new result }
{
    let mut made = Made::new(alloc);
    let mut left = script;
    'statements: while let Some((one, rest)) = next(left) {
        carried_out(alloc, one, &mut made, store, out, journal, runner, place)?;
        left = rest;
    }
    Ok(())
}

/// Carries out the statements of a script in order, and tells how that ended.
///
/// CREATE TABLE enters the catalog and reads nothing. A query is analysed, its tables are loaded, each once in a run, it is run,
/// and its text is made whole before its first byte is written. `place` notes what a refusal is about.
pub fn run_script<S: Store, O: Sink, R: Runner>(
    alloc: Global,
    script: &[Stmt],
    store: &mut S,
    out: &mut O,
    journal: &mut Journal,
    runner: &mut R,
    place: &mut FaultPlace,
) -> Status
    requires built { IsTrue (is_script_built script.now) }
    requires few { length script.now < 2 ^ 32 - 1 }
    requires empty { journal.old ≡ [] }
    ensures ends { WhereTold (S.files store.old)
        (λ files. ScriptEnds files script.now (left journal.old (O.taken out.old)) (left journal.new (O.taken out.new)) result) }
    ensures named { (result ≢ status.Usage) × IsTrue (is_answer result) }
    ensures ran { result ≢ status.Memory → HasRun journal.old journal.new (R.ran runner.old) (R.ran runner.new) }
    ensures sink { IsSinkStep {A = Unit {0}} status.WriteFault (O.faults out.old) (O.faults out.new) (Err result) }
    ensures step { IsRunEnd S.files S.faults S.misses store.old store.new result }
{
    match all_carried_out(alloc, script, store, out, journal, runner, place) {
        Ok(()) => Status::Done,
        Err(end) => end,
    }
}
