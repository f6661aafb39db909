//! A query, from its plan to its record in the journal.

ghost use Rattle.std.specs.Prelude.{◌≡◌, ◌<◌, ◌^◌, List, [], length, IfOk, OnOk};
ghost use Rattle.aqe_settings.specs.Ranges.{InRange};
ghost use Rattle.aqe_settings.specs.Values.{values_of};
ghost use Rattle.aqe_estimates.specs.LoadedTables.{tables_of};
ghost use Rattle.aqe_estimates.specs.Estimates as spec;
ghost use Rattle.aqe_steps.specs.Begun.{Begins};
ghost use Rattle.aqe_session.specs.declared.query.Rest.TheVariants as rests;
ghost use Rattle.aqe_session.specs.Query.{AnswersReady, CanBeAsked, CarriesOut, EndsQuery, HasRunAll, IsAddedOf, IsAlone, IsAnswered, IsDoneOrMemory, IsReady, asked_of};

use crate::query::{QueryEnd, Rest, run_to_end};
use crate::record::record_of;
use aqe_base::{Event, Memory};
use aqe_estimates::estimates_of;
use aqe_journal::{Journal, QueryRecord};
use aqe_logical::Logical;
use aqe_settings::Settings;
use aqe_steps::{Run, begin, turn};
use aqe_tables::Tables;
use aqe_task::Runner;
use std::alloc::Global;

/// The first plan of a query, which is made by the estimates of its tables.
fn planned(
    alloc: Global,
    logical: Logical,
    tables: &Tables,
    settings: &Settings,
) -> Result<Run, Memory>
    requires { CanBeAsked logical tables.now }
    ensures { IfOk result (Begins logical (spec.estimates_of tables.now logical) (values_of settings.now)) }
{
    match estimates_of(alloc, &logical, tables) {
        Ok(estimates) => begin(alloc, logical, &estimates, settings),
        Err(memory) => Err(memory),
    }
}

/// Carries out a query that is planned, from its first position to its end.
fn carried_out<R: Runner>(
    alloc: Global,
    run: &mut Run,
    tables: &Tables,
    runner: &mut R,
) -> Result<(), Memory>
    requires { IsReady (tables_of tables.now) run.old }
    ensures done { OnOk result (CarriesOut (tables_of tables.now) run.old run.new) }
    ensures ran { OnOk result (HasRunAll (R.ran runner.old) run.old.runs (R.ran runner.new) run.new.runs) }
{
    turn(alloc, run, true)?;
    run_to_end(alloc, run, tables, runner)
}

/// The record of a query that is planned.
fn answered<R: Runner>(
    alloc: Global,
    run: Run,
    tables: &Tables,
    runner: &mut R,
    query: u32,
) -> Result<QueryRecord, Memory>
    requires { IsReady (tables_of tables.now) run }
    ensures { IfOk result (AnswersReady (tables_of tables.now) run query (R.ran runner.old) (R.ran runner.new)) }
{
    let mut run = run;
    carried_out(alloc, &mut run, tables, runner)?;
    record_of(alloc, run, query)
}

/// The record of a query, which is planned and carried out.
fn recorded<R: Runner>(
    alloc: Global,
    logical: Logical,
    tables: &Tables,
    settings: &Settings,
    runner: &mut R,
    query: u32,
) -> Result<QueryRecord, Memory>
    requires query { CanBeAsked logical tables.now }
    requires range { InRange (values_of settings.now) }
    ensures { IfOk result (IsAnswered (asked_of logical tables.now (values_of settings.now) [] rests.Run) query (R.ran runner.old) (R.ran runner.new)) }
{
    match planned(alloc, logical, tables, settings) {
        Ok(run) => answered(alloc, run, tables, runner, query),
        Err(memory) => Err(memory),
    }
}

/// The number of the next query of the journal.
fn next_number(journal: &Journal) -> u32
    requires { length journal.now < 2 ^ 32 }
    ensures { result ≡ length journal.now }
{
    journal.records().len() as u32
}

/// Adds a record to the journal, if there is one.
fn added(journal: &mut Journal, note: Result<QueryRecord, Memory>) -> QueryEnd
    ensures { IsAddedOf note journal.old journal.new result }
{
    match note {
        Ok(note) => match journal.push(note) {
            Ok(()) => QueryEnd::Done,
            Err(_) => QueryEnd::Memory,
        },
        Err(_) => QueryEnd::Memory,
    }
}

/// Carries out a query: plans it, runs its stages whole, one task after the other, and adds its record to the journal.
///
/// The record's number is that of the records before it. Where memory is wanted the journal stays as it was, and the tasks that
/// the runner has run by then were run for nothing.
pub fn run_query<R: Runner>(
    alloc: Global,
    logical: Logical,
    tables: &Tables,
    settings: &Settings,
    events: &[Event],
    rest: Rest,
    journal: &mut Journal,
    runner: &mut R,
) -> QueryEnd
    requires query { CanBeAsked logical tables.now }
    requires range { InRange (values_of settings.now) }
    requires few { length journal.old < 2 ^ 32 }
    requires alone { IsAlone events.now rest }
    ensures query { EndsQuery (asked_of logical tables.now (values_of settings.now) events.now rest)
        journal.old journal.new (R.ran runner.old) (R.ran runner.new) result }
    ensures ends { IsDoneOrMemory result }
{
    let query = next_number(journal);
    let note = recorded(alloc, logical, tables, settings, runner, query);
    added(journal, note)
}
