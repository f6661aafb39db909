//! A query is run, and its result is printed.

ghost use Rattle.std.specs.Prelude.{◌≡◌, ◌<◌, ◌^◌, length, slice_get, IfOk, OnErr, OnOk};
ghost use Rattle.std.specs.Option.{IsSomeAnd};
ghost use Rattle.aqe_logical.specs.Columns.{schema_of as columns_of};
ghost use Rattle.aqe_settings.specs.Ranges.{InRange};
ghost use Rattle.aqe_settings.specs.Values.{values_of};
ghost use Rattle.aqe_texts.specs.ResultText.{result_text as printed};
ghost use Rattle.aqe_session.specs.Query.{CanBeAsked};
ghost use Rattle.aqe_course.specs.Course.{query as query_of};
ghost use Rattle.aqe_answer.specs.Answer.{HasRun, IsPrinted, MayBeRecorded};

use aqe_base::{Bytes, Memory};
use aqe_journal::Journal;
use aqe_logical::{Logical, schema_of};
use aqe_session::{QueryEnd, Rest, run_query};
use aqe_settings::Settings;
use aqe_tables::Tables;
use aqe_task::Runner;
use aqe_texts::result_text;
use aqe_values::Schema;
use std::alloc::Global;

/// The text of the rows of a record of the journal, under these columns.
fn text_of(
    alloc: Global,
    schema: &Schema,
    journal: &Journal,
    number: usize,
) -> Result<Bytes, Memory>
    requires { number < length journal.now }
    ensures { IfOk result (λ text. IsSomeAnd (slice_get journal.now number) (λ note. text ≡ printed schema.now note.rows)) }
{
    match journal.records().get(number) {
        Some(record) => result_text(alloc, schema, &record.rows),
        None => unreachable!(),
    }
}

/// Runs a query of these columns, and prints its result.
fn answered<R: Runner>(
    alloc: Global,
    plan: Logical,
    schema: &Schema,
    tables: &Tables,
    settings: &Settings,
    journal: &mut Journal,
    runner: &mut R,
) -> Result<Bytes, Memory>
    requires columns { schema.now ≡ columns_of plan }
    requires query { CanBeAsked plan tables.now }
    requires range { InRange (values_of settings.now) }
    requires few { length journal.old < 2 ^ 32 }
    ensures text { IfOk result (IsPrinted (query_of (length journal.old) plan tables.now (values_of settings.now)) journal.old journal.new) }
    ensures memory { OnErr result (MayBeRecorded (query_of (length journal.old) plan tables.now (values_of settings.now)) journal.old journal.new) }
    ensures ran { OnOk result (HasRun journal.old journal.new (R.ran runner.old) (R.ran runner.new)) }
{
    let number = journal.records().len();
    let rest = Rest::Run;
    match run_query(alloc, plan, tables, settings, &[], rest, journal, runner) {
        QueryEnd::Done => text_of(alloc, schema, journal, number),
        QueryEnd::Memory => Err(Memory),
        QueryEnd::Aborted { .. } | QueryEnd::StageAborted { .. } | QueryEnd::Unfinished { .. } => {
            unreachable!()
        }
    }
}

/// Runs a query whose tables are loaded, and makes the text of its result from the rows of its record.
///
/// Where memory is wanted for the text alone the record stands in the journal already.
pub fn answer<R: Runner>(
    alloc: Global,
    plan: Logical,
    tables: &Tables,
    settings: &Settings,
    journal: &mut Journal,
    runner: &mut R,
) -> Result<Bytes, Memory>
    requires query { CanBeAsked plan tables.now }
    requires range { InRange (values_of settings.now) }
    requires few { length journal.old < 2 ^ 32 }
    ensures text { IfOk result (IsPrinted (query_of (length journal.old) plan tables.now (values_of settings.now)) journal.old journal.new) }
    ensures memory { OnErr result (MayBeRecorded (query_of (length journal.old) plan tables.now (values_of settings.now)) journal.old journal.new) }
    ensures ran { OnOk result (HasRun journal.old journal.new (R.ran runner.old) (R.ran runner.new)) }
{
    match schema_of(alloc, &plan) {
        Ok(schema) => answered(alloc, plan, &schema, tables, settings, journal, runner),
        Err(memory) => Err(memory),
    }
}
