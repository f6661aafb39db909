//! One statement of a script.

ghost use Rattle.std.specs.Prelude.{◌≡◌, ◌≢◌, All, ◌<◌, ◌≤◌, ◌+◌, ◌-◌, ◌^◌, ◌⊎◌, ◌∷◌, [], Err, length, IsTrue, IfErr, IfOk, OnErr, OnOk, List, ℕ};
ghost use Rattle.aqe_base.specs.declared.status.Status.TheVariants as status;
ghost use Rattle.aqe_trees.specs.declared.statement.Stmt.TheVariants as stmt;
ghost use Rattle.aqe_store.specs.Told.{WhereTold};
ghost use Rattle.aqe_built.specs.Built.{is_statement_built};
ghost use Rattle.aqe_rules.specs.Analysis.{Analysed};
ghost use Rattle.aqe_logical.specs.Nodes.{scans as scans_of};
ghost use Rattle.aqe_logical.specs.WellFormed.{WellFormed};
ghost use Rattle.aqe_laws.specs.Scans.{ScansHaveTheirColumns};
ghost use Rattle.aqe_planner.specs.Built.{IsBuilt};
ghost use Rattle.aqe_estimates.specs.LoadedTables.{AreScansLoaded};
ghost use Rattle.aqe_session.specs.Query.{CanBeAsked};
ghost use Rattle.aqe_answer.specs.Answer.{HasRun, IsPrinted, MayBeRecorded};
ghost use Rattle.aqe_sources.specs.Catalogs.{seen};
ghost use Rattle.aqe_settings.specs.Ranges.{InRange};
ghost use Rattle.aqe_settings.specs.Values.{values_of};
ghost use Rattle.aqe_course.specs.Course.{IsCreated, IsNotAnalysed, IsNotCreated, of_create, of_fault, query as query_of};
ghost use Rattle.aqe_course.specs.Laws.{HasShapedTables};
ghost use Rattle.aqe_course.specs.Ending.{ReadsTables, left};
ghost use Rattle.aqe_run.specs.Steps.{AreMissing, IsBehind, IsQueried, IsRunStep, IsSinkStep, IsUnanswered, LoadsAll, Refuses, RefusesTables, RefusesToWrite, StopsThere, WritesAll, WritesHalf, done_of, is_statement_end, is_step_end, state_of};

use crate::loading::load_all;
use crate::made::Made;
use aqe_analysis::{AnalysisFault, analyse};
use aqe_answer::answer;
use aqe_base::{AnalysisKind, Bytes, LimitKind, Status};
use aqe_journal::Journal;
use aqe_logical::{Logical, scans};
use aqe_store::{Sink, Store, write_all};
use aqe_tables::CreateFault;
use aqe_task::Runner;
use aqe_texts::FaultPlace;
use aqe_trees::{QueryTree, Stmt, TableForm};
use std::alloc::Global;

/// The status of a table that is not created; its name, or its bad option, is noted.
fn create_status(why: CreateFault, name: &str, place: &mut FaultPlace) -> Status
    ensures { result ≡ of_create why }
{
    match why {
        CreateFault::RepeatedColumn { name } => {
            place.note(name.as_str());
            Status::Analysis(AnalysisKind::RepeatedColumn)
        }
        CreateFault::TooManyColumns => {
            place.note(name);
            Status::Limit(LimitKind::Columns)
        }
        CreateFault::BadOption { key } => {
            place.note(key.as_str());
            Status::Analysis(AnalysisKind::BadOption)
        }
        CreateFault::TableExists => {
            place.note(name);
            Status::Analysis(AnalysisKind::TableExists)
        }
        CreateFault::Memory => Status::Memory,
    }
}

/// CREATE TABLE
fn created(form: &TableForm, made: &mut Made, place: &mut FaultPlace) -> Result<(), Status>
    requires few { done_of made.old < 2 ^ 32 - 1 }
    requires shaped { HasShapedTables (state_of made.old) }
    ensures created { OnOk result (IsCreated (state_of made.old) form.now (state_of made.new) []) }
    ensures shaped { HasShapedTables (state_of made.new) }
    ensures in_force { made.new.settings ≡ made.old.settings }
    ensures uncounted { made.new.answered ≡ made.old.answered }
    ensures few { done_of made.new ≤ done_of made.old + 1 }
    ensures refused { IfErr result (λ end. IsNotCreated (state_of made.old) form.now end ⊎ (end ≡ status.Memory)) }
    ensures named { IfErr result (λ end. IsTrue (is_step_end end)) }
{
    match made.catalog.create(form) {
        Ok(_) => Ok(()),
        Err(why) => Err(create_status(why, form.name.as_str(), place)),
    }
}

/// The status of a query that is not analysed; the name that it is about is noted.
fn analysis_status(why: AnalysisFault, place: &mut FaultPlace) -> Status
    ensures { result ≡ of_fault why }
{
    match why {
        AnalysisFault::Refused { kind, name } => {
            place.note(name.as_str());
            Status::Analysis(kind)
        }
        AnalysisFault::TooManyOperators => Status::Limit(LimitKind::Operators),
        AnalysisFault::TooManyColumns => Status::Limit(LimitKind::Columns),
        AnalysisFault::Memory => Status::Memory,
    }
}

/// The plan of a query.
fn plan_of(
    alloc: Global,
    tree: &QueryTree,
    made: &Made,
    place: &mut FaultPlace,
) -> Result<Logical, Status>
    ensures plan { IfOk result (λ plan. Analysed tree.now (seen made.now.catalog) plan) }
    ensures refused { IfErr result (λ end. IsNotAnalysed (state_of made.now) tree.now end ⊎ (end ≡ status.Memory)) }
    ensures named { IfErr result (λ end. IsTrue (is_step_end end)) }
    ensures unread { result ≢ Err status.ReadFault }
{
    match analyse(alloc, tree, &made.catalog) {
        Ok(plan) => Ok(plan),
        Err(why) => Err(analysis_status(why, place)),
    }
}

/// Loads the tables that a plan scans.
fn load_scans<S: Store>(
    alloc: Global,
    plan: &Logical,
    made: &mut Made,
    store: &mut S,
    place: &mut FaultPlace,
) -> Result<(), Status>
    requires within { All (λ n. n < length made.old.catalog) (scans_of plan.now) }
    requires shaped { HasShapedTables (state_of made.old) }
    ensures loaded { OnOk result (AreScansLoaded made.new.tables plan.now) }
    ensures shaped { HasShapedTables (state_of made.new) }
    ensures all { OnOk result (LoadsAll (S.files store.old) made.old.catalog made.old.tables (scans_of plan.now) made.new.tables) }
    ensures kept { made.new.catalog ≡ made.old.catalog }
    ensures in_force { made.new.settings ≡ made.old.settings }
    ensures uncounted { made.new.answered ≡ made.old.answered }
    ensures refused { IfErr result (RefusesTables (S.files store.old) made.old.catalog made.old.tables (scans_of plan.now)) }
    ensures reads { result ≡ Err status.ReadFault → AreMissing made.old.tables (scans_of plan.now) }
    ensures named { IfErr result (λ end. IsTrue (is_step_end end)) }
    ensures step { IsRunStep S.files S.faults S.misses store.old store.new result }
{
    let Ok(numbers) = scans(alloc, plan) else {
        return Err(Status::Memory);
    };
    load_all(
        numbers.as_slice(),
        &made.catalog,
        &mut made.tables,
        store,
        place,
    )
}

/// Runs a query whose tables are loaded, and counts it.
fn printed<R: Runner>(
    alloc: Global,
    plan: Logical,
    made: &mut Made,
    journal: &mut Journal,
    runner: &mut R,
) -> Result<Bytes, Status>
    requires query { CanBeAsked plan made.old.tables }
    requires range { InRange (values_of made.old.settings) }
    requires few { made.old.answered < 2 ^ 32 - 1 }
    requires counted { made.old.answered ≡ length journal.old }
    ensures text { IfOk result (IsPrinted (query_of made.old.answered plan made.old.tables (values_of made.old.settings)) journal.old journal.new) }
    ensures behind { OnErr result (MayBeRecorded (query_of made.old.answered plan made.old.tables (values_of made.old.settings)) journal.old journal.new) }
    ensures kept { made.new.catalog ≡ made.old.catalog }
    ensures tables { made.new.tables ≡ made.old.tables }
    ensures in_force { made.new.settings ≡ made.old.settings }
    ensures counted { IfOk result (λ text. made.new.answered ≡ made.old.answered + 1) }
    ensures uncounted { OnErr result (made.new.answered ≡ made.old.answered) }
    ensures memory { IfErr result (λ end. end ≡ status.Memory) }
    ensures ran { OnOk result (HasRun journal.old journal.new (R.ran runner.old) (R.ran runner.new)) }
{
    match answer(alloc, plan, &made.tables, &made.settings, journal, runner) {
        Ok(text) => {
            made.answered += 1;
            Ok(text)
        }
        Err(_) => Err(Status::Memory),
    }
}

/// The printed answer of a plan, whose tables are loaded first.
fn evaluated<S: Store, R: Runner>(
    alloc: Global,
    plan: Logical,
    made: &mut Made,
    store: &mut S,
    journal: &mut Journal,
    runner: &mut R,
    place: &mut FaultPlace,
) -> Result<Bytes, Status>
    requires form { IsBuilt plan }
    requires formed { WellFormed plan }
    requires columns { ScansHaveTheirColumns (seen made.old.catalog) plan }
    requires range { InRange (values_of made.old.settings) }
    requires few { made.old.answered < 2 ^ 32 - 1 }
    requires counted { made.old.answered ≡ length journal.old }
    requires within { All (λ n. n < length made.old.catalog) (scans_of plan) }
    requires shaped { HasShapedTables (state_of made.old) }
    ensures loaded { IfOk result (λ text. LoadsAll (S.files store.old) made.old.catalog made.old.tables (scans_of plan) made.new.tables) }
    ensures shaped { HasShapedTables (state_of made.new) }
    ensures text { IfOk result (IsPrinted (query_of made.old.answered plan made.new.tables (values_of made.old.settings)) journal.old journal.new) }
    ensures behind { IfErr result (IsBehind (S.files store.old) (state_of made.old) plan made.new.tables journal.old journal.new) }
    ensures kept { made.new.catalog ≡ made.old.catalog }
    ensures in_force { made.new.settings ≡ made.old.settings }
    ensures counted { IfOk result (λ text. made.new.answered ≡ made.old.answered + 1) }
    ensures uncounted { OnErr result (made.new.answered ≡ made.old.answered) }
    ensures refused { IfErr result (RefusesTables (S.files store.old) made.old.catalog made.old.tables (scans_of plan)) }
    ensures reads { result ≡ Err status.ReadFault → AreMissing made.old.tables (scans_of plan) }
    ensures named { IfErr result (λ end. IsTrue (is_step_end end)) }
    ensures ran { result ≢ Err status.Memory → HasRun journal.old journal.new (R.ran runner.old) (R.ran runner.new) }
    ensures step { IsRunStep S.files S.faults S.misses store.old store.new result }
{
    match load_scans(alloc, &plan, made, store, place) {
        Ok(()) => printed(alloc, plan, made, journal, runner),
        Err(end) => Err(end),
    }
}

/// The printed answer of a query.
fn answered<S: Store, R: Runner>(
    alloc: Global,
    tree: &QueryTree,
    made: &mut Made,
    store: &mut S,
    journal: &mut Journal,
    runner: &mut R,
    place: &mut FaultPlace,
) -> Result<Bytes, Status>
    requires range { InRange (values_of made.old.settings) }
    requires few { made.old.answered < 2 ^ 32 - 1 }
    requires counted { made.old.answered ≡ length journal.old }
    requires shaped { HasShapedTables (state_of made.old) }
    ensures shaped { HasShapedTables (state_of made.new) }
    ensures text { IfOk result (λ text. WhereTold (S.files store.old)
        (λ files. IsQueried files (state_of made.old) tree.now (state_of made.new) journal.old journal.new text)) }
    ensures behind { IfErr result (λ end. WhereTold (S.files store.old)
        (λ files. IsUnanswered files (state_of made.old) tree.now end journal.old journal.new)) }
    ensures kept { made.new.catalog ≡ made.old.catalog }
    ensures in_force { made.new.settings ≡ made.old.settings }
    ensures few { made.new.answered ≤ made.old.answered + 1 }
    ensures counted { OnOk result (made.new.answered ≡ length journal.new) }
    ensures refused { IfErr result (Refuses (S.files store.old) (state_of made.old) (stmt.Query tree.now)) }
    ensures reads { result ≡ Err status.ReadFault → ReadsTables (state_of made.old) (stmt.Query tree.now) }
    ensures named { IfErr result (λ end. IsTrue (is_step_end end)) }
    ensures ran { result ≢ Err status.Memory → HasRun journal.old journal.new (R.ran runner.old) (R.ran runner.new) }
    ensures step { IsRunStep S.files S.faults S.misses store.old store.new result }
{
    match plan_of(alloc, tree, made, place) {
        Ok(plan) => evaluated(alloc, plan, made, store, journal, runner, place),
        Err(end) => Err(end),
    }
}

/// Carries out a query, and writes its answer.
fn query<S: Store, O: Sink, R: Runner>(
    alloc: Global,
    tree: &QueryTree,
    made: &mut Made,
    store: &mut S,
    out: &mut O,
    journal: &mut Journal,
    runner: &mut R,
    place: &mut FaultPlace,
) -> Result<(), Status>
    requires range { InRange (values_of made.old.settings) }
    requires few { made.old.answered < 2 ^ 32 - 1 }
    requires counted { made.old.answered ≡ length journal.old }
    requires shaped { HasShapedTables (state_of made.old) }
    ensures shaped { HasShapedTables (state_of made.new) }
    ensures done { OnOk result (WritesAll (S.files store.old) (state_of made.old) (stmt.Query tree.now) (state_of made.new)
        (left journal.old (O.taken out.old)) (left journal.new (O.taken out.new))) }
    ensures kept { made.new.catalog ≡ made.old.catalog }
    ensures in_force { made.new.settings ≡ made.old.settings }
    ensures few { made.new.answered ≤ made.old.answered + 1 }
    ensures counted { OnOk result (made.new.answered ≡ length journal.new) }
    ensures refused { IfErr result (RefusesToWrite (S.files store.old) (state_of made.old) (stmt.Query tree.now)) }
    ensures reads { result ≡ Err status.ReadFault → ReadsTables (state_of made.old) (stmt.Query tree.now) }
    ensures named { IfErr result (λ end. IsTrue (is_statement_end end)) }
    ensures stops { IfErr result (λ end. end ≢ status.WriteFault → StopsThere (S.files store.old) (state_of made.old) (stmt.Query tree.now) end
        (left journal.old (O.taken out.old)) (left journal.new (O.taken out.new))) }
    ensures front { result ≡ Err status.WriteFault → WritesHalf (S.files store.old) (state_of made.old) (stmt.Query tree.now)
        (left journal.old (O.taken out.old)) (left journal.new (O.taken out.new)) }
    ensures ran { result ≢ Err status.Memory → HasRun journal.old journal.new (R.ran runner.old) (R.ran runner.new) }
    ensures sink { IsSinkStep status.WriteFault (O.faults out.old) (O.faults out.new) result }
    ensures step { IsRunStep S.files S.faults S.misses store.old store.new result }
{
    let text = answered(alloc, tree, made, store, journal, runner, place)?;
    match write_all(out, text.slice()) {
        Ok(()) => Ok(()),
        Err(_) => Err(Status::WriteFault),
    }
}

/// Carries out a statement, and writes the answer of a query.
pub(crate) fn carried_out<S: Store, O: Sink, R: Runner>(
    alloc: Global,
    one: &Stmt,
    made: &mut Made,
    store: &mut S,
    out: &mut O,
    journal: &mut Journal,
    runner: &mut R,
    place: &mut FaultPlace,
) -> Result<(), Status>
    requires built { IsTrue (is_statement_built one.now) }
    requires range { InRange (values_of made.old.settings) }
    requires few { done_of made.old < 2 ^ 32 - 1 }
    requires counted { made.old.answered ≡ length journal.old }
    requires shaped { HasShapedTables (state_of made.old) }
    ensures shaped { HasShapedTables (state_of made.new) }
    ensures done { OnOk result (WritesAll (S.files store.old) (state_of made.old) one.now (state_of made.new)
        (left journal.old (O.taken out.old)) (left journal.new (O.taken out.new))) }
    ensures in_force { made.new.settings ≡ made.old.settings }
    ensures few { done_of made.new ≤ done_of made.old + 1 }
    ensures counted { OnOk result (made.new.answered ≡ length journal.new) }
    ensures refused { IfErr result (RefusesToWrite (S.files store.old) (state_of made.old) one.now) }
    ensures reads { result ≡ Err status.ReadFault → ReadsTables (state_of made.old) one.now }
    ensures named { IfErr result (λ end. IsTrue (is_statement_end end)) }
    ensures stops { IfErr result (λ end. end ≢ status.WriteFault → StopsThere (S.files store.old) (state_of made.old) one.now end
        (left journal.old (O.taken out.old)) (left journal.new (O.taken out.new))) }
    ensures front { result ≡ Err status.WriteFault → WritesHalf (S.files store.old) (state_of made.old) one.now
        (left journal.old (O.taken out.old)) (left journal.new (O.taken out.new)) }
    ensures ran { result ≢ Err status.Memory → HasRun journal.old journal.new (R.ran runner.old) (R.ran runner.new) }
    ensures sink { IsSinkStep status.WriteFault (O.faults out.old) (O.faults out.new) result }
    ensures step { IsRunStep S.files S.faults S.misses store.old store.new result }
{
    match one {
        Stmt::CreateTable(form) => created(form, made, place),
        Stmt::Query(tree) => query(alloc, tree, made, store, out, journal, runner, place),
        Stmt::Set(_) => unreachable!(),
    }
}
