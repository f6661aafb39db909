//! One run of the program, from its words to its status.

ghost use Rattle.std.specs.Prelude.{◌≡◌, ◌≢◌, ◌↔◌, [], map, string_bytes, IsTrue, Err};
ghost use Rattle.aqe_base.specs.declared.status.Status.TheVariants as status;
ghost use Rattle.aqe_store.specs.Told.{WhereTold};
ghost use Rattle.aqe_course.specs.Command.{IsMisused, command};
ghost use Rattle.aqe_answer.specs.Answer.{HasRun};
ghost use Rattle.aqe_course.specs.Ending.{Ends, left};
ghost use Rattle.aqe_course.specs.Statuses.{is_answer, is_refusal};
ghost use Rattle.aqe_run.specs.Steps.{IsRunEnd, IsSinkStep};
ghost use Rattle.aqe_cli.specs.Headline.{AnswersAll, Completes, EndsSo, IsRefusedWith, IsTheRefusal, IsUntouched, Rises};

use crate::words::script_path;
use aqe_base::Status;
use aqe_journal::Journal;
use aqe_run::{opened, run_script};
use aqe_store::{Sink, Store};
use aqe_task::Runner;
use aqe_texts::{FaultPlace, report};
use std::alloc::Global;

/// Opens the script at the path, and carries it out.
fn run<S: Store, O: Sink, R: Runner>(
    alloc: Global,
    path: &str,
    store: &mut S,
    out: &mut O,
    journal: &mut Journal,
    runner: &mut R,
    place: &mut FaultPlace,
) -> Status
    requires { journal.old ≡ [] }
    ensures ends { WhereTold (S.files store.old) (λ files. Ends files (command path.now)
        (S.opened store.new) (left journal.old (O.taken out.old)) (left journal.new (O.taken out.new)) result) }
    ensures ran { result ≢ status.Memory → HasRun journal.old journal.new (R.ran runner.old) (R.ran runner.new) }
    ensures named { (result ≢ status.Usage) × IsTrue (is_answer result) }
    ensures sink { IsSinkStep {A = Unit {0}} status.WriteFault (O.faults out.old) (O.faults out.new) (Err result) }
    ensures step { IsRunEnd S.files S.faults S.misses store.old store.new result }
{
    match opened(alloc, path, store, place) {
        Ok(script) => run_script(alloc, script.slice(), store, out, journal, runner, place),
        Err(end) => end,
    }
}

/// Carries out what the words say.
fn answered<S: Store, O: Sink, R: Runner>(
    alloc: Global,
    words: &[String],
    store: &mut S,
    out: &mut O,
    journal: &mut Journal,
    runner: &mut R,
    place: &mut FaultPlace,
) -> Status
    requires { journal.old ≡ [] }
    ensures done { result ≡ status.Done → AnswersAll (S.files store.old) (map string_bytes words.now)
        (left journal.old (O.taken out.old)) (left journal.new (O.taken out.new)) }
    ensures usage { result ≡ status.Usage ↔ IsMisused (map string_bytes words.now) }
    ensures untouched { IsMisused (map string_bytes words.now) → IsUntouched store.old store.new out.old out.new journal.old journal.new runner.old runner.new }
    ensures refused { IsTrue (is_refusal result)
        → IsRefusedWith (S.files store.old) (map string_bytes words.now)
        (left journal.old (O.taken out.old)) (left journal.new (O.taken out.new)) result }
    ensures always { IsTheRefusal (S.files store.old) (map string_bytes words.now) result }
    ensures ends { EndsSo (S.files store.old) (map string_bytes words.now) (S.opened store.new)
        (left journal.old (O.taken out.old)) (left journal.new (O.taken out.new)) result }
    ensures completes { Completes (S.files store.old) (map string_bytes words.now) result
        (Rises S.faults store.old store.new) (Rises O.faults out.old out.new) }
    ensures ran { result ≢ status.Memory → HasRun journal.old journal.new (R.ran runner.old) (R.ran runner.new) }
    ensures store { IsRunEnd S.files S.faults S.misses store.old store.new result }
    ensures sink { IsSinkStep {A = Unit {0}} status.WriteFault (O.faults out.old) (O.faults out.new) (Err result) }
    ensures named { IsTrue (is_answer result) }
{
    match script_path(words) {
        Some(path) => run(alloc, path, store, out, journal, runner, place),
        None => Status::Usage,
    }
}

/// Runs the program on its words, those after the program's name: reads the script that they name, and carries out its
/// statements one by one. Each query leaves its record in `journal`, and its tasks are run by `runner`.
///
/// The first refusal ends the run; what was written stays. One line on `err` tells why; a failing `err` changes nothing.
/// Clauses on content speak where the store, or `out`, tells it. The words of the clauses stand in `specs/Headline.antt`.
pub fn run_words<S: Store, O: Sink, E: Sink, R: Runner>(
    alloc: Global,
    words: &[String],
    store: &mut S,
    out: &mut O,
    err: &mut E,
    journal: &mut Journal,
    runner: &mut R,
) -> Status
    requires { journal.old ≡ [] }

    // With status 0 the journal has one record for each query, in order: legal, each of its versions standing for the query, and
    // its rows an answer. `out` grew by their printed texts, and by nothing else.
    ensures done { result ≡ status.Done → AnswersAll (S.files store.old) (map string_bytes words.now)
        (left journal.old (O.taken out.old)) (left journal.new (O.taken out.new)) }

    // Usage comes exactly where the words say no command, and then all is left alone.
    ensures usage { result ≡ status.Usage ↔ IsMisused (map string_bytes words.now) }
    ensures untouched { IsMisused (map string_bytes words.now) → IsUntouched store.old store.new out.old out.new journal.old journal.new runner.old runner.new }

    // A refusal is that of the course, behind the records and texts before it; and where the course has one, it comes.
    ensures refused { IsTrue (is_refusal result)
        → IsRefusedWith (S.files store.old) (map string_bytes words.now)
        (left journal.old (O.taken out.old)) (left journal.new (O.taken out.new)) result }
    ensures always { IsTheRefusal (S.files store.old) (map string_bytes words.now) result }

    // In all: how the run ended, and what stands in the journal and in `out` after a failure too.
    ensures ends { EndsSo (S.files store.old) (map string_bytes words.now) (S.opened store.new)
        (left journal.old (O.taken out.old)) (left journal.new (O.taken out.new)) result }
    ensures completes { Completes (S.files store.old) (map string_bytes words.now) result
        (Rises S.faults store.old store.new) (Rises O.faults out.old out.new) }

    // The runner ran exactly the runs of the records, record after record.
    ensures ran { result ≢ status.Memory → HasRun journal.old journal.new (R.ran runner.old) (R.ran runner.new) }

    // Told files stay. No count falls; the store's faults rise with ReadFault, its misses with Missing, and the faults of
    // `out` with WriteFault, and with no other answer.
    ensures store { IsRunEnd S.files S.faults S.misses store.old store.new result }
    ensures sink { IsSinkStep {A = Unit {0}} status.WriteFault (O.faults out.old) (O.faults out.new) (Err result) }
    ensures named { IsTrue (is_answer result) }
{
    let mut place = FaultPlace::new(alloc);
    let end = answered(alloc, words, store, out, journal, runner, &mut place);
    report(alloc, err, end, &place);
    end
}

/// Tells on `err` that the words could not be had, for this status, and hands the status on.
pub fn refused_words<E: Sink>(alloc: Global, err: &mut E, end: Status) -> Status
    ensures { result ≡ end }
{
    report(alloc, err, end, &FaultPlace::new(alloc));
    end
}
