//! Whole runs over files in memory: calls that fail, and calls that the run does not make.

use aqe_base::{Bytes, Status};
use aqe_cli::run_words;
use aqe_journal::Journal;
use aqe_store::{
    Calls, Files, MemorySink, MemoryStore, Name, SteadyStore, StoreCall, StoreKind, WriteNumbers,
};
use aqe_task::TaskRunner;
use std::alloc::Global;
use std::test::Fail;

const SCRIPT: &str =
    "CREATE TABLE t (a INT, b STRING) USING csv LOCATION 't'; SELECT 1; SELECT * FROM t";

const FIRST: &str = "_c0\n1\n\\.\n";

const BOTH: &str = "_c0\n1\n\\.\na\tb\n1\ta\n2\t\\N\n\\.\n";

/// Files of these paths and texts.
pub(crate) fn held(alloc: Global, texts: &[(&str, &str)]) -> Result<Files, Fail> {
    let mut held = Files::new(alloc);
    for (path, text) in texts {
        let bytes = Bytes::from_vec(Vec::from_slice(alloc, text.as_bytes())?);
        held.push((Name::copy_of(alloc, path)?, bytes))?;
    }
    Ok(held)
}

/// The script, its table and a file that it has no use for.
fn files(alloc: Global) -> Result<Files, Fail> {
    held(
        alloc,
        &[
            ("q.sql", SCRIPT),
            ("t/0.csv", "1,a\n2,\n"),
            ("t/_x", "9,z\n"),
        ],
    )
}

/// `run` and the path of a script.
pub(crate) fn words(alloc: Global, path: &str) -> Result<Vec<String>, Fail> {
    let mut words = Vec::new(alloc);
    words.push(String::from_str(alloc, "run")?)?;
    words.push(String::from_str(alloc, path)?)?;
    Ok(words)
}

pub(crate) fn sink(alloc: Global, room: u64) -> Result<MemorySink, Fail> {
    Ok(MemorySink::new(alloc, room, WriteNumbers::new(alloc))?)
}

/// A sink of which one write fails.
fn failing_sink(alloc: Global, number: u32) -> Result<MemorySink, Fail> {
    let mut failing = WriteNumbers::new(alloc);
    failing.push(number)?;
    Ok(MemorySink::new(alloc, 1000, failing)?)
}

/// A store over the files of which one call fails.
fn failing_store(alloc: Global, kind: StoreKind, number: u32) -> Result<MemoryStore, Fail> {
    let mut failing = Calls::new(alloc);
    failing.push(StoreCall { kind, number })?;
    Ok(MemoryStore::new(alloc, files(alloc)?, failing))
}

/// How a run ends of which one call of the store fails.
fn end_with(
    alloc: Global,
    kind: StoreKind,
    number: u32,
    out: &mut MemorySink,
) -> Result<Status, Fail> {
    let mut store = failing_store(alloc, kind, number)?;
    let mut err = sink(alloc, 1000)?;
    let words = words(alloc, "q.sql")?;
    Ok(run_words(
        alloc,
        words.as_slice(),
        &mut store,
        out,
        &mut err,
        &mut Journal::new(alloc),
        &mut TaskRunner::new(alloc),
    ))
}

#[test]
fn a_failing_call_ends_the_run_behind_earlier_results(rt: HostRuntime) -> Result<(), Fail> {
    let alloc = rt.alloc();
    // The script takes the first opening and two takes, the table one listing, one opening and two takes.
    for (kind, number, status, text) in [
        (StoreKind::Begin, 1, Status::ReadFault, ""),
        (StoreKind::Take, 1, Status::ReadFault, ""),
        (StoreKind::Take, 2, Status::ReadFault, ""),
        (StoreKind::List, 1, Status::ReadFault, FIRST),
        (StoreKind::Begin, 2, Status::ReadFault, FIRST),
        (StoreKind::Take, 3, Status::ReadFault, FIRST),
        (StoreKind::Take, 4, Status::ReadFault, FIRST),
    ] {
        let mut out = sink(alloc, 1000)?;
        let end = end_with(alloc, kind, number, &mut out)?;
        assert_eq!(rt; end, status, "call {number}");
        assert_eq!(rt; out.bytes(), text.as_bytes(), "call {number}");
    }
    Ok(())
}

#[test]
fn a_call_that_the_run_does_not_make_may_fail(rt: HostRuntime) -> Result<(), Fail> {
    let alloc = rt.alloc();
    for (kind, number) in [
        (StoreKind::List, 2),
        (StoreKind::Begin, 3),
        (StoreKind::Take, 5),
    ] {
        let mut out = sink(alloc, 1000)?;
        let end = end_with(alloc, kind, number, &mut out)?;
        assert_eq!(rt; end, Status::Done, "call {number}");
        assert_eq!(rt; out.bytes(), BOTH.as_bytes(), "call {number}");
    }
    Ok(())
}

/// How a run over a store that never fails ends.
fn steady_end(
    alloc: Global,
    path: &str,
    out: &mut MemorySink,
    err: &mut MemorySink,
) -> Result<Status, Fail> {
    let mut store = SteadyStore::new(alloc, files(alloc)?);
    let words = words(alloc, path)?;
    Ok(run_words(
        alloc,
        words.as_slice(),
        &mut store,
        out,
        err,
        &mut Journal::new(alloc),
        &mut TaskRunner::new(alloc),
    ))
}

#[test]
fn a_run_over_a_steady_store_is_done(rt: HostRuntime) -> Result<(), Fail> {
    let alloc = rt.alloc();
    let mut out = sink(alloc, 1000)?;
    let mut err = sink(alloc, 1000)?;
    assert_eq!(rt;
        steady_end(alloc, "q.sql", &mut out, &mut err)?,
        Status::Done
    );
    assert_eq!(rt; out.bytes(), BOTH.as_bytes());
    assert_eq!(rt; err.bytes().len(), 0);
    Ok(())
}

#[test]
fn a_script_that_is_not_held_is_missing(rt: HostRuntime) -> Result<(), Fail> {
    let alloc = rt.alloc();
    let mut out = sink(alloc, 1000)?;
    let mut err = sink(alloc, 1000)?;
    assert_eq!(rt;
        steady_end(alloc, "none.sql", &mut out, &mut err)?,
        Status::Missing
    );
    assert_eq!(rt; out.bytes().len(), 0);
    assert_eq!(rt; err.bytes(), b"aqe: Missing none.sql\n".as_slice());
    Ok(())
}

#[test]
fn a_failing_write_ends_the_run(rt: HostRuntime) -> Result<(), Fail> {
    let alloc = rt.alloc();
    for (number, status, text) in [
        (1, Status::WriteFault, ""),
        (2, Status::WriteFault, FIRST),
        (3, Status::Done, BOTH),
    ] {
        let mut out = failing_sink(alloc, number)?;
        let mut err = sink(alloc, 1000)?;
        let end = steady_end(alloc, "q.sql", &mut out, &mut err)?;
        assert_eq!(rt; end, status, "write {number}");
        assert_eq!(rt; out.bytes(), text.as_bytes(), "write {number}");
    }
    Ok(())
}

#[test]
fn a_full_sink_has_a_front_of_the_text(rt: HostRuntime) -> Result<(), Fail> {
    let alloc = rt.alloc();
    let mut out = sink(alloc, 12)?;
    let mut err = sink(alloc, 1000)?;
    let end = steady_end(alloc, "q.sql", &mut out, &mut err)?;
    assert_eq!(rt; end, Status::WriteFault);
    assert_eq!(rt; out.bytes(), b"_c0\n1\n\\.\na\tb".as_slice());
    Ok(())
}

#[test]
fn a_failing_err_changes_nothing(rt: HostRuntime) -> Result<(), Fail> {
    let alloc = rt.alloc();
    let mut out = sink(alloc, 1000)?;
    let mut err = failing_sink(alloc, 1)?;
    assert_eq!(rt;
        steady_end(alloc, "none.sql", &mut out, &mut err)?,
        Status::Missing
    );
    assert_eq!(rt; out.bytes().len() + err.bytes().len(), 0);
    Ok(())
}
