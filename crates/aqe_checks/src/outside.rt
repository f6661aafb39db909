//! Stores and sinks: the order of calls in whole runs, and what the real file system does.

use aqe_base::Bytes;
use aqe_store::{
    Calls, FileStore, Files, MemorySink, MemoryStore, Name, Names, ReadBuffer, ReadFail, Sink,
    SinkFail, StdSink, SteadyStore, Store, StoreCall, StoreFail, StoreKind, WriteNumbers, read_all,
    read_with, write_all,
};
use std::alloc::Global;
use std::process::Abort;
use std::test::Fail;
use std::{fs, process};

fn bytes_of(alloc: Global, text: &str) -> Result<Bytes, Fail> {
    let mut bytes = Bytes::new(alloc);
    for byte in text.as_bytes() {
        bytes.push(*byte)?;
    }
    Ok(bytes)
}

/// Two files of the folder `t`, one of them written twice, and one of a folder in it.
fn table_files(alloc: Global) -> Result<Files, Fail> {
    let mut files = Files::new(alloc);
    for (path, text) in [
        ("t/a.csv", "12"),
        ("t/old/c.csv", "5"),
        ("t/b.csv", ""),
        ("t/a.csv", "9"),
    ] {
        files.push((Name::copy_of(alloc, path)?, bytes_of(alloc, text)?))?;
    }
    Ok(files)
}

fn has(names: &Names, text: &str) -> bool {
    names.slice().iter().any(|name| name.as_str() == text)
}

/// Whether the path is read as this text, where at most so many bytes are taken.
fn reads<S: Store>(
    alloc: Global,
    store: &mut S,
    path: &str,
    max: u64,
    text: &str,
) -> Result<bool, Fail> {
    let bytes = read_all(alloc, store, path, max)?;
    Ok(bytes.slice() == text.as_bytes())
}

/// Whether reading the path, with at most so many bytes, fails so.
fn fails<S: Store>(alloc: Global, store: &mut S, path: &str, max: u64, fail: ReadFail) -> bool {
    match read_all(alloc, store, path, max) {
        Ok(_) => false,
        Err(other) => other == fail,
    }
}

/// Whether the folder has so many files, this one among them.
fn lists<S: Store>(
    alloc: Global,
    store: &mut S,
    folder: &str,
    count: usize,
    name: &str,
) -> Result<bool, Fail> {
    let names = store.list(alloc, folder)?;
    Ok(names.len() == count && has(&names, name))
}

fn is_missing<S: Store>(alloc: Global, store: &mut S, folder: &str) -> bool {
    matches!(store.list(alloc, folder), Err(StoreFail::Missing))
}

fn is_failing<S: Store>(alloc: Global, store: &mut S, folder: &str) -> bool {
    matches!(store.list(alloc, folder), Err(StoreFail::Failed))
}

/// A store with the two files of `t` and the one of `t/old`.
fn expect_table<S: Store>(rt: &impl Abort, alloc: Global, store: &mut S) -> Result<(), Fail> {
    assert!(rt; lists(alloc, store, "t", 2, "a.csv")?);
    assert!(rt; lists(alloc, store, "t", 2, "b.csv")?);
    assert!(rt; lists(alloc, store, "t/old", 1, "c.csv")?);
    assert!(rt; is_missing(alloc, store, "t/a.csv"));
    assert!(rt; reads(alloc, store, "t/a.csv", 2, "12")?);
    assert!(rt; reads(alloc, store, "t/b.csv", 0, "")?);
    assert!(rt; fails(alloc, store, "t/a.csv", 1, ReadFail::TooLong));
    assert!(rt; fails(alloc, store, "t", 9, ReadFail::Missing));
    Ok(())
}

#[test]
fn a_steady_store_lists_and_reads(rt: HostRuntime) -> Result<(), Fail> {
    let alloc = rt.alloc();
    let mut store = SteadyStore::new(alloc, table_files(alloc)?);
    expect_table(&rt, alloc, &mut store)
}

/// Whether the path is read as this text, with this room for its pieces.
fn reads_with<S: Store>(
    alloc: Global,
    store: &mut S,
    buffer: &mut ReadBuffer,
    path: &str,
    text: &str,
) -> Result<bool, Fail> {
    let bytes = read_with(alloc, store, buffer, path, 2)?;
    Ok(bytes.slice() == text.as_bytes())
}

/// The longer file first, so that its bytes stand in the buffer when the next one comes.
fn expect_many<S: Store>(
    rt: &impl Abort,
    alloc: Global,
    store: &mut S,
    buffer: &mut ReadBuffer,
) -> Result<(), Fail> {
    assert!(rt; reads_with(alloc, store, buffer, "t/a.csv", "12")?);
    assert!(rt; reads_with(alloc, store, buffer, "t/b.csv", "")?);
    assert!(rt; reads_with(alloc, store, buffer, "t/old/c.csv", "5")?);
    Ok(())
}

fn with_buffer<S: Store>(rt: &impl Abort, alloc: Global, store: &mut S) -> Result<(), Fail> {
    let mut buffer = ReadBuffer::new(alloc)?;
    expect_many(rt, alloc, store, &mut buffer)
}

#[test]
fn one_buffer_serves_for_many_files(rt: HostRuntime) -> Result<(), Fail> {
    let alloc = rt.alloc();
    let mut store = SteadyStore::new(alloc, table_files(alloc)?);
    with_buffer(&rt, alloc, &mut store)
}

/// The second listing, the third opening and the first take.
fn failing_calls(alloc: Global) -> Result<Calls, Fail> {
    let mut failing = Calls::new(alloc);
    for (kind, number) in [
        (StoreKind::List, 2),
        (StoreKind::Begin, 3),
        (StoreKind::Take, 1),
    ] {
        failing.push(StoreCall { kind, number })?;
    }
    Ok(failing)
}

/// A store whose calls fail at those numbers and at no others.
fn expect_failing<S: Store>(rt: &impl Abort, alloc: Global, store: &mut S) -> Result<(), Fail> {
    assert!(rt; lists(alloc, store, "t", 2, "a.csv")?);
    assert!(rt; is_failing(alloc, store, "t"));
    assert!(rt; lists(alloc, store, "t", 2, "a.csv")?);
    // the first take, then the third opening
    assert!(rt; fails(alloc, store, "t/a.csv", 2, ReadFail::Failed));
    assert!(rt; reads(alloc, store, "t/a.csv", 2, "12")?);
    assert!(rt; fails(alloc, store, "t/a.csv", 2, ReadFail::Failed));
    assert_eq!(rt; store.take(&mut [0; 4])?, 0);
    assert!(rt; reads(alloc, store, "t/a.csv", 2, "12")?);
    Ok(())
}

#[test]
fn a_memory_store_fails_at_its_numbers(rt: HostRuntime) -> Result<(), Fail> {
    let alloc = rt.alloc();
    let failing = failing_calls(alloc)?;
    let mut store = MemoryStore::new(alloc, table_files(alloc)?, failing);
    expect_failing(&rt, alloc, &mut store)
}

/// A sink with room for three bytes whose second write fails.
fn small_sink(alloc: Global) -> Result<MemorySink, Fail> {
    let mut failing = WriteNumbers::new(alloc);
    failing.push(2)?;
    Ok(MemorySink::new(alloc, 3, failing)?)
}

#[test]
fn a_memory_sink_has_its_room(rt: HostRuntime) -> Result<(), Fail> {
    let mut sink = small_sink(rt.alloc())?;
    assert_eq!(rt; write_all(&mut sink, b"ab"), Ok(()));
    assert_eq!(rt; write_all(&mut sink, b"c"), Err(SinkFail::Failed));
    assert_eq!(rt; write_all(&mut sink, b"de"), Err(SinkFail::Failed));
    assert_eq!(rt; sink.bytes(), b"abd".as_slice());
    assert_eq!(rt; sink.write(&[]), Ok(0));
    Ok(())
}

/// A new folder for a test.
fn folder_for(rt: &HostRuntime, test: &str) -> Result<String, Fail> {
    let id = process::id(rt.process());
    let folder = format!(in rt.alloc(); "/tmp/aqe_checks_{test}_{id}")?;
    if fs::exists(rt, folder.as_str())? {
        fs::remove_dir_all(rt, folder.as_str())?;
    }
    fs::create_dir_all(rt, format!(in rt.alloc(); "{folder}/t/old")?.as_str())?;
    Ok(folder)
}

/// A path in the folder.
fn within(alloc: Global, folder: &str, path: &str) -> Result<String, Fail> {
    let whole = format!(in alloc; "{folder}/{path}")?;
    Ok(whole)
}

/// Writes a file in the folder.
fn write_file(rt: &HostRuntime, folder: &str, path: &str, text: &str) -> Result<(), Fail> {
    let path = within(rt.alloc(), folder, path)?;
    fs::write(rt, path.as_str(), text)?;
    Ok(())
}

/// The listings of a real folder that has two files and a folder in it.
fn expect_listings<S: Store>(
    rt: &impl Abort,
    alloc: Global,
    store: &mut S,
    folder: &str,
) -> Result<(), Fail> {
    let table = within(alloc, folder, "t")?;
    assert!(rt; lists(alloc, store, table.as_str(), 2, "a.csv")?);
    assert!(rt; lists(alloc, store, table.as_str(), 2, "é.csv")?);
    Ok(())
}

/// What is not there is missing; a file in place of a folder, and a folder in place of a file, are failures.
fn expect_refusals<S: Store>(
    rt: &impl Abort,
    alloc: Global,
    store: &mut S,
    folder: &str,
) -> Result<(), Fail> {
    let none = within(alloc, folder, "none")?;
    assert!(rt; is_missing(alloc, store, none.as_str()));
    assert!(rt; fails(alloc, store, none.as_str(), 1, ReadFail::Missing));
    assert!(rt; fails(alloc, store, folder, 1, ReadFail::Failed));
    Ok(())
}

fn expect_contents<S: Store>(
    rt: &impl Abort,
    alloc: Global,
    store: &mut S,
    folder: &str,
) -> Result<(), Fail> {
    let file = within(alloc, folder, "t/a.csv")?;
    assert!(rt; reads(alloc, store, file.as_str(), 2, "12")?);
    assert!(rt; fails(alloc, store, file.as_str(), 1, ReadFail::TooLong));
    assert!(rt; is_failing(alloc, store, file.as_str()));
    Ok(())
}

fn expect_folder<S: Store>(
    rt: &impl Abort,
    alloc: Global,
    store: &mut S,
    folder: &str,
) -> Result<(), Fail> {
    expect_listings(rt, alloc, store, folder)?;
    expect_refusals(rt, alloc, store, folder)?;
    expect_contents(rt, alloc, store, folder)
}

#[test]
fn a_file_store_reads_a_folder(rt: HostRuntime) -> Result<(), Fail> {
    let folder = folder_for(&rt, "files")?;
    write_file(&rt, folder.as_str(), "t/a.csv", "12")?;
    write_file(&rt, folder.as_str(), "t/é.csv", "")?;
    let mut store = FileStore::new(&rt);
    expect_folder(&rt, rt.alloc(), &mut store, folder.as_str())?;
    fs::remove_dir_all(&rt, folder.as_str())?;
    Ok(())
}

#[test]
fn a_writer_takes_a_text(rt: HostRuntime) -> Result<(), Fail> {
    let folder = folder_for(&rt, "sink")?;
    let path = within(rt.alloc(), folder.as_str(), "out")?;
    let mut sink = StdSink::new(fs::create(&rt, path.as_str())?);
    assert_eq!(rt; write_all(&mut sink, b"12\n"), Ok(()));
    assert_eq!(rt; fs::read_to_string(&rt, path.as_str())?.as_str(), "12\n");
    // a file that is open for reading only refuses each write
    let mut sink = StdSink::new(fs::open(&rt, path.as_str())?);
    assert_eq!(rt; write_all(&mut sink, b"3"), Err(SinkFail::Failed));
    fs::remove_dir_all(&rt, folder.as_str())?;
    Ok(())
}
