//! The program: real files, the standard output and error, and the words of the command line.
#![tactic(auto)]

use aqe_base::Status;
use aqe_cli::{refused_words, run_words};
use aqe_journal::Journal;
use aqe_store::{FileStore, StdSink};
use aqe_task::TaskRunner;
use std::env::Env;
use std::process::ExitCode;
use std::{env, io};

/// The words after the program's name. They are an error where one is no UTF-8.
fn words_of(rt: &(impl Env + AllocGlobal)) -> io::Result<Vec<String>> {
    let mut words = Vec::new(rt.alloc());
    for word in env::args(rt)?.skip(1) {
        words.push(word)?;
    }
    Ok(words)
}

/// What it means that there are no words: memory is wanting, or they cannot be read.
fn no_words(error: io::Error) -> Status {
    match error.kind() {
        io::ErrorKind::OutOfMemory => Status::Memory,
        _ => Status::Usage,
    }
}

fn main(rt: HostRuntime) -> ExitCode {
    let mut err = StdSink::new(rt.stderr());
    let status = match words_of(&rt) {
        Ok(words) => run_words(
            rt.alloc(),
            words.as_slice(),
            &mut FileStore::new(&rt),
            &mut StdSink::new(rt.stdout()),
            &mut err,
            &mut Journal::new(rt.alloc()),
            &mut TaskRunner::new(rt.alloc()),
        ),
        Err(error) => refused_words(rt.alloc(), &mut err, no_words(error)),
    };
    ExitCode::from(status.code())
}
