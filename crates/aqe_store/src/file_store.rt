//! The store over the real file system.

ghost use Rattle.std.specs.Prelude.{◌≡◌, ◌≤◌, None, Err, IfOk, length};
ghost use Rattle.aqe_store.specs.Told.{opened_of};
ghost use Rattle.aqe_store.specs.Causes.{HasCauses};

use crate::count::raise;
use crate::name::{Name, Names};
use crate::store::{Store, StoreFail};
use std::alloc::{AllocError, Global};
use std::fs::{File, Files};
use std::io::{Error, ErrorKind, Read};

/// The files of a runtime as a store. It tells no files.
///
/// An error of the kind `NotFound` is a miss where a file or folder is looked for, and each other error is a
/// fault. What a path or a folder names is the system's affair: a link counts as what it leads to.
#[derive(Drop)]
pub struct FileStore<'a, R: Files> {
    rt: &'a R,
    file: Option<R::File>,
    path: Option<Name>,
    place: u64,
    faults: u64,
    misses: u64,
}

/// How many bytes of names are asked for at once.
const PIECE: usize = 4096;

/// The refusal that an error of the system stands for.
fn refusal_of(error: Error) -> StoreFail {
    match error.kind() {
        ErrorKind::NotFound => StoreFail::Missing,
        _ => StoreFail::Failed,
    }
}

/// The text, and then the other one.
fn join(alloc: Global, text: &str, more: &str) -> Result<String, AllocError> {
    let mut joined = String::from_str(alloc, text)?;
    joined.push_str(more)?;
    Ok(joined)
}

/// Whether a path names a plain file. One that names nothing does not.
fn is_plain<R: Files>(rt: &R, path: &str) -> Result<bool, StoreFail> {
    match rt.metadata(path) {
        Ok(metadata) => Ok(metadata.is_file()),
        Err(error) => match refusal_of(error) {
            StoreFail::Missing => Ok(false),
            fail => Err(fail),
        },
    }
}

/// Whether a name is that of a hidden entry, which no table reads.
fn is_hidden(name: &[u8]) -> bool {
    name.starts_with(b"_") || name.starts_with(b".")
}

/// Adds a name of a folder, if it is that of a plain file.
///
/// A runtime takes paths that are texts alone, so it cannot be asked what an entry is whose name is no text:
/// a hidden one is passed over, and any other is a failure, so that no row of a table is lost unseen.
fn keep_plain<R: Files>(
    alloc: Global,
    rt: &R,
    folder: &str,
    name: &[u8],
    names: &mut Names,
) -> Result<(), StoreFail> {
    let Ok(name) = std::str::from_utf8(name) else {
        return if is_hidden(name) {
            Ok(())
        } else {
            Err(StoreFail::Failed)
        };
    };
    if name.is_empty() || name == "." || name == ".." {
        return Ok(());
    }
    let path = join(alloc, folder, name)?;
    if is_plain(rt, path.as_str())? {
        names.push(Name::copy_of(alloc, name)?)?;
    }
    Ok(())
}

/// Reads whole names of a folder, each ended by a zero, to the front of the piece.
fn read_names<D: Read>(entries: &mut D, piece: &mut [u8]) -> Result<usize, StoreFail>
    ensures { IfOk result (λ n. n ≤ length piece.new) }
{
    entries.read(piece).map_err(refusal_of)
}

/// The names of the plain files of a folder.
fn plain_files<R: Files>(alloc: Global, rt: &R, folder: &str) -> Result<Names, StoreFail> {
    let folder = join(alloc, folder, "/")?;
    let mut entries = rt.open_dir(folder.as_str()).map_err(refusal_of)?;
    let mut piece = vec![in alloc; 0u8; PIECE]?;
    let mut names = Names::new(alloc);
    for _ in 0..u64::MAX {
        let n = read_names(&mut entries, &mut piece)?;
        if n == 0 {
            return Ok(names);
        }
        for name in piece[..n].split(|byte| *byte == 0) {
            keep_plain(alloc, rt, folder.as_str(), name, &mut names)?;
        }
    }
    Err(StoreFail::Failed)
}

impl<'a, R: Files> FileStore<'a, R> {
    /// A store over the files of a runtime, with none open.
    pub fn new(rt: &'a R) -> FileStore<'a, R>
        ensures closed { result.path ≡ None }
        ensures faults { result.faults ≡ 0 }
        ensures misses { result.misses ≡ 0 }
    {
        FileStore {
            rt,
            file: None,
            path: None,
            place: 0,
            faults: 0,
            misses: 0,
        }
    }
}

/// Counts a refusal: a failure among the faults, and what is missing among the misses.
fn counted(fail: StoreFail, faults: &mut u64, misses: &mut u64) -> StoreFail
    ensures same { result ≡ fail }
    ensures counts { HasCauses {A = Unit {0}} faults.old faults.new misses.old misses.new (Err result) }
{
    match fail {
        StoreFail::Failed => raise(faults),
        StoreFail::Missing => raise(misses),
        StoreFail::Memory => {}
    }
    fail
}

impl<'a, R: Files> Store for FileStore<'a, R> {
    ghost files = { λ _. None };

    ghost opened = { λ s. opened_of s.path s.place };

    ghost faults = { λ s. s.faults };

    ghost misses = { λ s. s.misses };

    fn list(&mut self, alloc: Global, folder: &str) -> Result<Names, StoreFail> {
        match plain_files(alloc, self.rt, folder) {
            Ok(names) => Ok(names),
            Err(fail) => Err(counted(fail, &mut self.faults, &mut self.misses)),
        }
    }

    fn begin_file(&mut self, alloc: Global, path: &str) -> Result<(), StoreFail> {
        self.file = None;
        self.path = None;
        self.place = 0;
        let Ok(name) = Name::copy_of(alloc, path) else {
            return Err(StoreFail::Memory);
        };
        match File::open(self.rt, path) {
            Ok(file) => {
                self.file = Some(file);
                self.path = Some(name);
                Ok(())
            }
            Err(error) => Err(counted(refusal_of(error), &mut self.faults, &mut self.misses)),
        }
    }

    fn take(&mut self, piece: &mut [u8]) -> Result<usize, StoreFail> {
        if self.path.is_none() {
            return Ok(0);
        }
        let taken = match &mut self.file {
            Some(file) => file.read(piece).ok(),
            None => Some(0),
        };
        match taken.and_then(|n| Some((n, self.place.checked_add(n as u64)?))) {
            Some((n, place)) => {
                self.place = place;
                Ok(n)
            }
            None => {
                raise(&mut self.faults);
                Err(StoreFail::Failed)
            }
        }
    }
}
