//! Files in memory with the one of them that is open: what both stores in memory are made of.

ghost use Rattle.std.specs.Prelude.{◌≡◌, ◌≤◌, ◌<◌, ◌+◌, ◌^◌, ◌↔◌, ◌∷◌, ◌++◌, Some, None, Err, IsTrue, IfOk, OnOk, OnErr, MatchOption, Contains, length, min, take};
ghost use Rattle.aqe_store.specs.Files.{content_of, IsHeld, IsBelow, IsFolder, IsListing};
ghost use Rattle.aqe_store.specs.Told.{bytes_left};
ghost use Rattle.aqe_store.specs.Shelf.{open_on, left_on, Gathers};
ghost use Rattle.aqe_store.specs.Causes.{HasCauses, Rose};

use crate::count::raise;
use crate::name::{Files, Name, Names};
use crate::store::StoreFail;
use aqe_base::{Bytes, Memory};
use std::alloc::Global;

/// The content under a path.
fn find_content<'a>(files: &'a [(Name, Bytes)], path: &str) -> Option<&'a Bytes>
    ensures { MatchOption result (content_of files.now path.now ≡ None)
        (λ content. content_of files.now path.now ≡ Some content.now) }
{
    'entries: for entry in files {
        if entry.0.as_str() == path {
            return Some(&entry.1);
        }
    }
    None
}

/// What follows a folder and its slash in a path.
fn below<'a>(folder: &str, path: &'a str) -> Option<&'a str>
    ensures { MatchOption result (¬ (IsBelow folder.now path.now))
        (λ rest. path.now ≡ folder.now ++ 47 ∷ rest.now) }
{
    path.strip_prefix(folder)?.strip_prefix('/')
}

/// Whether a text has a slash.
fn has_slash(text: &str) -> bool
    ensures { IsTrue result ↔ Contains text.now 47 }
{
    text.as_bytes().contains(&b'/')
}

/// Whether a name is among the names.
fn holds(names: &Names, name: &str) -> bool
    ensures { IsTrue result ↔ Contains names.now name.now }
{
    'held: for held in names.slice() {
        if held.as_str() == name {
            return true;
        }
    }
    false
}

/// Adds the name of one more path, where it is the path of a file of the folder and the name is new.
/// Tells whether the path lies below the folder.
fn gather(alloc: Global, names: &mut Names, folder: &str, path: &str) -> Result<bool, Memory>
    ensures { IfOk result (λ is_below. Gathers folder.now path.now is_below names.old names.new) }
{
    let Some(rest) = below(folder, path) else {
        return Ok(false);
    };
    if !has_slash(rest) && !holds(names, rest) {
        names.push(Name::copy_of(alloc, rest)?)?;
    }
    Ok(true)
}

/// The names of the files of a folder, if the folder is there.
fn names_of(alloc: Global, files: &[(Name, Bytes)], folder: &str) -> Result<Option<Names>, Memory>
    ensures { IfOk result (λ found. MatchOption found (¬ (IsFolder files.now folder.now))
        (λ names. IsFolder files.now folder.now × IsListing files.now folder.now names)) }
{
    let mut names = Names::new(alloc);
    let mut is_there = false;
    'entries: for entry in files {
        is_there = gather(alloc, &mut names, folder, entry.0.as_str())? || is_there;
    }
    if is_there { Ok(Some(names)) } else { Ok(None) }
}

/// Copies bytes to the front of the piece, as many as there are and as it has room for.
fn fill(bytes: &[u8], piece: &mut [u8]) -> usize
    ensures count { result ≡ min (length piece.old) (length bytes.now) }
    ensures bytes { take result piece.new ≡ take result bytes.now }
{
    let n = piece.len().min(bytes.len());
    piece[..n].copy_from_slice(&bytes[..n]);
    n
}

/// The bytes of a file from a place on, of which there are none where no file has the path.
fn rest_of<'a>(files: &'a [(Name, Bytes)], path: &str, place: u64) -> &'a [u8]
    ensures bytes { result.now ≡ bytes_left files.now (Some (path.now, place)) }
    ensures fits { place + length result.now < 2 ^ 64 }
{
    let Some(content) = find_content(files, path) else {
        return &[];
    };
    let bytes = content.slice();
    match usize::try_from(place) {
        Ok(place) if place <= bytes.len() => &bytes[place..],
        _ => &[],
    }
}

/// Files in memory, of which at most one is open.
#[derive(Drop)]
pub(crate) struct Shelf {
    files: Files,
    path: Option<Name>,
    place: u64,
    misses: u64,
}

impl Shelf {
    /// The files, with none open.
    pub fn new(files: Files) -> Shelf
        ensures { result ≡ record { files = files; path = None; place = 0; misses = 0 } }
    {
        Shelf {
            files,
            path: None,
            place: 0,
            misses: 0,
        }
    }

    /// Counts a file or folder that is not there.
    fn miss(&mut self) -> StoreFail
        ensures result { result ≡ StoreFail.Missing }
        ensures rose { Rose self.old.misses self.new.misses }
        ensures stays { self.old.misses ≤ self.new.misses }
        ensures once { self.new.misses ≤ self.old.misses + 1 }
        ensures others { self.new ≡ record self.old { misses = self.new.misses } }
    {
        raise(&mut self.misses);
        StoreFail::Missing
    }

    /// The names of the plain files of a folder.
    pub fn list(&mut self, alloc: Global, folder: &str) -> Result<Names, StoreFail>
        ensures names { IfOk result (λ names. IsListing self.old.files folder.now names) }
        ensures there { OnOk result (IsFolder self.old.files folder.now) }
        ensures missing { result ≡ Err StoreFail.Missing → ¬ (IsFolder self.old.files folder.now) }
        ensures others { self.new ≡ record self.old { misses = self.new.misses } }
        ensures causes { HasCauses 0 0 self.old.misses self.new.misses result }
    {
        match names_of(alloc, self.files.slice(), folder) {
            Ok(Some(names)) => Ok(names),
            Ok(None) => Err(self.miss()),
            Err(Memory) => Err(StoreFail::Memory),
        }
    }

    /// Closes the open file.
    pub fn close(&mut self)
        ensures { self.new ≡ record self.old { path = None; place = 0 } }
    {
        self.path = None;
        self.place = 0;
    }

    /// Opens a file at its first byte.
    pub fn begin_file(&mut self, alloc: Global, path: &str) -> Result<(), StoreFail>
        ensures opens { OnOk result (open_on self.new ≡ Some (path.now, 0)) }
        ensures closes { OnErr result (open_on self.new ≡ None) }
        ensures there { OnOk result (IsHeld self.old.files path.now) }
        ensures missing { result ≡ Err StoreFail.Missing → ¬ (IsHeld self.old.files path.now) }
        ensures files { self.new.files ≡ self.old.files }
        ensures causes { HasCauses 0 0 self.old.misses self.new.misses result }
    {
        self.close();
        if find_content(self.files.slice(), path).is_none() {
            return Err(self.miss());
        }
        match Name::copy_of(alloc, path) {
            Ok(name) => {
                self.path = Some(name);
                Ok(())
            }
            Err(_) => Err(StoreFail::Memory),
        }
    }

    /// The next bytes of the open file.
    pub fn take(&mut self, piece: &mut [u8]) -> usize
        ensures count { result ≡ min (length piece.old) (length (left_on self.old)) }
        ensures consumes { left_on self.old ≡ take result piece.new ++ left_on self.new }
        ensures moved { self.new ≡ record self.old { place = self.old.place + result } }
    {
        let n = match &self.path {
            Some(path) => fill(
                rest_of(self.files.slice(), path.as_str(), self.place),
                piece,
            ),
            None => 0,
        };
        self.place += n as u64;
        n
    }
}
