//! Reading a whole file of a store.

ghost use Rattle.std.specs.Prelude.{◌≡◌, ◌≢◌, ◌≤◌, ◌<◌, ◌+◌, Some, None, Err, length, vec_len, IfOk, OnOk, OnErr, IfSome};
ghost use Rattle.std.specs.Io.KnownBytes.{IsAtEnd};
ghost use Rattle.aqe_store.specs.Files.{content_of, IsHeld};
ghost use Rattle.aqe_store.specs.Told.{WhereTold, KeepsFiles, left_of};
ghost use Rattle.aqe_store.specs.Reading.{IsLonger, HasReadCauses, Came, CameNext, TakesAtMost};

use crate::store::{Store, StoreFail};
use aqe_base::{Bytes, Memory};
use std::alloc::Global;

/// Why a file was not read.
#[derive(Clone, Copy, Debug, PartialEq, Eq, Drop)]
pub enum ReadFail {
    /// The store failed to read, and its count of faults rose.
    Failed,
    /// The file is not there, and the store's count of misses rose.
    Missing,
    /// The file has more bytes than are taken.
    TooLong,
    /// An allocation failed.
    Memory,
}

/// How many bytes are asked of a store at once.
const PIECE: usize = 65536;

/// The room that a piece is taken into. Made once, it serves for any number of files.
#[derive(Drop)]
pub struct ReadBuffer {
    piece: Vec<u8>,
    ghost full: { vec_len piece ≡ 65536 },
}

impl ReadBuffer {
    /// Room for one piece.
    pub fn new(alloc: Global) -> Result<ReadBuffer, Memory> {
        match vec![in alloc; 0u8; PIECE] {
            Ok(piece) => Ok(ReadBuffer { piece }),
            Err(_) => Err(Memory),
        }
    }
}

/// How many bytes to ask for: a piece, and no more than one byte past the most that are taken.
fn room_for(max: u64, have: u64) -> usize
    requires { have ≤ max }
    ensures some { 0 < result }
    ensures piece { result ≤ PIECE }
    ensures fits { have + result ≤ max + 1 }
{
    let left = max - have;
    if left < PIECE as u64 {
        left as usize + 1
    } else {
        PIECE
    }
}

/// Takes one piece of the open file and appends it.
fn take_piece<S: Store>(
    store: &mut S,
    piece: &mut [u8],
    bytes: &mut Vec<u8>,
) -> Result<usize, ReadFail>
    requires { 0 < length piece.old }
    ensures bound { IfOk result (λ n. n ≤ length piece.old) }
    ensures next { IfOk result (λ n. CameNext (S.files store.old) (S.files store.new)
        (S.opened store.old) (S.opened store.new) bytes.old.items bytes.new.items n) }
    ensures keeps { KeepsFiles (S.files store.old) (S.files store.new) }
    ensures causes { HasReadCauses (S.faults store.old) (S.faults store.new)
        (S.misses store.old) (S.misses store.new) result }
    ensures within { TakesAtMost (S.opened store.old) (S.opened store.new) (length piece.old) }
    ensures there { result ≢ Err ReadFail.Missing }
    ensures short { result ≢ Err ReadFail.TooLong }
{
    match store.take(piece) {
        Ok(n) => match bytes.extend_from_slice(&piece[..n]) {
            Ok(()) => Ok(n),
            Err(_) => Err(ReadFail::Memory),
        },
        Err(_) => Err(ReadFail::Failed),
    }
}

/// Takes all bytes of the file that was just opened, unless they are more than the most.
fn take_all<S: Store>(
    store: &mut S,
    piece: &mut [u8],
    bytes: &mut Vec<u8>,
    max: u64,
) -> Result<(), ReadFail>
    requires piece { length piece.old ≡ PIECE }
    requires none { vec_len bytes.old ≡ 0 }
    ensures all { OnOk result (Came (S.files store.old) (S.files store.new)
        (S.opened store.old) (S.opened store.new) bytes.new.items) }
    ensures bound { OnOk result (vec_len bytes.new ≤ max) }
    ensures at_end { OnOk result (IsAtEnd (left_of (S.files store.new) (S.opened store.new))) }
    ensures long { result ≡ Err ReadFail.TooLong → Came (S.files store.old) (S.files store.new)
        (S.opened store.old) (S.opened store.new) bytes.new.items }
    ensures over { result ≡ Err ReadFail.TooLong → vec_len bytes.new ≡ max + 1 }
    ensures keeps { KeepsFiles (S.files store.old) (S.files store.new) }
    ensures causes { HasReadCauses (S.faults store.old) (S.faults store.new)
        (S.misses store.old) (S.misses store.new) result }
    ensures within { TakesAtMost (S.opened store.old) (S.opened store.new) (max + 1) }
    ensures there { result ≢ Err ReadFail.Missing }
{
    'pieces: while bytes.len() as u64 <= max {
        let room = room_for(max, bytes.len() as u64);
        if take_piece(store, &mut piece[..room], bytes)? == 0 {
            return Ok(());
        }
    }
    Err(ReadFail::TooLong)
}

/// Opens a file at its first byte.
fn open_path<S: Store>(alloc: Global, store: &mut S, path: &str) -> Result<(), ReadFail>
    ensures opens { OnOk result (S.opened store.new ≡ Some (path.now, 0)) }
    ensures closes { OnErr result (S.opened store.new ≡ None) }
    ensures there { OnOk result (WhereTold (S.files store.old) (λ told. IsHeld told path.now)) }
    ensures missing { result ≡ Err ReadFail.Missing
        → WhereTold (S.files store.old) (λ told. ¬ (IsHeld told path.now)) }
    ensures short { result ≢ Err ReadFail.TooLong }
    ensures keeps { KeepsFiles (S.files store.old) (S.files store.new) }
    ensures causes { HasReadCauses (S.faults store.old) (S.faults store.new)
        (S.misses store.old) (S.misses store.new) result }
{
    match store.begin_file(alloc, path) {
        Ok(()) => Ok(()),
        Err(StoreFail::Failed) => Err(ReadFail::Failed),
        Err(StoreFail::Missing) => Err(ReadFail::Missing),
        Err(StoreFail::Memory) => Err(ReadFail::Memory),
    }
}

/// The whole content of a file of at most `max` bytes.
///
/// The path is opened once, and no more than `max + 1` bytes are taken.
pub fn read_all<S: Store>(
    alloc: Global,
    store: &mut S,
    path: &str,
    max: u64,
) -> Result<Bytes, ReadFail>
    ensures content { IfOk result (λ bytes. WhereTold (S.files store.old)
        (λ told. content_of told path.now ≡ Some bytes)) }
    ensures all { IfOk result (λ bytes. S.opened store.new ≡ Some (path.now, length bytes)) }
    ensures bound { IfOk result (λ bytes. length bytes ≤ max) }
    ensures missing { result ≡ Err ReadFail.Missing
        → WhereTold (S.files store.old) (λ told. ¬ (IsHeld told path.now)) }
    ensures long { result ≡ Err ReadFail.TooLong → S.opened store.new ≡ Some (path.now, max + 1) }
    ensures longer { result ≡ Err ReadFail.TooLong
        → WhereTold (S.files store.old) (λ told. IsLonger told path.now max) }
    // Whatever comes, no other path is open, and no more bytes were taken.
    ensures within { IfSome (S.opened store.new)
        (λ file. (file.0 ≡ path.now) × (file.1 ≤ max + 1)) }
    ensures keeps { KeepsFiles (S.files store.old) (S.files store.new) }
    ensures causes { HasReadCauses (S.faults store.old) (S.faults store.new)
        (S.misses store.old) (S.misses store.new) result }
{
    open_path(alloc, store, path)?;
    let Ok(mut buffer) = ReadBuffer::new(alloc) else {
        return Err(ReadFail::Memory);
    };
    let mut bytes = Vec::new(alloc);
    take_all(store, &mut buffer.piece, &mut bytes, max)?;
    Ok(Bytes::from_vec(bytes))
}

/// The same, with room for the pieces from the caller: for many small files that room is made and filled once.
pub fn read_with<S: Store>(
    alloc: Global,
    store: &mut S,
    buffer: &mut ReadBuffer,
    path: &str,
    max: u64,
) -> Result<Bytes, ReadFail>
    ensures content { IfOk result (λ bytes. WhereTold (S.files store.old)
        (λ told. content_of told path.now ≡ Some bytes)) }
    ensures all { IfOk result (λ bytes. S.opened store.new ≡ Some (path.now, length bytes)) }
    ensures bound { IfOk result (λ bytes. length bytes ≤ max) }
    ensures missing { result ≡ Err ReadFail.Missing
        → WhereTold (S.files store.old) (λ told. ¬ (IsHeld told path.now)) }
    ensures long { result ≡ Err ReadFail.TooLong → S.opened store.new ≡ Some (path.now, max + 1) }
    ensures longer { result ≡ Err ReadFail.TooLong
        → WhereTold (S.files store.old) (λ told. IsLonger told path.now max) }
    // Whatever comes, no other path is open, and no more bytes were taken.
    ensures within { IfSome (S.opened store.new)
        (λ file. (file.0 ≡ path.now) × (file.1 ≤ max + 1)) }
    ensures keeps { KeepsFiles (S.files store.old) (S.files store.new) }
    ensures causes { HasReadCauses (S.faults store.old) (S.faults store.new)
        (S.misses store.old) (S.misses store.new) result }
{
    open_path(alloc, store, path)?;
    let mut bytes = Vec::new(alloc);
    take_all(store, &mut buffer.piece, &mut bytes, max)?;
    Ok(Bytes::from_vec(bytes))
}
