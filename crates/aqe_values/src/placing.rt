//! The hash of a key row, and the part of an exchange that it names.

ghost use Rattle.std.specs.Prelude.{◌≡◌, ◌<◌, ◌≤◌, [], ◌∷◌, length, slice_index};
ghost use Rattle.std.specs.Int.{w32, from_le_bytes};
ghost use Rattle.aqe_values.specs.Murmur.{mixed, finished, widened, text_mixed, value_hash, row_hash, hash_place};

use crate::{Row, Value};

const FIRST_FACTOR: u32 = 0xcc9e_2d51;

const SECOND_FACTOR: u32 = 0x1b87_3593;

const MIX_FACTOR: u32 = 5;

const MIX_ADDEND: u32 = 0xe654_6b64;

const FIRST_FINISHER: u32 = 0x85eb_ca6b;

const SECOND_FINISHER: u32 = 0xc2b2_ae35;

/// The seed of the hash that places rows.
const PLACE_SEED: i32 = 42;

/// Mixes a word into a hash.
fn mix(hash: u32, word: u32) -> u32
    ensures { result ≡ mixed hash word }
{
    let scrambled = word
        .wrapping_mul(FIRST_FACTOR)
        .rotate_left(15)
        .wrapping_mul(SECOND_FACTOR);
    (hash ^ scrambled)
        .rotate_left(13)
        .wrapping_mul(MIX_FACTOR)
        .wrapping_add(MIX_ADDEND)
}

/// Finishes a hash with the number of bytes that were mixed in.
fn finish(hash: u32, bytes: u32) -> u32
    ensures { result ≡ finished hash bytes }
{
    let mut hash = hash ^ bytes;
    hash = (hash ^ (hash >> 16)).wrapping_mul(FIRST_FINISHER);
    hash = (hash ^ (hash >> 13)).wrapping_mul(SECOND_FINISHER);
    hash ^ (hash >> 16)
}

/// A byte as a word, with its sign.
fn widen(byte: u8) -> u32
    ensures { result ≡ widened byte }
{
    if byte < 128 {
        byte as u32
    } else {
        byte as u32 + 0xffff_ff00
    }
}

/// The first four bytes as a word, the least first.
fn first_word(bytes: &[u8]) -> u32
    requires { 4 ≤ length bytes.now }
    ensures { result ≡ from_le_bytes w32 (slice_index bytes.now 0 ∷ slice_index bytes.now 1
        ∷ slice_index bytes.now 2 ∷ slice_index bytes.now 3 ∷ []) }
{
    u32::from_le_bytes([bytes[0], bytes[1], bytes[2], bytes[3]])
}

/// Mixes the bytes of a text into a hash.
#[tactic(auto, using(crate::proofs::Words::word_first, crate::proofs::Words::bytes_left))]
fn mix_text(hash: u32, bytes: &[u8]) -> u32
    ensures { result ≡ text_mixed hash bytes.now }
{
    let mut mixed = hash;
    let mut rest = bytes;
    'words: while rest.len() >= 4 {
        mixed = mix(mixed, first_word(rest));
        rest = rest.split_at(4).1;
    }
    rest.iter()
        .fold(mixed, |hash, byte| mix(hash, widen(*byte)))
}

/// The hash behind one more value.
fn hash_of_value(hash: u32, value: &Value) -> u32
    ensures { result ≡ value_hash hash value.now }
{
    match value {
        Value::Null => hash,
        Value::Boolean(b) => finish(mix(hash, u32::from(*b)), 4),
        Value::Int(n) => finish(mix(hash, n.cast_unsigned()), 4),
        Value::BigInt(n) => {
            let bits = n.cast_unsigned();
            let low = (bits % 4_294_967_296) as u32;
            let high = (bits / 4_294_967_296) as u32;
            finish(mix(mix(hash, low), high), 8)
        }
        Value::Text(text) => {
            let bytes = text.as_str().as_bytes();
            finish(mix_text(hash, bytes), bytes.len() as u32)
        }
    }
}

/// The hash of a key row: Murmur3 over its values in turn. NULLs leave it as it is.
pub fn murmur(key: &Row, seed: i32) -> i32
    ensures { result ≡ row_hash key.now seed }
{
    key.values()
        .iter()
        .fold(
            seed.cast_unsigned(),
            |hash, value| hash_of_value(hash, value),
        )
        .cast_signed()
}

/// The part of `n` that a row with this key belongs to.
pub fn place_of(key: &Row, n: u32) -> u32
    requires { 1 ≤ n }
    ensures value { result ≡ hash_place n key.now }
    ensures bound { result < n }
{
    i64::from(murmur(key, PLACE_SEED)).rem_euclid(i64::from(n)) as u32
}
