//! The numbers of tables, found by hashes of their names.

ghost use Rattle.std.specs.Prelude.{ℕ, ◌≡◌, [], OnOk, OnErr};
ghost use Rattle.aqe_tables.specs.Index.{Adds, Keeps, mixed, name_hash as hash_of_name, numbers_under};

use aqe_values::{Listing, Memory};
use indexmap::IndexMap;
use std::alloc::Global;

/// What the hash of a name begins with.
const FIRST_HASH: u64 = 0xcbf2_9ce4_8422_2325;

/// What the hash is multiplied with at each byte.
const FACTOR: u64 = 0x0000_0100_0000_01b3;

fn mix(hash: u64, byte: u8) -> u64
    ensures { result ≡ mixed hash byte }
{
    (hash ^ byte.to_ascii_lowercase() as u64).wrapping_mul(FACTOR)
}

/// The hash of a name, whatever the cases of its ASCII letters.
#[tactic(auto, unfolding(crate::specs::Index::name_hash))]
pub(crate) fn name_hash(name: &str) -> u64
    ensures { result ≡ hash_of_name name.now }
{
    name.as_bytes()
        .iter()
        .fold(FIRST_HASH, |hash, byte| mix(hash, *byte))
}

/// The numbers of tables, under the hashes of their names.
#[derive(Drop)]
pub(crate) struct NameIndex {
    alloc: Global,
    numbers: IndexMap<u64, Listing<u32>>,
}

impl NameIndex {
    /// The index without numbers. It takes no memory until the first `add`.
    pub(crate) fn new(alloc: Global) -> NameIndex
        ensures { (hash : ℕ) → numbers_under result.numbers hash ≡ [] }
    {
        NameIndex {
            alloc,
            numbers: IndexMap::new(alloc),
        }
    }

    /// The numbers of the tables whose names have this hash.
    pub(crate) fn numbers(&self, hash: u64) -> &[u32]
        ensures { result.now ≡ numbers_under self.now.numbers hash }
    {
        match self.numbers.get(&hash) {
            Some(numbers) => numbers.slice(),
            None => &[],
        }
    }

    /// Adds the number of a table whose name has this hash.
    pub(crate) fn add(&mut self, hash: u64, number: u32) -> Result<(), Memory>
        ensures added { OnOk result (Adds self.old.numbers self.new.numbers hash number) }
        ensures kept { OnErr result (Keeps self.old.numbers self.new.numbers) }
    {
        if let Some(numbers) = self.numbers.get_mut(&hash) {
            return numbers.push(number);
        }
        let mut numbers = Listing::new(self.alloc);
        numbers.push(number)?;
        match self.numbers.insert(hash, numbers) {
            Ok(_) => Ok(()),
            Err(_) => Err(Memory),
        }
    }
}
