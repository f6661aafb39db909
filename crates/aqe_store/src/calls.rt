//! The calls of a store or a sink that are to fail, by their numbers.

use aqe_base::Listing;

/// Which call of a store.
#[derive(Clone, Copy, Debug, PartialEq, Eq, Drop)]
pub enum StoreKind {
    /// A call of `list`.
    List,
    /// A call of `begin_file`.
    Begin,
    /// A call of `take`.
    Take,
}

/// One call of a store: the one of a kind with a number, where the first call of each kind has the number 1.
#[derive(Clone, Copy, Debug, PartialEq, Eq, Drop)]
pub struct StoreCall {
    /// Which calls are counted.
    pub kind: StoreKind,
    /// Its number among them, from 1.
    pub number: u32,
}

/// Calls of a store.
pub type Calls = Listing<StoreCall>;

/// The numbers of write calls, of which the first has the number 1.
pub type WriteNumbers = Listing<u32>;
