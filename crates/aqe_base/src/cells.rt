//! The cells of an exchange: one for each map and reducer.

use crate::Listing;

/// The cells of the maps from `m0` up to `m1` and the reducers from `r0` up to `r1`, each without its end.
#[derive(Clone, Copy, Debug, PartialEq, Eq, Drop)]
pub struct Rect {
    /// The first map.
    pub m0: u32,
    /// The map behind the last one.
    pub m1: u32,
    /// The first reducer.
    pub r0: u32,
    /// The reducer behind the last one.
    pub r1: u32,
}

/// The sizes of the cells of a stage in bytes. The cell of map m and reducer r stands at m * reducers + r.
#[derive(Clone, Copy, Debug, Drop)]
pub struct CellSizes<'a> {
    /// The number of maps.
    pub maps: u32,
    /// The number of reducers.
    pub reducers: u32,
    /// The sizes, map by map.
    pub cells: &'a [u128],
}

/// Sizes in bytes, as of the partitions or the maps of a stage.
pub type Sizes = Listing<u128>;

/// Rectangles of cells in order.
pub type Rects = Listing<Rect>;
