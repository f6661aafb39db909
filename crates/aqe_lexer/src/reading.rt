//! What a text is read as.

use crate::{Fault, Tokens};

/// What a text is read as.
#[derive(Drop)]
pub enum Reading {
    /// All of it, as these tokens.
    Whole(Tokens),
    /// Up to a fault at this offset.
    Broken { fault: Fault, at: usize },
}
