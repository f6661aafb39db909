//! Groups of partitions that stand next to one another.

use aqe_base::Listing;

/// Groups of partitions in order: the number of the first partition of a group, and that behind its last one.
pub type Groups = Listing<(u32, u32)>;
