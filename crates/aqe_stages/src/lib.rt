//! What a physical plan gives: the rows of each of its parts, from tables and from what stages hold.
#![tactic(auto)]

mod laws;

pub use laws::{
    later_stages_keep_cells, later_stages_keep_parts, made_stages_keep_parts,
    made_stages_read_below, parts_are_as_many_as_counted, parts_need_their_reads,
    tasks_need_their_reads,
};
