//! The record of each query that was run, and what makes a record legal.
#![tactic(auto)]

mod journal;
mod laws;
mod record;

pub use journal::Journal;
pub use laws::{
    legal_rows_are_an_answer, legal_versions_stand, one_record_is_legal, stages_of_runs_run,
};
pub use record::{
    FateList, Finish, NoteOutputs, QueryRecord, RunList, RunNote, StageNote, StageNotes,
    VersionNote, VersionNotes,
};
