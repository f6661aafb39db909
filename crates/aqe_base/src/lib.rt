//! The words that every crate of the engine shares: identifiers, kinds, lists, and how a run ends.
#![tactic(auto)]

mod cells;
mod event;
mod ids;
mod join_kind;
mod listing;
mod memory;
mod stage_id;
mod status;

pub use cells::{CellSizes, Rect, Rects, Sizes};
pub use event::Event;
pub use ids::{ExecId, MapId, ReduceId, StageList, TaskId};
pub use join_kind::{JoinKind, Side, can_build, can_split};
pub use listing::{Bytes, Listing};
pub use memory::Memory;
pub use stage_id::StageId;
pub use status::{AnalysisKind, LimitKind, Status, SyntaxKind, TableKind};
