//! The numbers of tasks, maps, reducers and executors, and lists of stages.

use crate::{Listing, StageId};

/// A task of a stage, numbered from 0 as the parts of the stage's plan are.
#[derive(Clone, Copy, Debug, PartialEq, Eq, PartialOrd, Ord, Hash, Drop)]
pub struct TaskId(pub u32);

/// A map side of an exchange: the task that wrote an output, numbered from 0.
#[derive(Clone, Copy, Debug, PartialEq, Eq, PartialOrd, Ord, Hash, Drop)]
pub struct MapId(pub u32);

/// A reducer of an exchange: one cell of each map output, numbered from 0.
#[derive(Clone, Copy, Debug, PartialEq, Eq, PartialOrd, Ord, Hash, Drop)]
pub struct ReduceId(pub u32);

/// An executor, which tasks run on and whose loss takes the outputs of its tasks with it.
#[derive(Clone, Copy, Debug, PartialEq, Eq, PartialOrd, Ord, Hash, Drop)]
pub struct ExecId(pub u32);

/// Stages in order.
pub type StageList = Listing<StageId>;
