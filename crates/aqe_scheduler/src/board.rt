//! The board of a query.

ghost use Rattle.std.specs.Prelude.{◌≡◌, ◌<◌, ◌^◌, ◌∷◌, [], ◌++◌, ℕ, List, Some, None, length, is_some, slice_get, option_map, IfOk, IfErr};
ghost use Rattle.aqe_scheduler.specs.History.{Entry, Adds, Marks, Happens};
ghost use Rattle.aqe_scheduler.specs.Looks.{available, done, fails, stopped, streak as streak_in, whole};
ghost use Rattle.aqe_scheduler.specs.Fates.{fate_of, noted};
ghost use Rattle.aqe_scheduler.specs.Rest.{rest_of};
ghost use Rattle.aqe_scheduler.specs.Tables.{births_on};
ghost use Rattle.aqe_scheduler.specs.Stands.{StandsFor};

use crate::fate::Fate;
use crate::fates::fate_of;
use crate::need::{Reads, StageKindTag};
use crate::settle::{mark, settle};
use crate::stage::Stage;
use crate::task::Tasks;
use crate::{cursors, looks, rest};
use aqe_base::{Event, MapId, Memory, StageId, TaskId};
use std::alloc::Global;
use std::marker::Model;

/// The board of a query. Its contracts speak of every history that it stands for: the births, marks of need and events that it was
/// told, in their order.
#[derive(Drop)]
pub struct Board {
    alloc: Global,
    stages: Vec<Stage>,
    firsts: Vec<usize>,
}

impl Model for Board {
    ghost use Rattle.std.specs.Prelude.{List};
    ghost use Rattle.aqe_scheduler.specs.Cursors.{AreDone};
    ghost use Rattle.aqe_scheduler.specs.Stands.{AreFew};
    ghost use Rattle.aqe_scheduler.specs.Tables.{births_on};
    ghost use Rattle.aqe_scheduler.specs.declared.stage.Stage.{Stage as StageData};

    ghost Value = { List StageData };

    ghost view = { λ b. b.stages.items };

    ghost invariant = { λ b. AreFew (births_on b.stages.items) × AreDone b.stages.items b.firsts.items };
}

impl Board {
    /// The board of a query of which nothing is known yet. It takes no memory.
    pub fn new(alloc: Global) -> Board
        ensures stands { StandsFor result [] }
        ensures births { births_on result ≡ [] }
    {
        Board {
            alloc,
            stages: Vec::new(alloc),
            firsts: Vec::new(alloc),
        }
    }

    /// Adds a stage of so many tasks, which is not needed yet, and answers its number. Nothing else takes memory: what its tasks
    /// will want is taken here. After `Memory` the board is as it was.
    pub fn birth(&mut self, kind: StageKindTag, tasks: u32, reads: Reads) -> Result<StageId, Memory>
        requires few { length (births_on self.old) < 2 ^ 32 }
        requires each { length reads ≡ tasks }
        ensures number { IfOk result (λ id. id.0 ≡ length (births_on self.old)) }
        ensures births { IfOk result (λ id. births_on self.new ≡ births_on self.old ++ record { kind = kind; reads = reads } ∷ []) }
        ensures stands { IfOk result (λ id. (h : List Entry) → StandsFor self.old h
            → StandsFor self.new (h ++ Adds (record { kind = kind; reads = reads }) ∷ [])) }
        ensures stays { IfErr result (λ e. self.new ≡ self.old) }
    {
        let number = StageId(self.stages.len() as u32);
        let tasks = Tasks::fresh(self.alloc, tasks)?;
        self.firsts.push(0)?;
        self.stages.push(Stage {
            kind,
            needed: false,
            streak: 0,
            reads,
            tasks,
        })?;
        Ok(number)
    }

    /// Notes whether the stage is needed from now on.
    pub fn need(&mut self, stage: StageId, needed: bool)
        requires { stage.0 < length (births_on self.old) }
        ensures stands { (h : List Entry) → StandsFor self.old h → StandsFor self.new (h ++ Marks stage.0 needed ∷ []) }
        ensures births { births_on self.new ≡ births_on self.old }
    {
        mark(&mut self.stages, stage, needed);
    }

    /// Takes an event and answers its fate.
    pub fn take(&mut self, event: Event) -> Fate
        ensures stands { (h : List Entry) → StandsFor self.old h
            → (result ≡ fate_of (noted h) event) × StandsFor self.new (h ++ Happens event ∷ []) }
        ensures births { births_on self.new ≡ births_on self.old }
    {
        let fate = fate_of(&self.stages, &self.firsts, event);
        settle(&mut self.stages, event, fate);
        cursors::follow(&self.stages, &mut self.firsts, event, fate);
        fate
    }

    /// Whether the task is done.
    pub fn is_done(&self, stage: StageId, task: TaskId) -> bool
        ensures { (h : List Entry) → StandsFor self.now h → result ≡ done (noted h) stage.0 task.0 }
    {
        looks::is_done(&self.stages, stage.0 as usize, task.0 as usize)
    }

    /// Whether the stage is born and all its tasks are done.
    pub fn is_whole(&self, stage: StageId) -> bool
        ensures { (h : List Entry) → StandsFor self.now h → result ≡ whole (noted h) stage.0 }
    {
        cursors::is_whole(&self.stages, &self.firsts, stage.0 as usize)
    }

    /// Whether the output of the map is there.
    pub fn is_available(&self, stage: StageId, map: MapId) -> bool
        ensures { (h : List Entry) → StandsFor self.now h → result ≡ available (noted h) stage.0 map.0 }
    {
        looks::is_available(&self.stages, stage.0 as usize, map.0 as usize)
    }

    /// The lowest task of the lowest stage that may end next when no event is left.
    pub fn next_rest(&self) -> Option<(StageId, TaskId)>
        ensures { (h : List Entry) → StandsFor self.now h → option_map (λ p. (p.0.0, p.1.0)) result ≡ rest_of (noted h) }
    {
        match rest::next_rest(&self.stages, &self.firsts) {
            Some((stage, task)) => Some((StageId(stage as u32), TaskId(task as u32))),
            None => None,
        }
    }

    /// The failures that were counted against the task. The count stops at 18446744073709551615.
    pub fn failures(&self, stage: StageId, task: TaskId) -> u64
        ensures { (h : List Entry) → StandsFor self.now h → result ≡ stopped (fails (noted h) stage.0 task.0) }
    {
        looks::failures(&self.stages, stage.0 as usize, task.0 as usize)
    }

    /// The failed fetches of the stage's tasks since one of them was last counted. The count stops at 18446744073709551615.
    pub fn streak(&self, stage: StageId) -> u64
        ensures { (h : List Entry) → StandsFor self.now h → result ≡ stopped (streak_in (noted h) stage.0) }
    {
        looks::streak(&self.stages, stage.0 as usize)
    }
}
