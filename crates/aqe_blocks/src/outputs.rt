//! The outputs that are kept, stage by stage and map by map.

ghost use Rattle.std.specs.Prelude.{◌≡◌, ◌<◌, [], length, IsSome, is_some, Some, None, OnOk, OnErr};
ghost use Rattle.std.specs.BTreeMap.{is_at};
ghost use Rattle.std.specs.Map.{lookup, keys_of};
ghost use Rattle.std.specs.List.Sorted.{IsStrictlySortedBy};
ghost use Rattle.std.specs.Ordering.{nat_cmp};
ghost use Rattle.aqe_blocks.specs.Kept.{Becomes, Changes, HaveCells, kept_of, output_at, with_output, without_output, size_of_kept, rows_of_kept};

use crate::map_output::MapOutput;
use crate::stage_outputs::StageOutputs;
use aqe_base::{MapId, Memory, StageId};
use std::alloc::Global;
use std::collections::BTreeMap;
use std::marker::Model;

/// The outputs of maps that are kept, which contracts see as lists: of the stages, and of each stage's outputs by map.
#[derive(Drop)]
pub struct Outputs {
    alloc: Global,
    stages: BTreeMap<u32, StageOutputs>,
}

impl Model for Outputs {
    ghost use Rattle.aqe_blocks.specs.Kept.{AllKept};

    ghost Value = { AllKept };

    ghost view = { λ o. o.stages.entries };
}

impl Outputs {
    /// Keeps none. It takes no memory.
    pub fn new(alloc: Global) -> Outputs
        ensures { result ≡ [] }
    {
        Outputs {
            alloc,
            stages: BTreeMap::new(alloc),
        }
    }

    /// Keeps the output of a map of a stage, in place of one that stands there.
    pub fn keep(&mut self, stage: StageId, map: MapId, output: MapOutput) -> Result<(), Memory>
        requires { HaveCells (length output) (kept_of self.old stage.0) }
        ensures at { OnOk result (Changes self.old self.new stage.0 map.0 (Some output)) }
        ensures stage { OnOk result (Becomes self.old self.new stage.0 (with_output (kept_of self.old stage.0) map.0 output)) }
        ensures memory { OnErr result (self.new ≡ self.old) }
    {
        match self.stages.get_mut(&stage.0) {
            Some(kept) => kept.keep(map.0, output),
            None => self.keep_first(stage, map, output),
        }
    }

    /// Keeps the first output of a stage.
    fn keep_first(&mut self, stage: StageId, map: MapId, output: MapOutput) -> Result<(), Memory>
        requires { lookup (is_at (nat_cmp stage.0)) self.old ≡ None }
        ensures at { OnOk result (Changes self.old self.new stage.0 map.0 (Some output)) }
        ensures stage { OnOk result (Becomes self.old self.new stage.0 (with_output [] map.0 output)) }
        ensures memory { OnErr result (self.new ≡ self.old) }
    {
        let mut kept = StageOutputs::new(self.alloc);
        kept.keep(map.0, output)?;
        self.stages.insert(stage.0, kept)?;
        Ok(())
    }

    /// The output of a map of a stage.
    pub fn output(&self, stage: StageId, map: MapId) -> &MapOutput
        requires { IsSome (output_at self.now stage.0 map.0) }
        ensures value { output_at self.now stage.0 map.0 ≡ Some result.now }
        ensures alike { HaveCells (length result.now) (kept_of self.now stage.0) }
    {
        self.stages[&stage.0].output(map.0)
    }

    /// Hands the output of a map of a stage out.
    pub fn release(&mut self, stage: StageId, map: MapId) -> MapOutput
        requires { IsSome (output_at self.old stage.0 map.0) }
        ensures value { output_at self.old stage.0 map.0 ≡ Some result }
        ensures at { Changes self.old self.new stage.0 map.0 None }
        ensures stage { Becomes self.old self.new stage.0 (without_output (kept_of self.old stage.0) map.0) }
    {
        let Some(kept) = self.stages.get_mut(&stage.0) else {
            unreachable!()
        };
        kept.release(map.0)
    }

    /// Whether the output of a map of a stage is kept.
    pub fn is_kept(&self, stage: StageId, map: MapId) -> bool
        ensures { result ≡ is_some (output_at self.now stage.0 map.0) }
    {
        match self.stages.get(&stage.0) {
            Some(kept) => kept.is_kept(map.0),
            None => false,
        }
    }

    /// The number of maps of a stage whose output is kept.
    pub fn maps(&self, stage: StageId) -> usize
        ensures value { result ≡ length (kept_of self.now stage.0) }
        ensures order { IsStrictlySortedBy nat_cmp (keys_of (kept_of self.now stage.0)) }
    {
        match self.stages.get(&stage.0) {
            Some(kept) => kept.maps(),
            None => 0,
        }
    }

    /// The size in bytes of all outputs that are kept of a stage.
    pub fn total(&self, stage: StageId) -> u128
        requires { 0 < length (kept_of self.now stage.0) }
        ensures { result ≡ size_of_kept (kept_of self.now stage.0) }
    {
        self.stages[&stage.0].size()
    }

    /// The number of rows of all outputs that are kept of a stage.
    pub fn row_count(&self, stage: StageId) -> u128
        requires { 0 < length (kept_of self.now stage.0) }
        ensures { result ≡ rows_of_kept (kept_of self.now stage.0) }
    {
        self.stages[&stage.0].rows()
    }
}
