//! The outputs that are kept of one stage.

ghost use Rattle.std.specs.Prelude.{◌≡◌, ◌<◌, ◌^◌, [], length, IsSome, is_some, Some, None, OnOk, OnErr, unwrap_or};
ghost use Rattle.std.specs.Option.{option_map};
ghost use Rattle.std.specs.Map.{keys_of};
ghost use Rattle.std.specs.List.Sorted.{IsStrictlySortedBy};
ghost use Rattle.std.specs.Ordering.{nat_cmp};
ghost use Rattle.aqe_blocks.specs.Cells.{size_of_cells, rows_of_cells};
ghost use Rattle.aqe_blocks.specs.Kept.{ChangesMap, HaveCells, of_map, with_output, without_output, size_of_kept, rows_of_kept};

use crate::map_output::MapOutput;
use aqe_base::Memory;
use std::alloc::Global;
use std::collections::BTreeMap;
use std::marker::Model;

/// The outputs of the maps of a stage, with their size and number of rows.
#[derive(Drop)]
pub(crate) struct StageOutputs {
    outputs: BTreeMap<u32, MapOutput>,
    size: u128,
    rows: u128,
}

impl Model for StageOutputs {
    ghost use Rattle.aqe_blocks.specs.Kept.{StageKept, IsTotalled};

    ghost Value = { StageKept };

    ghost view = { λ s. s.outputs.entries };

    ghost invariant = { λ s. IsTotalled s.outputs.entries s.size s.rows };
}

impl StageOutputs {
    /// No output.
    pub fn new(alloc: Global) -> StageOutputs
        ensures { result ≡ [] }
    {
        StageOutputs {
            outputs: BTreeMap::new(alloc),
            size: 0,
            rows: 0,
        }
    }

    /// The output of a map.
    pub fn output(&self, map: u32) -> &MapOutput
        requires { IsSome (of_map self.now map) }
        ensures value { of_map self.now map ≡ Some result.now }
        ensures alike { HaveCells (length result.now) self.now }
    {
        &self.outputs[&map]
    }

    /// Whether the output of a map is kept.
    pub fn is_kept(&self, map: u32) -> bool
        ensures { result ≡ is_some (of_map self.now map) }
    {
        self.outputs.contains_key(&map)
    }

    /// The number of outputs.
    pub fn maps(&self) -> usize
        ensures value { result ≡ length self.now }
        ensures order { IsStrictlySortedBy nat_cmp (keys_of self.now) }
    {
        self.outputs.len()
    }

    /// The size of all outputs.
    pub fn size(&self) -> u128
        ensures { result ≡ size_of_kept self.now }
    {
        self.size
    }

    /// The number of rows of all outputs.
    pub fn rows(&self) -> u128
        ensures { result ≡ rows_of_kept self.now }
    {
        self.rows
    }

    /// Keeps the output of a map in place of one that stands there.
    pub fn keep(&mut self, map: u32, output: MapOutput) -> Result<(), Memory>
        requires { HaveCells (length output) self.old }
        ensures at { OnOk result (ChangesMap self.old self.new map (Some output)) }
        ensures value { OnOk result (self.new ≡ with_output self.old map output) }
        ensures memory { OnErr result (self.new ≡ self.old) }
    {
        prove!(self.outputs.len() < 1 << 63);
        let size = self.size + output.size() as u128;
        let rows = self.rows + output.count() as u128;
        let replaced = self.outputs.insert(map, output)?;
        self.size = size - size_if_any(&replaced);
        self.rows = rows - rows_if_any(&replaced);
        Ok(())
    }

    /// Hands the output of a map out.
    pub fn release(&mut self, map: u32) -> MapOutput
        requires { IsSome (of_map self.old map) }
        ensures value { of_map self.old map ≡ Some result }
        ensures at { ChangesMap self.old self.new map None }
        ensures others { self.new ≡ without_output self.old map }
        ensures alike { HaveCells (length result) self.old }
    {
        let Some(output) = self.outputs.remove(&map) else {
            unreachable!()
        };
        self.size -= output.size() as u128;
        self.rows -= output.count() as u128;
        output
    }
}

/// The size of an output, if there is one.
fn size_if_any(output: &Option<MapOutput>) -> u128
    ensures { result ≡ unwrap_or (option_map size_of_cells output.now) 0 }
{
    match output {
        Some(output) => output.size() as u128,
        None => 0,
    }
}

/// The number of rows of an output, if there is one.
fn rows_if_any(output: &Option<MapOutput>) -> u128
    ensures { result ≡ unwrap_or (option_map rows_of_cells output.now) 0 }
{
    match output {
        Some(output) => output.count() as u128,
        None => 0,
    }
}
