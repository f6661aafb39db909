//! Flags of stages.

ghost use Rattle.std.specs.Prelude.{◌≡◌, ◌==◌, IfOk, false, length, replicate};
ghost use Rattle.aqe_needs.specs.Flags.{is_named, noted, IsWithoutLast};

use aqe_base::{Memory, StageId};
use std::alloc::Global;
use std::marker::Model;

/// Flags of stages, from stage 0 on.
#[derive(Drop)]
pub(crate) struct Flags {
    items: Vec<bool>,
}

impl Model for Flags {
    ghost use Rattle.std.specs.Prelude.{Bool, List};

    ghost Value = { List Bool };

    ghost view = { λ f. f.items.items };
}

impl Flags {
    /// Flags of so many stages, none of which is set.
    pub(crate) fn fresh(alloc: Global, count: usize) -> Result<Flags, Memory>
        ensures { IfOk result (λ flags. flags ≡ replicate count false) }
    {
        let items = vec![in alloc; false; count]?;
        Ok(Flags { items })
    }

    /// How many flags there are.
    pub(crate) fn len(&self) -> usize
        ensures { result ≡ length self.now }
    {
        self.items.len()
    }

    /// Sets the flag of a stage, if it has one.
    pub(crate) fn set(&mut self, stage: StageId)
        ensures { self.new ≡ noted (λ s. stage.0 == s) 0 self.old }
    {
        let place = stage.0 as usize;
        if place < self.items.len() {
            self.items[place] = true;
        }
    }

    /// Sets the flag of a stage, if one is named and has one.
    pub(crate) fn set_named(&mut self, stage: Option<StageId>)
        ensures { self.new ≡ noted (is_named stage) 0 self.old }
    {
        match stage {
            Some(stage) => self.set(stage),
            None => {}
        }
    }

    /// Takes the last flag away.
    pub(crate) fn pop(&mut self) -> Option<bool>
        ensures { IsWithoutLast self.old result self.new }
    {
        self.items.pop()
    }
}
