//! The parts of an exchange while rows are written into them.

ghost use Rattle.std.specs.Prelude.{◌≡◌, ◌<◌, ◌^◌, [], length, replicate, IfOk, OnOk};
ghost use Rattle.aqe_exchange.specs.Parts.{with_row};

use aqe_base::Memory;
use aqe_blocks::{Cells, MapOutput, measured};
use aqe_values::{Row, Rows};
use std::alloc::Global;
use std::marker::Model;

/// Cells that rows are still put into, which contracts see as the list of these cells.
#[derive(Drop)]
pub struct Parts {
    cells: Vec<Rows>,
}

impl Model for Parts {
    ghost use Rattle.std.specs.Prelude.{List};
    ghost use Rattle.aqe_blocks.specs.Cells.{CellData};

    ghost Value = { List CellData };

    ghost view = { λ p. p.cells.items };
}

impl Parts {
    /// So many cells without rows.
    #[tactic(auto, using(crate::proofs::Placing::one_empty_more))]
    pub fn new(alloc: Global, n: u32) -> Result<Parts, Memory>
        ensures { IfOk result (λ parts. parts ≡ replicate n []) }
    {
        let mut cells = Vec::with_capacity(alloc, n as usize)?;
        'cells: for _ in 0..n {
            cells.push(Rows::new(alloc))?;
        }
        Ok(Parts { cells })
    }

    /// Puts a row behind those of a cell.
    pub fn add(&mut self, place: u32, row: Row) -> Result<(), Memory>
        requires { place < length self.old }
        ensures { OnOk result (self.new ≡ with_row self.old place row) }
    {
        match self.cells[place as usize].push(row) {
            Ok(()) => Ok(()),
            Err(_) => Err(Memory),
        }
    }

    /// The cells as the output of a map.
    pub fn into_output(self, alloc: Global) -> Result<MapOutput, Memory>
        requires { length self < 2 ^ 32 }
        ensures { IfOk result (λ output. output ≡ self) }
    {
        measured(alloc, Cells::from_vec(self.cells))
    }
}
