//! The tables that a plan scans.

ghost use Rattle.std.specs.Prelude.{◌≡◌, ◌++◌, IfOk, OnOk};
ghost use Rattle.aqe_logical.specs.Nodes as spec;

use crate::Logical;
use aqe_base::Memory;
use std::alloc::Global;

/// The numbers of the tables that a plan scans, from left to right.
///
/// A table comes as often as it is scanned.
pub fn scans(alloc: Global, plan: &Logical) -> Result<Vec<u32>, Memory>
    ensures { IfOk result (λ found. found.items ≡ spec.scans plan.now) }
{
    let mut found = Vec::new(alloc);
    push_scans(&mut found, plan)?;
    Ok(found)
}

/// Appends the numbers of the tables that the plan scans.
#[tactic(auto, using(crate::proofs::ScanSteps::scan_steps))]
fn push_scans(found: &mut Vec<u32>, plan: &Logical) -> Result<(), Memory>
    ensures { OnOk result (found.new.items ≡ found.old.items ++ spec.scans plan.now) }
{
    match plan {
        Logical::Scan { table, .. } => {
            found.push(*table)?;
            Ok(())
        }
        Logical::OneRow
        | Logical::Empty { .. }
        | Logical::Held { .. }
        | Logical::HeldPartial { .. } => Ok(()),
        Logical::Filter { child, .. }
        | Logical::Project { child, .. }
        | Logical::Aggregate { child, .. }
        | Logical::Sort { child, .. }
        | Logical::Limit { child, .. }
        | Logical::Sampled { child, .. } => push_scans(found, child.get()),
        Logical::Join { left, right, .. } => {
            push_scans(found, left.get())?;
            push_scans(found, right.get())?;
            Ok(())
        }
        Logical::Union { left, right } => {
            push_scans(found, left.get())?;
            push_scans(found, right.get())?;
            Ok(())
        }
    }
}
