//! Copies of what the clauses of a SELECT come to: one plan is measured, and another is put in order.

ghost use Rattle.std.specs.Prelude.{◌≡◌, Ok, IfOk};

use crate::plans::Selected;
use aqe_base::{Listing, Memory};
use aqe_boxes::both;
use aqe_outputs::{OutputColumn, Outputs};
use aqe_rules::Typed;
use aqe_values::Text;
use std::alloc::Global;

/// What was made, where memory did not run out.
pub(crate) fn or_memory<T: Drop>(made: Result<T, aqe_values::Memory>) -> Result<T, Memory>
    ensures { IfOk result (λ value. made ≡ Ok value) }
{
    match made {
        Ok(value) => Ok(value),
        Err(_) => Err(Memory),
    }
}

/// A copy of each expression.
fn copy_values(alloc: Global, values: &[Typed]) -> Result<Listing<Typed>, Memory>
    ensures { IfOk result (λ copied. copied ≡ values.now) }
{
    let mut copied = Listing::new(alloc);
    'values: for value in values {
        let value = or_memory(value.copy(alloc))?;
        copied.push(value)?;
    }
    Ok(copied)
}

/// A copy of an output column.
fn copy_output(alloc: Global, output: &OutputColumn) -> Result<OutputColumn, Memory>
    ensures { IfOk result (λ copied. copied ≡ output.now) }
{
    let name = or_memory(Text::copy_of(alloc, output.name.as_str()));
    let (name, value) = both(name, or_memory(output.value.copy(alloc)))?;
    Ok(OutputColumn { name, value })
}

/// A copy of each output column.
fn copy_outputs(alloc: Global, outputs: &[OutputColumn]) -> Result<Outputs, Memory>
    ensures { IfOk result (λ copied. copied ≡ outputs.now) }
{
    let mut copied = Listing::new(alloc);
    'outputs: for output in outputs {
        let output = copy_output(alloc, output)?;
        copied.push(output)?;
    }
    Ok(copied)
}

/// A copy of HAVING, where there is one.
fn copy_having(alloc: Global, having: &Option<Typed>) -> Result<Option<Typed>, Memory>
    ensures { IfOk result (λ copied. copied ≡ having.now) }
{
    match having {
        Some(value) => {
            let value = or_memory(value.copy(alloc))?;
            Ok(Some(value))
        }
        None => Ok(None),
    }
}

/// A copy of all that the clauses come to.
pub(crate) fn copy_selected(alloc: Global, selected: &Selected) -> Result<Selected, Memory>
    ensures { IfOk result (λ copied. copied ≡ selected.now) }
{
    let below = aqe_logical::copy(alloc, &selected.below);
    let keys = copy_values(alloc, selected.keys.slice());
    let outputs = copy_outputs(alloc, selected.outputs.slice());
    let having = copy_having(alloc, &selected.having);
    let ((below, keys), (outputs, having)) = both(both(below, keys), both(outputs, having))?;
    Ok(Selected {
        below,
        is_grouped: selected.is_grouped,
        keys,
        outputs,
        having,
        distinct: selected.distinct,
    })
}
