//! What the calls made of the rows of one group.

ghost use Rattle.std.specs.Prelude.{◌≡◌, length, IfOk, OnOk};
ghost use Rattle.aqe_operators.specs.Forms.{IsNarrow};
ghost use Rattle.aqe_operators.specs.Gathering.{started, stepped};

use crate::form::Form;
use crate::merging::nothing;
use aqe_logical::AggCall;
use aqe_values::{Memory, Row, Value};
use std::alloc::Global;
use std::marker::Model;

/// A value for each call, which contracts see as the list of these.
#[derive(Drop)]
pub(crate) struct Tally {
    pub values: Vec<Value>,
}

impl Model for Tally {
    ghost use Rattle.std.specs.Prelude.{List};
    ghost use Rattle.aqe_values.specs.declared.value.Value.{Value as ValueData};

    ghost Value = { List ValueData };

    ghost view = { λ t. t.values.items };
}

impl Tally {
    /// The tally of no row.
    pub fn start(alloc: Global, calls: &[AggCall]) -> Result<Tally, Memory>
        ensures { IfOk result (λ tally. tally ≡ started calls.now) }
    {
        let mut values = Vec::with_capacity(alloc, calls.len())?;
        'calls: for call in calls {
            values.push(nothing(call.fun))?;
        }
        Ok(Tally { values })
    }

    /// The tally of one row.
    pub fn of_row(
        alloc: Global,
        form: &Form<'_>,
        calls: &[AggCall],
        row: &Row,
    ) -> Result<Tally, Memory>
        requires { IsNarrow form.now calls.now }
        ensures { IfOk result (λ tally. tally ≡ stepped form.now 0 calls.now (started calls.now) row.now) }
    {
        let mut tally = Tally::start(alloc, calls)?;
        tally.add(alloc, form, calls, row)?;
        Ok(tally)
    }

    /// Adds a row.
    pub fn add(
        &mut self,
        alloc: Global,
        form: &Form<'_>,
        calls: &[AggCall],
        row: &Row,
    ) -> Result<(), Memory>
        requires width { IsNarrow form.now calls.now }
        requires calls { length self.old ≡ length calls.now }
        ensures { OnOk result (self.new ≡ stepped form.now 0 calls.now self.old row.now) }
    {
        step_values(alloc, form, calls, &mut self.values, row)
    }
}

/// Adds a row to the value of each call.
fn step_values(
    alloc: Global,
    form: &Form<'_>,
    calls: &[AggCall],
    values: &mut [Value],
    row: &Row,
) -> Result<(), Memory>
    requires width { IsNarrow form.now calls.now }
    requires calls { length values.old ≡ length calls.now }
    ensures { OnOk result (values.new ≡ stepped form.now 0 calls.now values.old row.now) }
{
    'calls: for (i, call) in calls.iter().enumerate() {
        form.add_part(alloc, i, call, &mut values[i], row)?;
    }
    Ok(())
}
