//! A number alone: the position of an output column.

ghost use Rattle.std.specs.Prelude.{◌≡◌, cond, codes, option_map, [], IfOk};
ghost use Rattle.std.specs.Fmt.{decimal};
ghost use Rattle.aqe_rules.specs.Faults.{Says, Tells};
ghost use Rattle.aqe_rules.specs.Outcomes.{refused, upon};
ghost use Rattle.aqe_rules.specs.Selects as spec;
ghost use Rattle.aqe_base.specs.declared.status.AnalysisKind.TheVariants.{BadPosition};
ghost use Rattle.aqe_ordered.specs.Positions as positions;

use aqe_base::AnalysisKind;
use aqe_expr::Expr;
use aqe_rules::{AnalysisFault, Named};
use aqe_values::{Memory, Text};
use itoa::Buffer;
use std::alloc::Global;

/// What stands before the digits.
fn sign(negative: bool) -> &'static str
    ensures { result.now ≡ cond negative (codes "-") [] }
{
    if negative { "-" } else { "" }
}

/// The number in decimal.
#[tactic(auto, using(crate::proofs::PositionSteps::sign_written))]
fn written(alloc: Global, negative: bool, n: u64) -> Result<Text, Memory>
    ensures { IfOk result (λ text. text ≡ spec.written negative n) }
{
    let mut buffer = Buffer::new();
    let mut text = String::new(alloc);
    text.push_str(sign(negative))?;
    text.push_str(buffer.format(n))?;
    Text::copy_of(alloc, text.as_str())
}

/// The refusal of a number at which no output column stands.
pub fn bad_position(alloc: Global, negative: bool, n: u64) -> AnalysisFault
    ensures { Tells result (refused BadPosition (spec.written negative n)) }
{
    match written(alloc, negative, n) {
        Ok(name) => AnalysisFault::Refused {
            kind: AnalysisKind::BadPosition,
            name,
        },
        Err(_) => AnalysisFault::Memory,
    }
}

/// The output column at a position, which counts from 1.
#[tactic(auto, using(crate::proofs::PositionSteps::place_steps))]
fn column_at<'a>(negative: bool, n: u64, outputs: &'a [Named]) -> Option<&'a Named>
    ensures { option_map (λ column. column.now) result ≡ positions.found negative n outputs.now }
{
    if negative {
        return None;
    }
    match n.checked_sub(1) {
        Some(place) => outputs.get(place as usize),
        None => None,
    }
}

/// The value of the output column at a position.
#[tactic(auto, using(crate::proofs::PositionSteps::position_steps))]
pub(crate) fn at_position(
    alloc: Global,
    negative: bool,
    n: u64,
    outputs: &[Named],
) -> Result<Expr, AnalysisFault>
    ensures { Says result (upon (spec.at_position negative n outputs.now) positions.value_of) }
{
    match column_at(negative, n, outputs) {
        Some(column) => {
            let expr = column.value.expr.copy(alloc)?;
            Ok(expr)
        }
        None => Err(bad_position(alloc, negative, n)),
    }
}
