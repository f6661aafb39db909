//! The way of a join by what is known of the sizes of its sides before any stage was made.

ghost use Rattle.std.specs.Prelude.{◌≡◌, [], None, option_map};
ghost use Rattle.aqe_fitting.specs.InForce.{in_force};
ghost use Rattle.aqe_fitting.specs.Known as known;
ghost use Rattle.aqe_fitting.specs.Ways as spec;
ghost use Rattle.aqe_join_plan.specs.Steps.{chosen};
ghost use Rattle.aqe_join_switch.specs.Choice.{seen};
ghost use Rattle.aqe_settings.specs.Values.{values_of};

use aqe_base::JoinKind;
use aqe_join_switch::{JoinChoice, JoinRule, SideSizes, SizeSource, choose};
use aqe_logical::{Logical, Placement};
use aqe_physical::{Estimate, Estimates, JoinWay};
use aqe_settings::Settings;

/// The two sides of a join in a query.
#[derive(Clone, Copy)]
pub struct JoinSides<'a> {
    /// The left side.
    pub left: &'a Logical,
    /// The right side.
    pub right: &'a Logical,
}

/// The table that a query scans, where it is a scan under filters and projections.
#[tactic(auto, using(crate::proofs::Tables::table_steps))]
fn table_of(logical: &Logical) -> Option<u32>
    ensures { result ≡ spec.table_of logical.now }
{
    match logical {
        Logical::Scan { table, .. } => Some(*table),
        Logical::Filter { child, .. } | Logical::Project { child, .. } => table_of(child.get()),
        Logical::OneRow
        | Logical::Join { .. }
        | Logical::Aggregate { .. }
        | Logical::Union { .. }
        | Logical::Sort { .. }
        | Logical::Limit { .. }
        | Logical::Empty { .. }
        | Logical::Held { .. }
        | Logical::HeldPartial { .. }
        | Logical::Sampled { .. } => None,
    }
}

/// The estimate of a table; of a table that has none, one empty file.
fn estimate_of(estimates: &Estimates, table: u32) -> Estimate
    ensures { result ≡ known.estimate_of estimates.now table }
{
    match estimates.slice().get(table as usize) {
        Some(estimate) => *estimate,
        None => Estimate { bytes: 0, files: 1 },
    }
}

/// The sizes of a side of so many bytes, by the files of its table.
fn estimated(estimates: &Estimates, table: u32) -> SideSizes<'static>
    ensures { seen result ≡ spec.estimated estimates.now table }
{
    SideSizes {
        source: SizeSource::Estimate,
        total: u128::from(estimate_of(estimates, table).bytes),
        parts: &[],
    }
}

/// The sizes of a side that a stage holds: of a broadcast, that it is one.
fn held_sizes(place: &Placement) -> Option<SideSizes<'static>>
    ensures { option_map seen result ≡ spec.held_sizes place.now None }
{
    match place {
        Placement::Broadcast => Some(SideSizes {
            source: SizeSource::Broadcast,
            total: 0,
            parts: &[],
        }),
        Placement::Any | Placement::Single | Placement::Hash(_) | Placement::Range(_) => None,
    }
}

/// What is known of the size of a side.
fn side_sizes(logical: &Logical, estimates: &Estimates) -> Option<SideSizes<'static>>
    ensures { option_map seen result ≡ spec.side_sizes estimates.now [] logical.now }
{
    match logical {
        Logical::Held { place, .. } => held_sizes(place),
        _ => match table_of(logical) {
            Some(table) => Some(estimated(estimates, table)),
            None => None,
        },
    }
}

/// What the settings say of the choice.
fn join_rule(settings: &Settings) -> JoinRule
    ensures { result ≡ spec.join_rule (in_force (values_of settings.now)) }
{
    JoinRule {
        first_threshold: settings.first_threshold,
        adaptive_threshold: settings
            .adaptive_threshold
            .unwrap_or(settings.first_threshold),
        ratio_thousandths: settings.ratio_thousandths,
        local_map: u128::from(settings.local_map),
        advisory: u128::from(settings.advisory),
    }
}

/// The way that a choice stands for.
fn way_of(choice: JoinChoice) -> JoinWay
    ensures { result ≡ spec.way_of choice }
{
    match choice {
        JoinChoice::Broadcast(side) => JoinWay::Broadcast(side),
        JoinChoice::ShuffledHash(side) => JoinWay::ShuffledHash(side),
        JoinChoice::SortMerge => JoinWay::SortMerge,
    }
}

/// The way of a join that has keys, by the sizes of its sides.
pub fn way_by_sizes(
    kind: JoinKind,
    sides: JoinSides,
    estimates: &Estimates,
    settings: &Settings,
) -> JoinWay
    ensures { result ≡ spec.way_of (chosen kind sides.entry.left.now sides.entry.right.now estimates.now (values_of settings.now)) }
{
    let left = side_sizes(sides.left, estimates);
    let right = side_sizes(sides.right, estimates);
    way_of(choose(kind, left, right, &join_rule(settings)))
}
