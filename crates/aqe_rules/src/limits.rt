//! The two limits of a plan.

ghost use Rattle.std.specs.Prelude.{◌≡◌, ◌+◌, ◌<◌, MatchOption};
ghost use Rattle.aqe_rules.specs.Limits as spec;

use aqe_logical::Logical;

/// What is left of the room for operators behind those of the plan, where they find room.
///
/// It goes as deep as the plan, and looks at each operator once.
#[tactic(auto, using(crate::proofs::OperatorSteps::operator_steps))]
pub fn room_behind(plan: &Logical, room: u32) -> Option<u32>
    ensures { MatchOption result (room < spec.operator_count plan.now) (λ left. left + spec.operator_count plan.now ≡ room) }
{
    match plan {
        Logical::OneRow
        | Logical::Scan { .. }
        | Logical::Empty { .. }
        | Logical::Held { .. }
        | Logical::HeldPartial { .. } => room.checked_sub(1),
        Logical::Filter { child, .. }
        | Logical::Project { child, .. }
        | Logical::Aggregate { child, .. }
        | Logical::Sort { child, .. }
        | Logical::Limit { child, .. }
        | Logical::Sampled { child, .. } => match room_behind(child.get(), room) {
            Some(left) => left.checked_sub(1),
            None => None,
        },
        Logical::Join { left, right, .. } => match room_behind(left.get(), room) {
            Some(behind) => match room_behind(right.get(), behind) {
                Some(left) => left.checked_sub(1),
                None => None,
            },
            None => None,
        },
        Logical::Union { left, right } => match room_behind(left.get(), room) {
            Some(behind) => match room_behind(right.get(), behind) {
                Some(left) => left.checked_sub(1),
                None => None,
            },
            None => None,
        },
    }
}
