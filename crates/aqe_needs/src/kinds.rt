//! What kind of stage it is to the board.

ghost use Rattle.std.specs.Prelude.{◌≡◌};
ghost use Rattle.aqe_journal.specs.Needed as spec;

use aqe_physical::StageKind;
use aqe_scheduler::StageKindTag;

/// The kind of a stage as the board knows it.
pub fn tag_of(kind: &StageKind) -> StageKindTag
    ensures { result ≡ spec.tag_of kind.now }
{
    match kind {
        StageKind::Shuffle(_) => StageKindTag::Shuffle,
        StageKind::Broadcast => StageKindTag::Broadcast,
        StageKind::Sample(_) => StageKindTag::Sample,
        StageKind::Result => StageKindTag::Result,
    }
}
