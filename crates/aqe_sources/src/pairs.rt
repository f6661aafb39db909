//! Results that are wanted together.

ghost use Rattle.std.specs.Prelude.{◌≡◌};
ghost use Rattle.aqe_sources.specs.Pairs as spec;

use aqe_rules::AnalysisFault;

/// Both values, where both are there; else the fault of the first that is not.
pub fn both_of<A: Drop, B: Drop>(
    first: Result<A, AnalysisFault>,
    second: Result<B, AnalysisFault>,
) -> Result<(A, B), AnalysisFault>
    ensures { result ≡ spec.both_of first second }
{
    match first {
        Ok(first) => match second {
            Ok(second) => Ok((first, second)),
            Err(fault) => Err(fault),
        },
        Err(fault) => Err(fault),
    }
}
