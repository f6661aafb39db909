//! Lists of what several parts came to, and the chains of an expression.

ghost use Rattle.std.specs.Prelude.{◌≡◌, [], ◌∷◌, ◌++◌, List, Err, MatchResult};
ghost use Rattle.aqe_expr.specs.Chains.{in_front, pairs_in_front};
ghost use Rattle.aqe_rules.specs.Faults.{Says};
ghost use Rattle.aqe_rules.specs.Outcomes.{Outcome};
ghost use Rattle.aqe_sources.specs.Given.{Gives};
ghost use Rattle.aqe_grouping.specs.Several.{with_next};

use aqe_base::Listing;
use aqe_expr::{CasePairs, Expr, Operands};
use aqe_rules::AnalysisFault;
use aqe_sources::both_of;
use std::alloc::Global;

/// The values so far with one more, where both are there.
fn pushed<T: Drop>(
    both: Result<(Listing<T>, T), AnalysisFault>,
) -> Result<Listing<T>, AnalysisFault>
    ensures { MatchResult both (λ b. Gives result (λ all. all ≡ b.0 ++ b.1 ∷ [])) (λ f. result ≡ Err f) }
{
    let (all, next) = both?;
    let mut all = all;
    all.push(next)?;
    Ok(all)
}

/// The values so far, and one more.
pub(crate) fn with_one<T: Drop>(
    so_far: Result<Listing<T>, AnalysisFault>,
    next: Result<T, AnalysisFault>,
) -> Result<Listing<T>, AnalysisFault>
    ensures { (o : Outcome (List T)) (p : Outcome T) → Says so_far o → Says next p → Says result (with_next o p) }
{
    pushed(both_of(so_far, next))
}

/// The chain of the expressions, where they are there.
pub(crate) fn operands(
    alloc: Global,
    all: Result<Listing<Expr>, AnalysisFault>,
) -> Result<Operands, AnalysisFault>
    ensures { MatchResult all (λ items. Gives result (λ l. l ≡ in_front items Operands.End)) (λ f. result ≡ Err f) }
{
    let all = all?;
    let chain = Operands::from_vec(alloc, all.into_vec())?;
    Ok(chain)
}

/// The chain of the pairs, where they are there.
pub(crate) fn case_pairs(
    alloc: Global,
    all: Result<Listing<(Expr, Expr)>, AnalysisFault>,
) -> Result<CasePairs, AnalysisFault>
    ensures { MatchResult all (λ items. Gives result (λ l. l ≡ pairs_in_front items CasePairs.End)) (λ f. result ≡ Err f) }
{
    let all = all?;
    let chain = CasePairs::from_vec(alloc, all.into_vec())?;
    Ok(chain)
}
