//! Laws of scripts, each stated by the contract of a function that does nothing.

ghost use Rattle.aqe_script.specs.Laws.{OneScript};

/// The tokens of a source are at most one script.
#[tactic(auto, using(crate::proofs::Once::one_script))]
pub fn one_script()
    ensures { OneScript }
{}
