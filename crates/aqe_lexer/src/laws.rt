//! Laws of token lists: their contracts follow from the definitions alone.

ghost use Rattle.std.specs.Prelude.{◌≡◌, ℕ, List, All};
ghost use Rattle.aqe_lexer.specs.declared.fault.LexFault.{LexFault};
ghost use Rattle.aqe_lexer.specs.declared.token.Token.{Token};
ghost use Rattle.aqe_lexer.specs.Spans.{StandsIn, InOrder};
ghost use Rattle.aqe_lexer.specs.TokenList.{IsTokenList, FirstFault};

/// A source has at most one token list.
#[tactic(auto, using(crate::proofs::Once::one_list))]
pub fn one_token_list()
    ensures { (source : List ℕ) → (these others : List Token) → IsTokenList source these
        → IsTokenList source others → these ≡ others }
{}

/// A source has at most one first fault, and then no token list.
pub fn one_first_fault()
    ensures one { (source : List ℕ) → (this other : LexFault) → FirstFault source this
        → FirstFault source other → this ≡ other }
    ensures excludes { (source : List ℕ) → (tokens : List Token) → (fault : LexFault)
        → FirstFault source fault
        → ¬ (IsTokenList source tokens) }
{}

/// Each token stands within the source and cuts no character, and they stand in order.
#[tactic(auto, using(crate::proofs::Stands::list_in_order))]
pub fn tokens_stand()
    ensures stand { (source : List ℕ) → (tokens : List Token) → IsTokenList source tokens
        → All (StandsIn source) tokens }
    ensures order { (source : List ℕ) → (tokens : List Token) → IsTokenList source tokens
        → InOrder 0 tokens }
{}
