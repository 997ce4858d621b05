// When a formula holds at a place of a log: the definition, and its laws.
#![tactic(auto)]

ghost use Rattle.truth.specs.Laws.{LooksBack, PastReach};

// That the definition looks back only, and that past the reach nothing matters.
#[tactic(auto, using(crate::proofs::Back::looks_back, crate::proofs::Far::past_reach))]
pub fn laws_stand()
    ensures back { LooksBack }
    ensures reach { PastReach }
{}
