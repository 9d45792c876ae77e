// No code: what is claimed of the whole, each statement in full, with a proof that cites the crates below.
#![tactic(auto)]
