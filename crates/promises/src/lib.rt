// The top floor: what Flumedrac promises, in theorems over all crates below. No code.
#![tactic(auto)]
