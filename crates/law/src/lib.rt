// What a run is held to: which call is declined and why, what each call leaves, and the law of runs. Definitions and
// their proofs only.
#![tactic(auto)]
