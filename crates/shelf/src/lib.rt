// Definitions and lemmas that several crates share: sums and products of integers, and lists.
// Nothing here runs.
#![tactic(auto)]
