// Tests of injections and flows: who injects what where, and the ends of the ranges.
#![tactic(auto)]

#[cfg(test)]
mod sample;
#[cfg(test)]
mod tests;
