// Tests of the lines of a script.
#![tactic(auto)]

#[cfg(test)]
mod tests;
