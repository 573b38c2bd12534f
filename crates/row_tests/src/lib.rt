// Tests of the rules of rows, each limit from both sides, and of the prices of completed curves.
#![tactic(auto)]

#[cfg(test)]
mod order;
#[cfg(test)]
mod prices;
#[cfg(test)]
mod rules;
#[cfg(test)]
mod sample;
