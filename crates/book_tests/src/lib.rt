// Tests of the house book, of the bounded book over it, and of the table network, on small inputs.
#![tactic(auto)]

#[cfg(test)]
mod bounding;
#[cfg(test)]
mod flows;
#[cfg(test)]
mod offers;
#[cfg(test)]
mod sample;
#[cfg(test)]
mod terms;
