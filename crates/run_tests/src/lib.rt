// Tests of runs on the two-unit market of the documents.
#![tactic(auto)]

#[cfg(test)]
mod causes;
#[cfg(test)]
mod dropping;
#[cfg(test)]
mod playing;
#[cfg(test)]
mod ranges;
#[cfg(test)]
mod sample;
