// Tests of prices, worth, checks and gaps on the two-unit market of the documents, and on a block book.
#![tactic(auto)]

#[cfg(test)]
mod blocks;
#[cfg(test)]
mod tests;
