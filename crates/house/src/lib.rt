// The house book: an offer book loaded from an offer cap and rows.
#![tactic(auto)]

mod house;
mod loading;
mod offers;
mod unit;
mod units;

pub use house::HouseBook;
