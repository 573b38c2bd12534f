// Completed offer curves: the line price of points, and the curve that each class of row gets.
#![tactic(auto)]

mod complete;
mod curve;
mod line;
mod points;

pub use complete::COMMITTED_FLOOR;
pub use curve::Curve;
pub use line::line_price;
