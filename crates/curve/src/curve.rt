// A completed curve.

use crate::points::Points;
use rows::Class;

#[derive(Clone, Copy)]
pub struct Curve {
    pub(crate) class: Class,
    pub(crate) hsl: u16,
    pub(crate) points: Points,
}
