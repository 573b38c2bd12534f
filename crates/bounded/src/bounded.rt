// The layer holds the book below by value.

use crate::table::Table;

#[derive(Drop)]
pub struct Bounded<B> {
    pub(crate) book: B,
    pub(crate) table: Table,
}
