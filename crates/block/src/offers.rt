// The block book: a table of at most 64 participants.

ghost use Rattle.std.specs.Prelude.{◌≤◌};

use crate::stack::Stack;
use given::Given;

#[derive(Clone, Copy)]
pub struct BlockBook {
    pub(crate) stacks: Given<Stack, 64>,
    ghost few: { stacks.count ≤ 64 },
}
