// The table network: at most 32 lines in fixed memory.

ghost use Rattle.std.specs.Prelude.{◌≤◌};

use crate::shares::Shares;
use given::Given;

#[derive(Clone, Copy)]
pub struct TableNetwork {
    pub(crate) rows: Given<Shares, 32>,
    ghost few: { rows.count ≤ 32 },
}
