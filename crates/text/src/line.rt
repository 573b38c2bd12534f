// A line holds at most 80 bytes. What is put past them is dropped.

ghost use Rattle.std.specs.Prelude.{◌≤◌, length};
ghost use Rattle.given.specs.Kept.{kept};

use given::Given;

mod copying;
mod writing;

#[derive(Drop)]
pub struct Line {
    bytes: Given<u8, 80>,
    ghost within: { length (kept bytes.count bytes.items) ≤ 80 },
}
