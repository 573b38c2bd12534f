// The terms of all participants, and the reference prices where a first step gives them.

ghost use Rattle.std.specs.Prelude.{◌≡◌, length};

use crate::term::Term;

#[derive(Clone, Copy)]
pub struct Table {
    pub(crate) terms: [Term; 64],
    pub(crate) references: [i32; 64],
    // whether they are in force: those that are not stay, and so no `Option` holds them
    pub(crate) referenced: bool,
    ghost termed: { length terms ≡ 64 },
    ghost listed: { length references ≡ 64 },
}
