// What is held as a step, to be listed.

use checks::Held;

#[derive(Clone, Copy)]
pub(crate) struct Listed {
    pub(crate) held: Held,
    // at the prices of its step
    pub(crate) worth: i64,
}
