// The levels at which a curve is printed.

ghost use Rattle.std.specs.Prelude.{◌<◌};

pub(crate) trait Corners {
    // Whether the level after `below` is a corner.
    fn corner_after(&self, below: u16) -> bool
        requires { below < 65535 };
}
