// Which way a participant counts.

ghost use Rattle.std.specs.Prelude.{◌≡◌, pos, int_lt};
ghost use Rattle.book.specs.Sides.{sign_of, side_of};

#[derive(Clone, Copy, Debug, Eq, PartialEq)]
pub enum Side {
    Generator,
    Load,
}

impl Side {
    // By what an amount of the participant counts: 1 for a generator, −1 for a load.
    pub fn sign(self) -> i8
        ensures { result ≡ sign_of self }
    {
        match self {
            Side::Generator => 1,
            Side::Load => -1,
        }
    }
}

// Whether there is a participant, and it is a generator.
pub fn is_generator(side: Option<Side>) -> bool
    ensures { result ≡ int_lt (pos 0) (side_of side) }
{
    matches!(side, Some(Side::Generator))
}
