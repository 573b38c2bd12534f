// The lines of the widest network: 32 of them, each with a share at each of 64 buses.

ghost use Rattle.std.specs.Prelude.{◌≡◌, ◌<◌};
ghost use Rattle.measure.specs.Widest.{line_of, lines_of};

use std::array;

fn line_at(shares: &[i16], line: usize) -> [i16; 64]
    requires { line < 32 }
    ensures { result ≡ line_of shares.entry.now line }
{
    array::from_fn(|bus| shares.get(64 * line + bus).copied().unwrap_or(0))
}

// The lines of these shares, 64 for each line: the C interface hands over flat lists.
pub(crate) fn lines_of(shares: &[i16]) -> [[i16; 64]; 32]
    ensures { result ≡ lines_of shares.now }
{
    array::from_fn(
        |line|
            requires { line < 32 }
            ensures { result ≡ line_of shares.entry.now line }
        { line_at(shares, line) },
    )
}
