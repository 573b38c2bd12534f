// Standard input, line by line. No contract can say what it gives.

use crate::stop::Stop;
use std::io::{BufRead, BufReader, ErrorKind};

// Each line goes to `take` in order, as its text, or as nothing where its bytes are no text.
pub fn read_lines<F: FnMut(Option<&str>) -> Result<(), Stop>>(
    rt: &HostRuntime,
    mut take: F,
) -> Result<(), Stop>
    requires { F.IsAlwaysCallable take }
{
    let heap = rt.alloc();
    for line in BufReader::new(heap, rt.stdin())?.lines(heap) {
        match line {
            Ok(text) => take(Some(text.as_str()))?,
            Err(error) if error.kind() == ErrorKind::InvalidData => take(None)?,
            Err(error) => return Err(error.into()),
        }
    }
    Ok(())
}
