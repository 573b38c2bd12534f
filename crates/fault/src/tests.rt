// A refusal line in a buffer that it fits, and in one that is a byte too short.

use super::{Cause, Fault};
use std::test::Fail;

#[test]
fn line_fits(rt: HostRuntime) -> Result<(), Fail> {
    let mut buffer = [b'.'; 17];
    match Fault::new(Cause::Balance, 0).write_line(&mut buffer) {
        Ok(end) => assert_eq!(rt; end, 15),
        Err(_) => return Err(Fail::new("it fits")),
    }
    assert_eq!(rt; &buffer, b"refused 19 R 0\n..");
    Ok(())
}

#[test]
fn line_is_too_long(rt: HostRuntime) -> Result<(), Fail> {
    let mut buffer = [b'.'; 14];
    match Fault::new(Cause::Balance, 0).write_line(&mut buffer) {
        Ok(_) => return Err(Fail::new("it does not fit")),
        Err(fault) => assert_eq!(rt; fault.cause.number(), 27),
    }
    assert_eq!(rt; &buffer, b"..............");
    Ok(())
}
