// Flows of a small dispatch, base points at their limits, and a bus that is full.

use crate::sample::*;
use dispatch::{Dispatch, flow_of, injections_of};
use std::test::Fail;

// Two generators and a load are at bus 1, and a load is at bus 63. Nobody is at bus 2, and there is
// no line 4.
#[test]
fn flows(rt: HostRuntime) -> Result<(), Fail> {
    let book = book_of(&[
        unit('R', 0),
        unit('R', 1),
        unit('L', 1),
        unit('I', 1),
        unit('L', 63),
    ])?;
    let network = network_of(&[
        shares(0, 1_000),
        shares(1, -250),
        shares(63, -1_000),
        shares(2, 500),
    ])?;
    let dispatch = dispatch_of(&[20_000, 300, 1_000, 50, 7])?;
    for (line, flow) in [20_000_000, 162_500, 7_000, 0, 0].iter().enumerate() {
        assert_eq!(rt;
            flow_of(&book, &network, &dispatch, line),
            *flow,
            "line {line}"
        );
    }
    assert_eq!(rt; flow_of(&book, &network_of(&[])?, &dispatch, 0), 0);
    Ok(())
}

#[test]
fn base_points(rt: HostRuntime) -> Result<(), Fail> {
    assert!(rt; Dispatch::new(&[20_000, 20_000]).is_some());
    assert!(rt; Dispatch::new(&[20_000, 20_001]).is_none());
    assert!(rt; Dispatch::new(&[1; 64]).is_some());
    assert!(rt; Dispatch::new(&[1; 65]).is_none());
    let dispatch = dispatch_of(&[5, 7])?;
    for (participant, base) in [5, 7, 0].iter().enumerate() {
        assert_eq!(rt; dispatch.base(participant), *base);
    }
    assert_eq!(rt; dispatch.base(64), 0);
    Ok(())
}

// 64 participants at one bus reach the bound of a sheet.
#[test]
fn full_bus(rt: HostRuntime) -> Result<(), Fail> {
    let network = network_of(&[shares(9, -1_000)])?;
    let dispatch = dispatch_of(&[20_000; 64])?;
    for (letter, injection) in [('R', 1_280_000), ('L', -1_280_000)] {
        let book = book_of(&[unit(letter, 9); 64])?;
        let sheet = injections_of(&book, &dispatch);
        assert_eq!(rt; sheet.at(9), injection);
        assert_eq!(rt; sheet.at(8), 0);
        assert_eq!(rt;
            flow_of(&book, &network, &dispatch, 0),
            -1_000 * i64::from(injection)
        );
    }
    Ok(())
}
