// A table network with the fewest and the most lines, shares and injections.

use crate::sample::told;
use network::{Injections, Network, TableNetwork};
use std::test::Fail;

#[test]
fn lines(rt: HostRuntime) {
    assert_eq!(rt; told(TableNetwork::load(&[])), (0, 0));
    assert_eq!(rt; told(TableNetwork::load(&[[0; 64]; 32])), (0, 0));
    assert_eq!(rt; told(TableNetwork::load(&[[0; 64]; 33])), (10, 0));
}

#[test]
fn shares(rt: HostRuntime) {
    for (share, fault) in [
        (1_000, (0, 0)),
        (-1_000, (0, 0)),
        (1_001, (11, 1)),
        (-1_001, (11, 1)),
    ] {
        let mut rows = [[0; 64]; 3];
        rows[1][63] = share;
        assert_eq!(rt; told(TableNetwork::load(&rows)), fault);
    }
}

#[test]
fn amounts(rt: HostRuntime) {
    let mut sheet = Injections::new();
    for (bus, amount, held) in [
        (63, 1_280_000, true),
        (63, 1_280_001, false),
        (64, 0, false),
        (0, -1_280_000, true),
        (0, -1_280_001, false),
    ] {
        assert_eq!(rt; sheet.put(bus, amount).is_ok(), held);
    }
    for (bus, amount) in [(0, -1_280_000), (1, 0), (63, 1_280_000), (64, 0)] {
        assert_eq!(rt; sheet.at(bus), amount);
    }
}

#[test]
fn greatest_flow(rt: HostRuntime) -> Result<(), Fail> {
    let Ok(network) = TableNetwork::load(&[[1_000; 64]]) else {
        return Err(Fail::new("the shares are in range"));
    };
    let mut sheet = Injections::new();
    for bus in 0..64 {
        assert!(rt; sheet.put(bus, 1_280_000).is_ok());
    }
    assert_eq!(rt; network.lines(), 1);
    assert_eq!(rt; network.flow(0, &sheet), 81_920_000_000);
    assert_eq!(rt; network.flow(1, &sheet), 0);
    for (line, bus, share) in [(0, 63, 1_000), (0, 64, 0), (1, 63, 0), (32, 0, 0)] {
        assert_eq!(rt; network.share(line, bus), share);
    }
    Ok(())
}
