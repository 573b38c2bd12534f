// Mitigation terms at their limits and past them.

use bounded::Term;

#[test]
fn limits(rt: HostRuntime) {
    for (floor, ceiling, adder, made) in [
        (-25_000, 0, 0, true),
        (-25_001, 0, 0, false),
        (1_000_000, 0, 0, true),
        (1_000_001, 0, 0, false),
        (0, -1, 0, false),
        (0, 0, 1, false),
        (0, 1_000_000, 10_000, true),
        (0, 1_000_000, 10_001, false),
        (0, 1_000_001, 0, false),
        (0, 199, 1, true),
        (0, 199, 2, false),
    ] {
        assert_eq!(rt; Term::new(floor, ceiling, adder, true).is_some(), made);
    }
}
