// A table of two, filled and overfilled.

use super::Given;

#[test]
fn two_of_three(rt: HostRuntime) {
    let mut given: Given<u16, 2> = Given::new(0);
    assert_eq!(rt; given.as_slice(), [].as_slice());
    given.push(7);
    assert_eq!(rt; given.as_slice(), [7].as_slice());
    assert!(rt; given.get(1).is_none());
    given.push(8);
    given.push(9);
    assert_eq!(rt; given.count, 3);
    assert_eq!(rt; given.as_slice(), [7, 8].as_slice());
    assert_eq!(rt; given.get(1).copied(), Some(8));
}
