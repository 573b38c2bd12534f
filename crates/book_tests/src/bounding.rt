// A bounded book over two generators and a load with level prices, the reference price 3,500, the
// cap 10,000 and the adder 100.

use crate::sample::{book_of, row};
use book::OfferBook;
use bounded::{Bounded, Term};
use house::HouseBook;
use std::test::Fail;

fn layer(floor: i32, subject: bool) -> Result<Bounded<HouseBook>, Fail> {
    let limits = [100, 100, 300, 300];
    let dear = row('N', 0, limits, 0, [25_000, 25_000]);
    let cheap = row('N', 0, limits, 0, [-20_000, -20_000]);
    let load = row('L', 0, limits, 0, [25_000, 25_000]);
    let mut layer = Bounded::new(book_of(&[dear, cheap, load])?);
    let Some(term) = Term::new(floor, 10_000, 100, subject) else {
        return Err(Fail::new("the term is out of range"));
    };
    for participant in 0..3 {
        layer.set_term(participant, term);
    }
    Ok(layer)
}

// The prices of the three, and of levels that are not there.
fn prices(layer: &Bounded<HouseBook>) -> [i32; 5] {
    [
        layer.price(0, 200),
        layer.price(1, 200),
        layer.price(2, 200),
        layer.price(1, 100),
        layer.price(1, 301),
    ]
}

#[test]
fn bounds(rt: HostRuntime) -> Result<(), Fail> {
    for (floor, subject, bounded) in [
        (5_000, true, [10_000, 3_500, 25_000, 0, 0]),
        (-10_000, true, [10_000, -10_000, 25_000, 0, 0]),
        (5_000, false, [25_000, 3_500, 25_000, 0, 0]),
    ] {
        let mut layer = layer(floor, subject)?;
        layer.refer([3_500; 64]);
        assert_eq!(rt; prices(&layer), bounded);
    }
    Ok(())
}

#[test]
fn unreferenced(rt: HostRuntime) -> Result<(), Fail> {
    let passed = [25_000, -20_000, 25_000, 0, 0];
    let mut layer = layer(5_000, true)?;
    assert_eq!(rt; prices(&layer), passed);
    layer.refer([3_500; 64]);
    layer.clear();
    assert_eq!(rt; prices(&layer), passed);
    assert_eq!(rt; layer.count(), layer.below().count());
    Ok(())
}
