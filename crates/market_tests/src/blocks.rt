// Two owners with block offers: the price of the second block of one is the system price.

use block::{Block, BlockBook, BlockRow};
use dispatch::Dispatch;
use fault::Fault;
use feasible::{Constraints, Stage, Step};
use gap::{gap, objection};
use given::Given;
use market::{Quote, worth};
use network::TableNetwork;
use std::test::Fail;

fn book() -> Result<BlockBook, Fault> {
    let mut blocks = Given::new(Block { size: 0, price: 0 });
    let mut single = blocks;
    blocks.push(Block {
        size: 100,
        price: 2_000,
    });
    blocks.push(Block {
        size: 50,
        price: 3_000,
    });
    single.push(Block {
        size: 80,
        price: 2_500,
    });
    BlockBook::load(&[
        BlockRow { bus: 0, blocks },
        BlockRow {
            bus: 1,
            blocks: single,
        },
    ])
}

// The gap of 120 and 80 tenths in the first step at a system price, and whether the first owner's last tenth objects.
fn weighed(system: i32) -> Option<(i64, bool)> {
    let Ok(book) = book() else {
        return None;
    };
    let Ok(network) = TableNetwork::load(&[]) else {
        return None;
    };
    let quote = Quote::new(system, &[])?;
    let dispatch = Dispatch::new(&[120, 80])?;
    let step = Step {
        constraints: Constraints::new(),
        stage: Stage::First,
    };
    let gap = gap(&book, &network, &step, &quote, &dispatch)?;
    Some((gap, objection(&book, &network, &quote, &dispatch, 0).last))
}

#[test]
fn block_market(rt: HostRuntime) -> Result<(), Fail> {
    let Ok(book) = book() else {
        return Err(Fail::new("declined"));
    };
    let Some(dispatch) = Dispatch::new(&[120, 80]) else {
        return Err(Fail::new("declined"));
    };
    assert_eq!(rt; worth(&book, &dispatch), -460_000);
    assert_eq!(rt; weighed(3_000), Some((0, false)));
    assert_eq!(rt; weighed(2_500), Some((10_000_000, true)));
    Ok(())
}
