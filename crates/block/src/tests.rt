// Two blocks one above the other, a participant that is not there, and rows at the edges of the rules.

use super::{Block, BlockBook, BlockRow};
use book::OfferBook;
use given::Given;
use std::test::Fail;

// A row of two blocks.
fn pair(bus: u8, first: Block, second: Block) -> BlockRow {
    BlockRow {
        bus,
        blocks: Given {
            count: 2,
            items: [
                first, second, first, first, first, first, first, first, first, first,
            ],
        },
    }
}

fn block(size: u16, price: i32) -> Block {
    Block { size, price }
}

// The number of the fault, or 0 where there is none.
fn declined(rows: &[BlockRow]) -> u8 {
    match BlockBook::load(rows) {
        Ok(_) => 0,
        Err(fault) => fault.cause.number(),
    }
}

#[test]
fn two_blocks(rt: HostRuntime) -> Result<(), Fail> {
    let Ok(book) = BlockBook::load(&[pair(7, block(100, 2000), block(50, 3000))]) else {
        return Err(Fail::new("the row keeps the rules"));
    };
    assert_eq!(rt; book.high(0), 150);
    assert_eq!(rt;
        [
            book.price(0, 0),
            book.price(0, 100),
            book.price(0, 101),
            book.price(0, 151)
        ],
        [0, 2000, 3000, 0]
    );
    assert_eq!(rt; book.high(1), 0);
    assert_eq!(rt; book.price(1, 1), 0);
    Ok(())
}

#[test]
fn sizes(rt: HostRuntime) {
    assert_eq!(rt; declined(&[pair(7, block(100, 2000), block(0, 3000))]), 7);
    assert_eq!(rt;
        declined(&[pair(7, block(19_999, 2000), block(1, 3000))]),
        0
    );
    assert_eq!(rt;
        declined(&[pair(7, block(19_999, 2000), block(2, 3000))]),
        7
    );
}

#[test]
fn prices(rt: HostRuntime) {
    assert_eq!(rt; declined(&[pair(7, block(1, 3000), block(1, 2999))]), 8);
}

#[test]
fn lower_number_first(rt: HostRuntime) {
    let flat = pair(7, block(0, 2000), block(1, 3000));
    assert_eq!(rt;
        declined(&[flat, pair(64, block(1, 2000), block(1, 3000))]),
        4
    );
}
