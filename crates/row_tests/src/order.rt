// The cap, the number of rows, and which of several faults is told.

use crate::sample::*;
use rows::Row;

#[test]
fn caps_and_row_counts(rt: HostRuntime) {
    for (cents, number) in [(0, 1), (1, 0), (1_000_000, 0), (1_000_001, 1)] {
        assert!(rt; told(cents, &[]) == (number, 0), "cap {cents}");
    }
    let rows = [plain('N'); 65];
    assert!(rt; told(1_000, &rows[0..64]) == (0, 0));
    assert!(rt; told(1_000, &rows) == (2, 0));
    // the cap comes before the number of rows, and that before a letter
    let rows = [plain('M'); 65];
    assert!(rt; told(0, &rows) == (1, 0));
    assert!(rt; told(1_000, &rows) == (2, 0));
}

// Row k breaks the rule of number 9 - k, so of the first rows the last one is told.
#[test]
fn lower_number_first(rt: HostRuntime) {
    let rows = [
        Row {
            reading: 99,
            ..bare('N')
        },
        two('N', (120, 50), (350, 49)),
        two('N', (120, 50), (119, 50)),
        bare('L'),
        Row {
            lsl: 151,
            ..plain('N')
        },
        Row {
            bus: 64,
            ..plain('N')
        },
        plain('M'),
    ];
    for k in 0..7 {
        assert!(rt; told(1_000, &rows[0..k + 1]) == (9 - k as u8, k), "row {k}");
    }
}

#[test]
fn lower_row_next(rt: HostRuntime) {
    let row = plain('N');
    let bus = Row { bus: 64, ..row };
    let letter_and_bus = Row { letter: 'M', ..bus };
    assert!(rt; told(1_000, &[bus, bus]) == (4, 0));
    assert!(rt; told(1_000, &[row, bus, row, bus]) == (4, 1));
    assert!(rt; told(1_000, &[bus, letter_and_bus]) == (3, 1));
    assert!(rt; told(1_000, &[letter_and_bus, bus]) == (3, 0));
}
