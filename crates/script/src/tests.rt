// Lines of each kind, numbers past their fields, and each mistake. The reader of scripts with calls is given most of these
// lines too: both are tested whole, since either could read them by itself.

use crate::{Statement, read_line};
use block::BlockRow;
use calls::{BasePoints, ParticipantTerm};
use entries::References;
use rows::Row;
use std::test::Fail;

// The reason of the line's mistake, or nothing.
fn reason(line: &str) -> &'static str {
    match read_line(line) {
        Ok(_) => "",
        Err(mistake) => mistake.reason(),
    }
}

fn row_of(line: &str) -> Result<Row, &'static str> {
    match read_line(line) {
        Ok(Statement::Row(row)) => Ok(row),
        _ => Err("no row"),
    }
}

fn cap_of(line: &str) -> Option<u32> {
    match read_line(line) {
        Ok(Statement::Cap(cents)) => Some(cents),
        _ => None,
    }
}

fn blocks_of(line: &str) -> Result<BlockRow, &'static str> {
    match read_line(line) {
        Ok(Statement::Block(row)) => Ok(row),
        _ => Err("no blocks"),
    }
}

fn term_of(line: &str) -> Result<ParticipantTerm, &'static str> {
    match read_line(line) {
        Ok(Statement::Term(term)) => Ok(term),
        _ => Err("no term"),
    }
}

fn references_of(line: &str) -> Result<References, &'static str> {
    match read_line(line) {
        Ok(Statement::Reference(references)) => Ok(references),
        _ => Err("no reference prices"),
    }
}

#[test]
fn nothing_is_said() -> Result<(), Fail> {
    for line in ["", "  \t ", "# row", "   # cap 1"] {
        match read_line(line) {
            Ok(Statement::Blank) => {}
            _ => return Err(Fail::new("the line says something")),
        }
    }
    Ok(())
}

#[test]
fn mistakes(rt: HostRuntime) {
    for (line, mistake) in [
        ("cup 500000", "unknown word"),
        ("line 0", "a share is bus:share"),
        ("line -1:5", "not a number"),
        ("line 64:5", "a bus is 0 to 63"),
        ("line 3:0 4:1 3:0", "a bus is named twice"),
        ("base 1 x", "not a number"),
        ("cap # 500000", "missing word"),
        ("row N 0 100 100 300 300", "missing word"),
        ("cap 500000 1", "extra word"),
        ("cap +5", "not a number"),
        ("row N -1 100 100 300 300 0", "not a number"),
        ("row N 0 100 100 300 300 0 :5", "not a number"),
        ("row N 0 100 100 300 300 0 5:-", "not a number"),
        ("row NN 0 100 100 300 300 0", "a class is one letter"),
        ("row N 0 100 100 300 300 0 100", "a point is level:price"),
        ("row X 0 100 100 300 300 0 1:2 # 3", ""),
        ("block 0 100", "a block is size:price"),
        ("block 0 -1:5", "not a number"),
        ("block", "missing word"),
        ("term 0 -25000 0 0 maybe", "neither yes nor no"),
        ("term 0 -25000 0 0", "missing word"),
        ("term 0 -25000 0 -1 no", "not a number"),
        ("term 0 -25000 0 0 no no", "extra word"),
        ("reference 1 2 x", "not a number"),
    ] {
        assert_eq!(rt; reason(line), mistake, "{}", line);
    }
}

#[test]
fn numbers_are_clamped(rt: HostRuntime) -> Result<(), Fail> {
    assert_eq!(rt; cap_of("cap 5000000000"), Some(4294967295));
    assert_eq!(rt; cap_of("cap 99999999999999999999999"), Some(4294967295));
    let row = row_of("row N 300 70000 65535 1 2 3 4:-99999999999 70000:99999999999")?;
    assert!(rt; row.letter == 'N' && row.bus == 255 && row.lsl == 65535 && row.ldl == 65535);
    assert!(rt; row.hdl == 1 && row.hsl == 2 && row.reading == 3 && row.points.count == 2);
    let [low, high, ..] = row.points.items;
    assert!(rt; low.level == 4 && low.price == -2147483648);
    assert!(rt; high.level == 65535 && high.price == 2147483647);
    Ok(())
}

#[test]
fn eleven_points(rt: HostRuntime) -> Result<(), Fail> {
    let row = row_of("row I 1 0 0 9 9 0 1:1 2:2 3:3 4:4 5:5 6:6 7:7 8:8 9:9 10:10 11:11")?;
    assert_eq!(rt; row.points.count, 11);
    assert_eq!(rt; row.points.items[9].level, 10);
    Ok(())
}

#[test]
fn two_blocks(rt: HostRuntime) -> Result<(), Fail> {
    let row = blocks_of("block 300 100:-2000 70000:3000")?;
    assert!(rt; row.bus == 255 && row.blocks.count == 2);
    let [first, second, ..] = row.blocks.items;
    assert!(rt; first.size == 100 && first.price == -2000);
    assert!(rt; second.size == 65535 && second.price == 3000);
    Ok(())
}

#[test]
fn eleven_blocks(rt: HostRuntime) -> Result<(), Fail> {
    let row = blocks_of("block 1 1:1 2:2 3:3 4:4 5:5 6:6 7:7 8:8 9:9 10:10 11:11")?;
    assert_eq!(rt; row.blocks.count, 11);
    assert_eq!(rt; row.blocks.items[9].size, 10);
    Ok(())
}

#[test]
fn terms(rt: HostRuntime) -> Result<(), Fail> {
    let term = term_of("term 3 -25000 -7 5000000000 yes")?;
    assert!(rt; term.participant == 3 && term.floor == -25000 && term.ceiling == -7);
    assert!(rt; term.adder == 4294967295 && term.subject);
    assert!(rt; !term_of("term 0 0 0 0 no")?.subject);
    Ok(())
}

// Sixty-four prices are kept, and one more is a mistake.
#[test]
fn references(rt: HostRuntime) -> Result<(), Fail> {
    let none = references_of("reference")?;
    assert_eq!(rt; none.count, 0);
    let three = references_of("reference 2000 99999999999 -1")?;
    let [first, second, third, fourth, ..] = three.items;
    assert_eq!(rt; three.count, 3);
    assert!(rt; first == 2000 && second == 2147483647 && third == -1 && fourth == 0);
    let most =
        "reference 1 2 3 4 5 6 7 8 9 10 11 12 13 14 15 16 17 18 19 20 21 22 23 24 25 26 27 28 29 30 31 32 33 34 35 36 37 38 39 40 41 42 43 44 45 46 47 48 49 50 51 52 53 54 55 56 57 58 59 60 61 62 63 64";
    assert_eq!(rt; references_of(most)?.items[63], 64);
    let more =
        "reference 1 2 3 4 5 6 7 8 9 10 11 12 13 14 15 16 17 18 19 20 21 22 23 24 25 26 27 28 29 30 31 32 33 34 35 36 37 38 39 40 41 42 43 44 45 46 47 48 49 50 51 52 53 54 55 56 57 58 59 60 61 62 63 64 65";
    assert_eq!(rt; reason(more), "more than 64 reference prices");
    Ok(())
}

#[test]
fn shares(rt: HostRuntime) -> Result<(), Fail> {
    let Ok(Statement::Line(shares)) = read_line("line 63:-99999 0:1000 3:-250 1:99999") else {
        return Err(Fail::new("no line"));
    };
    assert!(rt; shares[0] == 1000 && shares[1] == 32767 && shares[2] == 0 && shares[3] == -250);
    assert!(rt; shares[62] == 0 && shares[63] == -32768);
    Ok(())
}

fn base_of(line: &str) -> Result<BasePoints, &'static str> {
    match read_line(line) {
        Ok(Statement::Base(base)) => Ok(base),
        _ => Err("no base points"),
    }
}

#[test]
fn base_points(rt: HostRuntime) -> Result<(), Fail> {
    assert_eq!(rt; base_of("base")?.as_slice(), [].as_slice());
    assert_eq!(rt;
        base_of("base 250 0 70000 # 1")?.as_slice(),
        [250, 0, 65535].as_slice()
    );
    let most =
        "base 1 2 3 4 5 6 7 8 1 2 3 4 5 6 7 8 1 2 3 4 5 6 7 8 1 2 3 4 5 6 7 8 1 2 3 4 5 6 7 8 1 2 3 4 5 6 7 8 1 2 3 4 5 6 7 8 1 2 3 4 5 6 7 8";
    assert_eq!(rt; base_of(most)?.as_slice().len(), 64);
    let more =
        "base 1 2 3 4 5 6 7 8 1 2 3 4 5 6 7 8 1 2 3 4 5 6 7 8 1 2 3 4 5 6 7 8 1 2 3 4 5 6 7 8 1 2 3 4 5 6 7 8 1 2 3 4 5 6 7 8 1 2 3 4 5 6 7 8 9";
    assert_eq!(rt; reason(more), "over 64 base points");
    Ok(())
}
