// Lines of each kind, numbers past their fields, and each mistake.

use block::BlockRow;
use calls::{BasePoints, Call, ParticipantTerm, Proposal};
use entries::References;
use rows::Row;
use script_runs::{Statement, read_line};
use std::test::Fail;

// The reason of the line's mistake, or nothing.
fn reason(line: &str) -> &'static str {
    match read_line(line) {
        Ok(_) => "",
        Err(mistake) => mistake.reason(),
    }
}

fn row_of(line: &str) -> Result<Row, &'static str> {
    match read_line(line) {
        Ok(Statement::Row(row)) => Ok(row),
        _ => Err("no row"),
    }
}

fn cap_of(line: &str) -> Option<u32> {
    match read_line(line) {
        Ok(Statement::Cap(cents)) => Some(cents),
        _ => None,
    }
}

fn blocks_of(line: &str) -> Result<BlockRow, &'static str> {
    match read_line(line) {
        Ok(Statement::Block(row)) => Ok(row),
        _ => Err("no blocks"),
    }
}

fn term_of(line: &str) -> Result<ParticipantTerm, &'static str> {
    match read_line(line) {
        Ok(Statement::Call(Call::Term(term))) => Ok(term),
        _ => Err("no term"),
    }
}

fn references_of(line: &str) -> Result<References, &'static str> {
    match read_line(line) {
        Ok(Statement::Reference(references)) => Ok(references),
        _ => Err("no reference prices"),
    }
}

#[test]
fn nothing_is_said() -> Result<(), Fail> {
    for line in ["", "  \t ", "# row", "   # cap 1"] {
        match read_line(line) {
            Ok(Statement::Blank) => {}
            _ => return Err(Fail::new("the line says something")),
        }
    }
    Ok(())
}

#[test]
fn mistakes(rt: HostRuntime) {
    for (line, mistake) in [
        ("cup 500000", "unknown word"),
        ("line 0", "a share is bus:share"),
        ("line -1:5", "not a number"),
        ("line 64:5", "a bus is 0 to 63"),
        ("line 3:0 4:1 3:0", "a bus is named twice"),
        ("base 1 x", "not a number"),
        ("cap # 500000", "missing word"),
        ("row N 0 100 100 300 300", "missing word"),
        ("cap 500000 1", "extra word"),
        ("cap +5", "not a number"),
        ("row N -1 100 100 300 300 0", "not a number"),
        ("row N 0 100 100 300 300 0 :5", "not a number"),
        ("row N 0 100 100 300 300 0 5:-", "not a number"),
        ("row NN 0 100 100 300 300 0", "a class is one letter"),
        ("row N 0 100 100 300 300 0 100", "a point is level:price"),
        ("row X 0 100 100 300 300 0 1:2 # 3", ""),
        ("block 0 100", "a block is size:price"),
        ("block 0 -1:5", "not a number"),
        ("block", "missing word"),
        ("term 0 -25000 0 0 maybe", "neither yes nor no"),
        ("term 0 -25000 0 0", "missing word"),
        ("term 0 -25000 0 -1 no", "not a number"),
        ("term 0 -25000 0 0 no no", "extra word"),
        ("reference 1 2 x", "not a number"),
        ("require 250", "missing word"),
        ("require 250 0 0", "extra word"),
        ("require -1 0", "not a number"),
        ("limit 0 200", "missing word"),
        ("limit 0 200 no no", "extra word"),
        ("limit 0 200 0", "neither yes nor no"),
        ("propose 1", "missing word"),
        ("propose 1 3500 0 250", "no / before the base points"),
        ("propose 1 3500 0/250", "not a number"),
        ("propose 1 3500 -1 / 250", "not a number"),
        ("propose 1 3500 / 250 / 0", "not a number"),
        ("propose / 3500 / 250", "not a number"),
        ("weigh 1 3500", "no / before the base points"),
        ("listing", "missing word"),
        ("listing 1 2", "extra word"),
        ("listing one", "not a number"),
    ] {
        assert_eq!(rt; reason(line), mistake, "{}", line);
    }
}

#[test]
fn numbers_are_clamped(rt: HostRuntime) -> Result<(), Fail> {
    assert_eq!(rt; cap_of("cap 5000000000"), Some(4294967295));
    assert_eq!(rt; cap_of("cap 99999999999999999999999"), Some(4294967295));
    let row = row_of("row N 300 70000 65535 1 2 3 4:-99999999999 70000:99999999999")?;
    assert!(rt; row.letter == 'N' && row.bus == 255 && row.lsl == 65535 && row.ldl == 65535);
    assert!(rt; row.hdl == 1 && row.hsl == 2 && row.reading == 3 && row.points.count == 2);
    let [low, high, ..] = row.points.items;
    assert!(rt; low.level == 4 && low.price == -2147483648);
    assert!(rt; high.level == 65535 && high.price == 2147483647);
    Ok(())
}

#[test]
fn eleven_points(rt: HostRuntime) -> Result<(), Fail> {
    let row = row_of("row I 1 0 0 9 9 0 1:1 2:2 3:3 4:4 5:5 6:6 7:7 8:8 9:9 10:10 11:11")?;
    assert_eq!(rt; row.points.count, 11);
    assert_eq!(rt; row.points.items[9].level, 10);
    Ok(())
}

#[test]
fn two_blocks(rt: HostRuntime) -> Result<(), Fail> {
    let row = blocks_of("block 300 100:-2000 70000:3000")?;
    assert!(rt; row.bus == 255 && row.blocks.count == 2);
    let [first, second, ..] = row.blocks.items;
    assert!(rt; first.size == 100 && first.price == -2000);
    assert!(rt; second.size == 65535 && second.price == 3000);
    Ok(())
}

#[test]
fn eleven_blocks(rt: HostRuntime) -> Result<(), Fail> {
    let row = blocks_of("block 1 1:1 2:2 3:3 4:4 5:5 6:6 7:7 8:8 9:9 10:10 11:11")?;
    assert_eq!(rt; row.blocks.count, 11);
    assert_eq!(rt; row.blocks.items[9].size, 10);
    Ok(())
}

#[test]
fn terms(rt: HostRuntime) -> Result<(), Fail> {
    let term = term_of("term 3 -25000 -7 5000000000 yes")?;
    assert!(rt; term.participant == 3 && term.floor == -25000 && term.ceiling == -7);
    assert!(rt; term.adder == 4294967295 && term.subject);
    assert!(rt; !term_of("term 0 0 0 0 no")?.subject);
    Ok(())
}

// Sixty-four prices are kept, and one more is a mistake.
#[test]
fn references(rt: HostRuntime) -> Result<(), Fail> {
    let none = references_of("reference")?;
    assert_eq!(rt; none.count, 0);
    let three = references_of("reference 2000 99999999999 -1")?;
    let [first, second, third, fourth, ..] = three.items;
    assert_eq!(rt; three.count, 3);
    assert!(rt; first == 2000 && second == 2147483647 && third == -1 && fourth == 0);
    let most =
        "reference 1 2 3 4 5 6 7 8 9 10 11 12 13 14 15 16 17 18 19 20 21 22 23 24 25 26 27 28 29 30 31 32 33 34 35 36 37 38 39 40 41 42 43 44 45 46 47 48 49 50 51 52 53 54 55 56 57 58 59 60 61 62 63 64";
    assert_eq!(rt; references_of(most)?.items[63], 64);
    let more =
        "reference 1 2 3 4 5 6 7 8 9 10 11 12 13 14 15 16 17 18 19 20 21 22 23 24 25 26 27 28 29 30 31 32 33 34 35 36 37 38 39 40 41 42 43 44 45 46 47 48 49 50 51 52 53 54 55 56 57 58 59 60 61 62 63 64 65";
    assert_eq!(rt; reason(more), "more than 64 reference prices");
    Ok(())
}

#[test]
fn shares(rt: HostRuntime) -> Result<(), Fail> {
    let Ok(Statement::Line(shares)) = read_line("line 63:-99999 0:1000 3:-250 1:99999") else {
        return Err(Fail::new("no line"));
    };
    assert!(rt; shares[0] == 1000 && shares[1] == 32767 && shares[2] == 0 && shares[3] == -250);
    assert!(rt; shares[62] == 0 && shares[63] == -32768);
    Ok(())
}

fn base_of(line: &str) -> Result<BasePoints, &'static str> {
    match read_line(line) {
        Ok(Statement::Base(base)) => Ok(base),
        _ => Err("no base points"),
    }
}

#[test]
fn base_points(rt: HostRuntime) -> Result<(), Fail> {
    assert_eq!(rt; base_of("base")?.as_slice(), [].as_slice());
    assert_eq!(rt;
        base_of("base 250 0 70000 # 1")?.as_slice(),
        [250, 0, 65535].as_slice()
    );
    let most =
        "base 1 2 3 4 5 6 7 8 1 2 3 4 5 6 7 8 1 2 3 4 5 6 7 8 1 2 3 4 5 6 7 8 1 2 3 4 5 6 7 8 1 2 3 4 5 6 7 8 1 2 3 4 5 6 7 8 1 2 3 4 5 6 7 8";
    assert_eq!(rt; base_of(most)?.as_slice().len(), 64);
    let more =
        "base 1 2 3 4 5 6 7 8 1 2 3 4 5 6 7 8 1 2 3 4 5 6 7 8 1 2 3 4 5 6 7 8 1 2 3 4 5 6 7 8 1 2 3 4 5 6 7 8 1 2 3 4 5 6 7 8 1 2 3 4 5 6 7 8 9";
    assert_eq!(rt; base_of(more)?.count, 65);
    assert_eq!(rt; base_of(more)?.as_slice().len(), 64);
    Ok(())
}

#[test]
fn requirements(rt: HostRuntime) -> Result<(), Fail> {
    for (line, amount, tolerance) in [
        ("require 0 0", 0, 0),
        (
            "require 4294967295 18446744073709551615",
            4294967295,
            18446744073709551615,
        ),
        (
            "require 4294967296 18446744073709551616",
            4294967295,
            18446744073709551615,
        ),
    ] {
        let Ok(Statement::Call(Call::Require(requirement))) = read_line(line) else {
            return Err(Fail::new("no requirement"));
        };
        assert_eq!(rt; requirement.amount, amount);
        assert_eq!(rt; requirement.tolerance, tolerance);
    }
    Ok(())
}

#[test]
fn limits(rt: HostRuntime) -> Result<(), Fail> {
    for (line, place, amount, competitive) in [
        ("limit 0 200 no", 0, 200, false),
        (
            "limit 18446744073709551616 4294967296 yes",
            18446744073709551615,
            4294967295,
            true,
        ),
    ] {
        let Ok(Statement::Call(Call::Limit(limit))) = read_line(line) else {
            return Err(Fail::new("no limit"));
        };
        assert_eq!(rt; limit.line, place);
        assert_eq!(rt; limit.amount, amount);
        assert_eq!(rt; limit.competitive, competitive);
    }
    Ok(())
}

fn proposal_of(line: &str) -> Result<Proposal, &'static str> {
    match read_line(line) {
        Ok(Statement::Call(Call::Propose(proposal))) => Ok(proposal),
        _ => Err("no proposal"),
    }
}

#[test]
fn proposals(rt: HostRuntime) -> Result<(), Fail> {
    let usual = proposal_of("propose 1 3500 0 7 / 250 0 # 9")?;
    assert!(rt; usual.step == 1 && usual.system == 3500);
    assert_eq!(rt; usual.shadow.as_slice(), [0, 7].as_slice());
    assert_eq!(rt; usual.base.as_slice(), [250, 0].as_slice());
    let bare = proposal_of("propose 0 -99999999999 /")?;
    assert!(rt; bare.step == 0 && bare.system == -2147483648);
    assert!(rt; bare.shadow.count == 0 && bare.base.count == 0);
    let large = proposal_of("propose 256 99999999999 4294967296 / 65536")?;
    assert!(rt; large.step == 255 && large.system == 2147483647);
    assert_eq!(rt; large.shadow.as_slice(), [4294967295].as_slice());
    assert_eq!(rt; large.base.as_slice(), [65535].as_slice());
    Ok(())
}

// Past their tables shadow prices are counted and not kept.
#[test]
fn many_shadow_prices(rt: HostRuntime) -> Result<(), Fail> {
    let most = proposal_of(
        "propose 2 0 1 2 3 4 5 6 7 8 1 2 3 4 5 6 7 8 1 2 3 4 5 6 7 8 1 2 3 4 5 6 7 32 / 1",
    )?;
    assert_eq!(rt; most.shadow.count, 32);
    assert_eq!(rt; most.shadow.items[31], 32);
    let more = proposal_of(
        "propose 2 0 1 2 3 4 5 6 7 8 1 2 3 4 5 6 7 8 1 2 3 4 5 6 7 8 1 2 3 4 5 6 7 32 33 / 1",
    )?;
    assert_eq!(rt; more.shadow.count, 33);
    assert_eq!(rt; more.shadow.items[31], 32);
    assert_eq!(rt; more.base.as_slice(), [1].as_slice());
    Ok(())
}

#[test]
fn weighed(rt: HostRuntime) -> Result<(), Fail> {
    let Ok(Statement::Weigh(proposal)) = read_line("weigh 1 3500 0 / 250 0") else {
        return Err(Fail::new("nothing to weigh"));
    };
    assert!(rt; proposal.step == 1 && proposal.system == 3500);
    assert_eq!(rt; proposal.shadow.as_slice(), [0].as_slice());
    assert_eq!(rt; proposal.base.as_slice(), [250, 0].as_slice());
    Ok(())
}

#[test]
fn listings(rt: HostRuntime) -> Result<(), Fail> {
    for (line, step) in [("listing 0", 0), ("listing 2", 2), ("listing 256", 255)] {
        let Ok(Statement::Listing(asked)) = read_line(line) else {
            return Err(Fail::new("no listing"));
        };
        assert_eq!(rt; asked, step);
    }
    Ok(())
}
