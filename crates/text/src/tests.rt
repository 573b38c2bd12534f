// Numbers at the ends of their ranges, and a line that is full.

use super::Line;

#[test]
fn unsigned_numbers(rt: HostRuntime) {
    let mut line = Line::new();
    line.put_unsigned(0);
    line.put_text(b" 9 ");
    line.put_unsigned(10);
    line.put(b' ');
    line.put_unsigned(18446744073709551615);
    let mut out = [b'.'; 30];
    assert_eq!(rt; line.copy_to(&mut out, 1), Some(28));
    assert_eq!(rt; &out, b".0 9 10 18446744073709551615..");
}

#[test]
fn signed_numbers(rt: HostRuntime) {
    let mut line = Line::new();
    line.put_signed(-9223372036854775808);
    line.put_signed(-1);
    line.put_signed(9);
    let mut out = [b'.'; 24];
    assert_eq!(rt; line.copy_to(&mut out, 0), Some(23));
    assert_eq!(rt; &out, b"-9223372036854775808-19.");
}

#[test]
fn full_line(rt: HostRuntime) {
    let mut line = Line::new();
    line.put_text(&[b'a'; 79]);
    line.put_unsigned(23);
    let mut out = [b'.'; 81];
    assert_eq!(rt; line.copy_to(&mut out, 2), None);
    assert_eq!(rt; &out, &[b'.'; 81]);
    assert_eq!(rt; line.copy_to(&mut out, 1), Some(81));
    assert_eq!(rt; out[80], b'2');
}
