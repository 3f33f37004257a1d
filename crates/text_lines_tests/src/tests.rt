//! Texts with what they say, worked out by hand.
use std::alloc::Global;
use std::fmt::Debug;
use std::process::Abort;
use text_lines::{Lines, find_byte, is_blank, named_value, number, trim, trim_end, trim_start};

/// Stops the test where what was found isn't what is wanted.
fn same<T: PartialEq + Debug, A: Debug>(rt: &impl Abort, found: &T, wanted: &T, at: &A) {
    assert!(rt; *found == *wanted, "{at:?}: {found:?} is not {wanted:?}");
}

fn expect_blank(rt: &impl Abort, byte: u8, wanted: bool) {
    same(rt, &is_blank(byte), &wanted, &byte);
}

fn expect_trimmed(rt: &impl Abort, bytes: &[u8], wanted: &[u8]) {
    same(rt, &trim(bytes), &wanted, &bytes);
}

#[test]
fn blanks(rt: HostRuntime) {
    expect_blank(&rt, b' ', true);
    expect_blank(&rt, b'\t', true);
    expect_blank(&rt, b'\n', false);
    expect_blank(&rt, b'\r', false);
    expect_blank(&rt, 11, false);
    expect_blank(&rt, b'a', false);
    expect_blank(&rt, 0xa0, false);
}

#[test]
fn what_lies_between_blanks(rt: HostRuntime) {
    expect_trimmed(&rt, b"", b"");
    expect_trimmed(&rt, b" \t ", b"");
    expect_trimmed(&rt, b"a", b"a");
    expect_trimmed(&rt, b" \ta b\t ", b"a b");
    expect_trimmed(&rt, b"\r ", b"\r");
    let text = b" a ".as_slice();
    same(&rt, &trim_start(text), &b"a ".as_slice(), &text);
    same(&rt, &trim_end(text), &b" a".as_slice(), &text);
}

/// Adds the line with a bar behind it.
fn show(rt: &impl Abort, shown: &mut Vec<u8>, line: &[u8]) {
    shown.extend_from_slice(line).expect(rt, "memory");
    shown.push(b'|').expect(rt, "memory");
}

/// Stops the test where the lines of the text, each with a bar behind it, aren't the wanted ones.
fn expect_lines(rt: &impl Abort, alloc: Global, text: &[u8], wanted: &[u8]) {
    let mut shown = Vec::new(alloc);
    for line in Lines::new(text) {
        show(rt, &mut shown, line);
    }
    same(rt, &shown.as_slice(), &wanted, &text);
}

#[test]
fn lines_of_texts(rt: HostRuntime) {
    let alloc = rt.alloc();
    expect_lines(&rt, alloc, b"", b"");
    expect_lines(&rt, alloc, b"\n", b"|");
    expect_lines(&rt, alloc, b"\r\n", b"|");
    expect_lines(&rt, alloc, b"a", b"a|");
    expect_lines(&rt, alloc, b"a\n", b"a|");
    expect_lines(&rt, alloc, b"a\nb", b"a|b|");
    expect_lines(&rt, alloc, b"a\r\nb\r\n", b"a|b|");
    expect_lines(&rt, alloc, b"a\n\n b \n", b"a||b|");
    expect_lines(&rt, alloc, b"a\r", b"a\r|");
    expect_lines(&rt, alloc, b"a\r\r\n", b"a\r|");
    expect_lines(&rt, alloc, b"a\rb\n", b"a\rb|");
    expect_lines(&rt, alloc, b"a \r\n", b"a|");
    expect_lines(&rt, alloc, b"a\r \n", b"a\r|");
    expect_lines(&rt, alloc, b"\n ", b"||");
}

fn expect_number(rt: &impl Abort, digits: &[u8], wanted: Option<u64>) {
    same(rt, &number(digits), &wanted, &digits);
}

#[test]
fn numbers(rt: HostRuntime) {
    expect_number(&rt, b"", None);
    expect_number(&rt, b"0", Some(0));
    expect_number(&rt, b"007", Some(7));
    expect_number(&rt, b"18446744073709551615", Some(u64::MAX));
    expect_number(&rt, b"18446744073709551614", Some(u64::MAX - 1));
    expect_number(&rt, b"18446744073709551616", Some(u64::MAX));
    expect_number(
        &rt,
        b"99999999999999999999999999999999999999999",
        Some(u64::MAX),
    );
    expect_number(&rt, b"00000000000000000000000000000000000000012", Some(12));
    expect_number(&rt, b"+1", None);
    expect_number(&rt, b"-1", None);
    expect_number(&rt, b"1.0", None);
    expect_number(&rt, b" 1", None);
    expect_number(&rt, b"1a", None);
    expect_number(&rt, b"99999999999999999999x", None);
}

#[test]
fn bytes(rt: HostRuntime) {
    same(&rt, &find_byte(b"a,b,c", b','), &Some(1), &"a comma");
    same(&rt, &find_byte(b"a,b,c", b':'), &None, &"a colon");
    same(&rt, &find_byte(b"", b':'), &None, &"nothing");
}

fn expect_named(rt: &impl Abort, line: &[u8], wanted: Option<(&[u8], &[u8])>) {
    same(rt, &named_value(line, b'='), &wanted, &line);
}

#[test]
fn named_values(rt: HostRuntime) {
    expect_named(&rt, b"states=3", Some((b"states", b"3")));
    expect_named(&rt, b"states", None);
    expect_named(&rt, b"states:3", None);
    expect_named(&rt, b"", None);
    expect_named(&rt, b" a b \t=\t c d ", Some((b" a b", b"c d ")));
    expect_named(&rt, b"=3", Some((b"", b"3")));
    expect_named(&rt, b"states=", Some((b"states", b"")));
    expect_named(&rt, b"a=b=c", Some((b"a", b"b=c")));
    expect_named(&rt, b"a== b", Some((b"a", b"= b")));
    expect_named(&rt, b" = ", Some((b"", b"")));
}
