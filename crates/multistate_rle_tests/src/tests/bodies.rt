//! Bodies behind the header `x = 1, y = 1`.
use super::{PLAIN, Row, expect_outcome, expect_read, joined};
use std::alloc::Global;
use std::process::Abort;

/// Stops the test where the body isn't read as these cells.
fn expect_body(rt: &impl Abort, alloc: Global, body: &[u8], rows: &[Row]) {
    let text = joined(rt, alloc, PLAIN, body);
    expect_read(rt, alloc, &text, rows, b"", 0);
}

/// Stops the test where the body isn't refused by this number with this offset.
fn expect_faulty(rt: &impl Abort, alloc: Global, body: &[u8], number: u8, place: Option<u64>) {
    let text = joined(rt, alloc, PLAIN, body);
    expect_outcome(rt, alloc, &text, number, place);
}

#[test]
fn small_bodies(rt: HostRuntime) {
    let alloc = rt.alloc();
    expect_body(&rt, alloc, b"", &[]);
    expect_body(&rt, alloc, b"!", &[]);
    expect_body(&rt, alloc, b"o", &[(0, 0, 1)]);
    expect_body(&rt, alloc, b"yO!", &[(0, 0, 255)]);
    expect_body(
        &rt,
        alloc,
        b"A B\tX\npA\r\npXyA",
        &[
            (0, 0, 1),
            (1, 0, 2),
            (2, 0, 24),
            (3, 0, 25),
            (4, 0, 48),
            (5, 0, 241),
        ],
    );
    expect_body(&rt, alloc, b"p A", &[(0, 0, 25)]);
    expect_body(&rt, alloc, b"q\r\nA", &[(0, 0, 49)]);
    expect_body(&rt, alloc, b"1\t 1\r\n\nbo", &[(11, 0, 1)]);
    expect_body(&rt, alloc, b"b.o", &[(2, 0, 1)]);
    expect_body(
        &rt,
        alloc,
        b"3o2$2bA",
        &[(0, 0, 1), (1, 0, 1), (2, 0, 1), (2, 2, 1)],
    );
    expect_body(&rt, alloc, b"o$$$o", &[(0, 0, 1), (0, 3, 1)]);
    expect_body(&rt, alloc, b"0o0$0bo", &[(0, 0, 1), (1, 1, 1)]);
    expect_body(&rt, alloc, b"002o", &[(0, 0, 1), (1, 0, 1)]);
    expect_body(&rt, alloc, b"o5", &[(0, 0, 1)]);
    expect_body(&rt, alloc, b"o5!o", &[(0, 0, 1)]);
    expect_body(&rt, alloc, b"o!?\r", &[(0, 0, 1)]);
}

#[test]
fn bodies_with_great_counts(rt: HostRuntime) {
    let alloc = rt.alloc();
    expect_body(
        &rt,
        alloc,
        b"99999999999999999999999999999999999999999b!",
        &[],
    );
    expect_body(
        &rt,
        alloc,
        b"99999999999999999999999999999999999999999$!",
        &[],
    );
    expect_body(
        &rt,
        alloc,
        b"99999999999999999999999999999999999999999b$o!",
        &[(0, 1, 1)],
    );
    expect_body(
        &rt,
        alloc,
        b"2305843009213693951bo",
        &[(2305843009213693951, 0, 1)],
    );
    expect_body(
        &rt,
        alloc,
        b"2305843009213693951$o",
        &[(0, 2305843009213693951, 1)],
    );
}

#[test]
fn bytes_that_are_no_items(rt: HostRuntime) {
    let alloc = rt.alloc();
    expect_faulty(&rt, alloc, b"yP!", 22, Some(13));
    expect_faulty(&rt, alloc, b"yX", 22, Some(13));
    expect_faulty(&rt, alloc, b"12 yQ", 22, Some(16));
    expect_faulty(&rt, alloc, b"p", 22, Some(13));
    expect_faulty(&rt, alloc, b"p!", 22, Some(13));
    expect_faulty(&rt, alloc, b"p \n", 22, Some(13));
    expect_faulty(&rt, alloc, b"opY", 22, Some(14));
    expect_faulty(&rt, alloc, b"ppA", 22, Some(13));
    expect_faulty(&rt, alloc, b"p1A", 22, Some(13));
    expect_faulty(&rt, alloc, b"3pb", 22, Some(14));
    expect_faulty(&rt, alloc, b"p$", 22, Some(13));
    expect_faulty(&rt, alloc, b"Y", 22, Some(13));
    expect_faulty(&rt, alloc, b"a", 22, Some(13));
    expect_faulty(&rt, alloc, b"z", 22, Some(13));
    expect_faulty(&rt, alloc, b"-1o", 22, Some(13));
    expect_faulty(&rt, alloc, b"oo#o", 22, Some(15));
    expect_faulty(&rt, alloc, b"o\r!", 22, Some(14));
    expect_faulty(&rt, alloc, b"o\r", 22, Some(14));
    expect_faulty(&rt, alloc, b"o\r\r\n!", 22, Some(14));
    expect_faulty(&rt, alloc, b"p\rA", 22, Some(13));
    expect_faulty(&rt, alloc, b"\x0bo", 22, Some(13));
}

#[test]
fn cells_that_are_too_many_or_too_far(rt: HostRuntime) {
    let alloc = rt.alloc();
    expect_faulty(&rt, alloc, b"16777217o!", 24, None);
    expect_faulty(&rt, alloc, b"16777216o$o!", 24, None);
    expect_faulty(
        &rt,
        alloc,
        b"99999999999999999999999999999999999999999o!",
        24,
        None,
    );
    expect_faulty(
        &rt,
        alloc,
        b"99999999999999999999999999999999999999999bo!",
        41,
        None,
    );
    expect_faulty(
        &rt,
        alloc,
        b"99999999999999999999999999999999999999999$o!",
        41,
        None,
    );
    expect_faulty(&rt, alloc, b"2305843009213693952bo", 41, None);
    expect_faulty(&rt, alloc, b"2305843009213693952$o", 41, None);
    expect_faulty(&rt, alloc, b"2305843009213693951b2o", 41, None);
}

#[test]
fn the_first_of_several_faults_in_order(rt: HostRuntime) {
    let alloc = rt.alloc();
    // An item comes first, then the count of live cells, then a place.
    expect_faulty(&rt, alloc, b"16777217o?", 22, Some(22));
    expect_faulty(&rt, alloc, b"2305843009213693952bo?", 22, Some(34));
    expect_faulty(&rt, alloc, b"2305843009213693952bo16777216o", 24, None);
    expect_faulty(&rt, alloc, b"2305843009213693952bo16777215o", 41, None);
    expect_faulty(&rt, alloc, b"16777217o2305843009213693952bo", 24, None);
}
