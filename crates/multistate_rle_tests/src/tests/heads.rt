//! Comments and header lines.
use super::{PLAIN, expect_outcome, expect_read, joined};
use std::alloc::Global;
use std::process::Abort;

/// This comment line, PLAIN and this body.
fn with_comment(rt: &impl Abort, alloc: Global, comment: &[u8], body: &[u8]) -> Vec<u8> {
    let line = joined(rt, alloc, comment, b"\n");
    let head = joined(rt, alloc, &line, PLAIN);
    joined(rt, alloc, &head, body)
}

/// Stops the test where the comment doesn't place a cell and give this generation.
fn expect_comment(rt: &impl Abort, alloc: Global, comment: &[u8], x: i64, y: i64, generation: u64) {
    let text = with_comment(rt, alloc, comment, b"o!");
    expect_read(rt, alloc, &text, &[(x, y, 1)], b"", generation);
}

/// Stops the test where the body at a place isn't refused by this number, or for 0 read.
fn expect_far(rt: &impl Abort, alloc: Global, place: &[u8], body: &[u8], number: u8) {
    let comment = joined(rt, alloc, b"#CXRLE Pos=", place);
    let text = with_comment(rt, alloc, &comment, body);
    expect_outcome(rt, alloc, &text, number, None);
}

/// Stops the test where the header doesn't give this name.
fn expect_header(rt: &impl Abort, alloc: Global, header: &[u8], name: &[u8]) {
    let text = joined(rt, alloc, header, b"\n");
    expect_read(rt, alloc, &text, &[], name, 0);
}

/// Stops the test where the header isn't refused by this number.
fn expect_bad_header(rt: &impl Abort, alloc: Global, header: &[u8], number: u8) {
    let text = joined(rt, alloc, header, b"\n");
    expect_outcome(rt, alloc, &text, number, None);
}

#[test]
fn comments(rt: HostRuntime) {
    let alloc = rt.alloc();
    expect_comment(&rt, alloc, b"#CXRLE", 0, 0, 0);
    expect_comment(&rt, alloc, b"#CXRLE Pos=1,2 Gen=5", 1, 2, 5);
    expect_comment(&rt, alloc, b"#CXRLEPos=1,2", 1, 2, 0);
    expect_comment(
        &rt,
        alloc,
        b"\t #CXRLE  Pos = -1\t, 002\t\tGen\t= 5 ",
        -1,
        2,
        5,
    );
    expect_comment(&rt, alloc, b"#CXRLE Gen=5 Pos=1,2\r", 1, 2, 5);
    expect_comment(&rt, alloc, b"#CXRLE Pos=-0,-1", 0, -1, 0);
    expect_comment(&rt, alloc, b"#CXRLE Pos=+1,0", 0, 0, 0);
    expect_comment(&rt, alloc, b"#CXRLE Pos=1,", 0, 0, 0);
    expect_comment(&rt, alloc, b"#CXRLE Pos=1", 0, 0, 0);
    expect_comment(&rt, alloc, b"#CXRLE Pos=1,2,3", 0, 0, 0);
    expect_comment(&rt, alloc, b"#CXRLE Pos=1,--2", 0, 0, 0);
    expect_comment(&rt, alloc, b"#CXRLE Pos=1,-", 0, 0, 0);
    expect_comment(&rt, alloc, b"#CXRLE Pos=1, Gen=5", 0, 0, 0);
    expect_comment(&rt, alloc, b"#CXRLE Pos=1,2 Pos=3,4", 3, 4, 0);
    expect_comment(&rt, alloc, b"#CXRLE Pos=1,2 Pos=3", 1, 2, 0);
}

#[test]
fn comments_with_several_parts(rt: HostRuntime) {
    let alloc = rt.alloc();
    expect_comment(&rt, alloc, b"#CXRLE Gen=1 Gen=2 Gen=x Gen=-3", 0, 0, 2);
    expect_comment(&rt, alloc, b"#CXRLE Size=7,7 Pos=1,2 and more", 1, 2, 0);
    expect_comment(&rt, alloc, b"#CXRLE pos=1,2 gen=3", 0, 0, 0);
    expect_comment(&rt, alloc, b"#C Pos=1,2", 0, 0, 0);
    expect_comment(&rt, alloc, b"#cxrle Pos=1,2", 0, 0, 0);
    expect_comment(&rt, alloc, b"# #CXRLE Pos=1,2", 0, 0, 0);
    expect_comment(
        &rt,
        alloc,
        b"#CXRLE Pos=1,2\n#CXRLE Gen=3\n#CXRLE Pos=4,5",
        4,
        5,
        3,
    );
    expect_comment(
        &rt,
        alloc,
        b"#CXRLE Pos=1,2 Pos=9223372036854775808,0",
        1,
        2,
        0,
    );
    expect_comment(
        &rt,
        alloc,
        b"#CXRLE Pos=1,2 Pos=0,-9223372036854775809",
        1,
        2,
        0,
    );
}

#[test]
fn comments_with_great_numbers(rt: HostRuntime) {
    let alloc = rt.alloc();
    expect_comment(
        &rt,
        alloc,
        b"#CXRLE Gen=18446744073709551615",
        0,
        0,
        18446744073709551615,
    );
    expect_comment(
        &rt,
        alloc,
        b"#CXRLE Gen=18446744073709551616",
        0,
        0,
        18446744073709551615,
    );
    expect_comment(
        &rt,
        alloc,
        b"#CXRLE Gen=99999999999999999999999999999999999999999",
        0,
        0,
        18446744073709551615,
    );
    expect_comment(
        &rt,
        alloc,
        b"#CXRLE Pos=2305843009213693951,0",
        2305843009213693951,
        0,
        0,
    );
    expect_comment(
        &rt,
        alloc,
        b"#CXRLE Pos=-2305843009213693952,-2305843009213693952",
        -2305843009213693952,
        -2305843009213693952,
        0,
    );
}

#[test]
fn far_places(rt: HostRuntime) {
    let alloc = rt.alloc();
    expect_far(&rt, alloc, b"2305843009213693951,0", b"2o!", 41);
    expect_far(&rt, alloc, b"2305843009213693952,0", b"o!", 41);
    expect_far(&rt, alloc, b"0,2305843009213693951", b"o!", 0);
    expect_far(&rt, alloc, b"0,2305843009213693951", b"$o!", 41);
    expect_far(&rt, alloc, b"-2305843009213693953,0", b"o!", 41);
    expect_far(&rt, alloc, b"-2305843009213693953,0", b"2o!", 41);
    expect_far(&rt, alloc, b"-2305843009213693953,0", b"bo!", 0);
    expect_far(&rt, alloc, b"0,-2305843009213693953", b"o!", 41);
    expect_far(&rt, alloc, b"0,-2305843009213693953", b"$o!", 0);
}

#[test]
fn farthest_places(rt: HostRuntime) {
    let alloc = rt.alloc();
    expect_far(
        &rt,
        alloc,
        b"9223372036854775807,9223372036854775807",
        b"b!",
        0,
    );
    expect_far(&rt, alloc, b"9223372036854775807,0", b"o!", 41);
    expect_far(
        &rt,
        alloc,
        b"-9223372036854775808,0",
        b"9223372036854775808bo!",
        0,
    );
    expect_far(
        &rt,
        alloc,
        b"-9223372036854775808,0",
        b"11529215046068469759bo!",
        0,
    );
    expect_far(
        &rt,
        alloc,
        b"-9223372036854775808,0",
        b"11529215046068469760bo!",
        41,
    );
    expect_far(
        &rt,
        alloc,
        b"-9223372036854775808,0",
        b"18446744073709551616bo!",
        41,
    );
}

#[test]
fn headers(rt: HostRuntime) {
    let alloc = rt.alloc();
    expect_header(&rt, alloc, b"x=1,y=1", b"");
    expect_header(
        &rt,
        alloc,
        b" \tx\t=  00 ,y =99999999999999999999999999999999999999999\t",
        b"",
    );
    expect_header(&rt, alloc, b"x = 1, y = 1, rule = T", b"T");
    expect_header(&rt, alloc, b"x = 1, y = 1, rule =", b"");
    expect_header(
        &rt,
        alloc,
        b"x = 1, y = 1,rule=  a , b = c\t d ",
        b"a , b = c\t d",
    );
    expect_header(&rt, alloc, b"x = 1, y = 1, rule = T\r", b"T");
    expect_header(&rt, alloc, b"x = 1, y = 1, rule = =", b"=");
}

#[test]
fn carriage_returns_that_no_line_feed_follows(rt: HostRuntime) {
    let alloc = rt.alloc();
    expect_read(&rt, alloc, b"x = 1, y = 1, rule = T\r", &[], b"T\r", 0);
    expect_outcome(&rt, alloc, b"x = 1, y = 1\r", 21, None);
}

#[test]
fn bad_headers(rt: HostRuntime) {
    let alloc = rt.alloc();
    expect_bad_header(&rt, alloc, b"", 20);
    expect_bad_header(&rt, alloc, b"# nothing", 20);
    expect_bad_header(&rt, alloc, b"y = 1, x = 1", 20);
    expect_bad_header(&rt, alloc, b"X = 1, y = 1", 20);
    expect_bad_header(&rt, alloc, b"y = 1, rule = T:", 20);
    expect_bad_header(&rt, alloc, b"x", 21);
    expect_bad_header(&rt, alloc, b"xx = 1, y = 1", 21);
    expect_bad_header(&rt, alloc, b"x = 1", 21);
    expect_bad_header(&rt, alloc, b"x = 1,", 21);
    expect_bad_header(&rt, alloc, b"x = , y = 1", 21);
    expect_bad_header(&rt, alloc, b"x = 1, y =", 21);
    expect_bad_header(&rt, alloc, b"x 1, y = 1", 21);
    expect_bad_header(&rt, alloc, b"x = -1, y = 1", 21);
    expect_bad_header(&rt, alloc, b"x = 1, y = +1", 21);
    expect_bad_header(&rt, alloc, b"x = 1 1, y = 1", 21);
    expect_bad_header(&rt, alloc, b"x = 1, z = 1", 21);
    expect_bad_header(&rt, alloc, b"x = 1, y = 1 o", 21);
    expect_bad_header(&rt, alloc, b"x = 1, y = 1,", 21);
    expect_bad_header(&rt, alloc, b"x = 1, y = 1, rule", 21);
    expect_bad_header(&rt, alloc, b"x = 1, y = 1, rules = T", 21);
    expect_bad_header(&rt, alloc, b"x = 1, y = 1, foo = 1, rule = T", 21);
    expect_bad_header(&rt, alloc, b"x = 1, y = 1\r\r", 21);
    expect_bad_header(&rt, alloc, b"x = 1, y, rule = T:", 21);
    expect_bad_header(&rt, alloc, b"x = 1, y = 1, rule = T:T30,20", 23);
    expect_bad_header(&rt, alloc, b"x = 1, y = 1, rule = :", 23);
}

/// Stops the test where a faulty header isn't told whatever the body is.
fn expect_told_first(rt: &impl Abort, alloc: Global, header: &[u8], number: u8) {
    let line = joined(rt, alloc, header, b"\n");
    expect_bad_header(rt, alloc, &joined(rt, alloc, &line, b"o!"), number);
    expect_bad_header(rt, alloc, &joined(rt, alloc, &line, b"?"), number);
    expect_bad_header(rt, alloc, &joined(rt, alloc, &line, b"16777217o!"), number);
    let far = joined(rt, alloc, &line, b"2305843009213693952bo!");
    expect_bad_header(rt, alloc, &far, number);
}

#[test]
fn headers_before_bodies(rt: HostRuntime) {
    let alloc = rt.alloc();
    expect_told_first(&rt, alloc, b"y = 1, rule = T:", 20);
    expect_told_first(&rt, alloc, b"x = 1, rule = T:", 21);
    expect_told_first(&rt, alloc, b"x = 1, y = 1, rule = T:T30,20", 23);
}

// These need no memory, nor do they ask where the comment places the pattern.
#[test]
fn faults_behind_a_comment(rt: HostRuntime) {
    let alloc = rt.alloc();
    expect_outcome(&rt, alloc, b"#CXRLE Pos=1,2\n", 20, None);
    expect_outcome(&rt, alloc, b"#CXRLE Pos=1,2\nx = 1\n", 21, None);
    expect_outcome(
        &rt,
        alloc,
        b"#CXRLE Pos=1,2\nx = 1, y = 1, rule = a:b\n",
        23,
        None,
    );
    expect_outcome(&rt, alloc, b"#CXRLE Pos=1,2\nx = 1, y = 1\n?", 22, Some(28));
    expect_outcome(
        &rt,
        alloc,
        b"#CXRLE Pos=1,2\nx = 1, y = 1\n16777217o!",
        24,
        None,
    );
}
