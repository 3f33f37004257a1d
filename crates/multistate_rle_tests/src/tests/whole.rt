//! Whole files, and their beginnings.
use super::{expect_outcome, expect_read};
use std::alloc::Global;
use std::process::Abort;

#[test]
fn whole_files(rt: HostRuntime) {
    let alloc = rt.alloc();
    expect_read(
        &rt,
        alloc,
        b"x = 3, y = 2, rule = T\n.A$2.pA!",
        &[(1, 0, 1), (2, 1, 25)],
        b"T",
        0,
    );
    expect_read(
        &rt,
        alloc,
        b"x = 3, y = 2, rule = T\n.A$2.pA",
        &[(1, 0, 1), (2, 1, 25)],
        b"T",
        0,
    );
    expect_read(
        &rt,
        alloc,
        b"#CXRLE Pos=-3,2 Gen=7\nx = 2, y = 1\n2A!",
        &[(-3, 2, 1), (-2, 2, 1)],
        b"",
        7,
    );
    expect_read(
        &rt,
        alloc,
        b"\r\n#C a comment\r\n \t\r\n#CXRLE Pos=1,1\r\nx = 1, y = 1, rule = T\r\no\r\n$\r\no!\r\nwhatever",
        &[(1, 1, 1), (1, 2, 1)],
        b"T",
        0,
    );
}

// A file with a rule's name.
const NAMED: &[u8] = b"x = 3, y = 2, rule = T\n.A$2.pA!";

/// Stops the test where the first bytes of NAMED aren't read as this.
fn expect_named(rt: &impl Abort, alloc: Global, len: usize) {
    let text = &NAMED[..len.min(NAMED.len())];
    match len {
        0 => expect_outcome(rt, alloc, text, 20, None),
        // Whole at 12 without a rule, and from 20 on with one.
        1..=11 | 13..=19 => expect_outcome(rt, alloc, text, 21, None),
        12 | 20 | 21 => expect_read(rt, alloc, text, &[], b"", 0),
        22..=24 => expect_read(rt, alloc, text, &[], b"T", 0),
        25..=28 => expect_read(rt, alloc, text, &[(1, 0, 1)], b"T", 0),
        29 => expect_outcome(rt, alloc, text, 22, Some(28)),
        _ => expect_read(rt, alloc, text, &[(1, 0, 1), (2, 1, 25)], b"T", 0),
    }
}

#[test]
fn beginnings_of_a_named_file(rt: HostRuntime) {
    for len in 0..32usize {
        expect_named(&rt, rt.alloc(), len);
    }
}

// A file with a place and a generation.
const PLACED: &[u8] = b"#CXRLE Pos=-3,2 Gen=7\nx = 2, y = 1\n2A!";

/// Stops the test where the first bytes of PLACED aren't read as this.
fn expect_placed(rt: &impl Abort, alloc: Global, len: usize) {
    let text = &PLACED[..len.min(PLACED.len())];
    match len {
        0..=22 => expect_outcome(rt, alloc, text, 20, None),
        23..=33 => expect_outcome(rt, alloc, text, 21, None),
        34..=36 => expect_read(rt, alloc, text, &[], b"", 7),
        _ => expect_read(rt, alloc, text, &[(-3, 2, 1), (-2, 2, 1)], b"", 7),
    }
}

#[test]
fn beginnings_of_a_placed_file(rt: HostRuntime) {
    for len in 0..39usize {
        expect_placed(&rt, rt.alloc(), len);
    }
}

// Two cells of rule X, of generation 2. The lines end before 22, 45 and 51.
const WRITTEN: &[u8] = b"#CXRLE Pos=-2,0 Gen=2\nx = 5, y = 1, rule = X\no3bo!\n";

/// Stops the test where the first bytes of WRITTEN aren't read as this.
fn expect_written(rt: &impl Abort, alloc: Global, len: usize) {
    let text = &WRITTEN[..len.min(WRITTEN.len())];
    match len {
        0..=22 => expect_outcome(rt, alloc, text, 20, None),
        // Whole at 34 without a rule, and from 42 on with one.
        23..=33 | 35..=41 => expect_outcome(rt, alloc, text, 21, None),
        34 | 42 | 43 => expect_read(rt, alloc, text, &[], b"", 2),
        44 | 45 => expect_read(rt, alloc, text, &[], b"X", 2),
        46..=48 => expect_read(rt, alloc, text, &[(-2, 0, 1)], b"X", 2),
        _ => expect_read(rt, alloc, text, &[(-2, 0, 1), (2, 0, 1)], b"X", 2),
    }
}

#[test]
fn beginnings_of_a_written_file(rt: HostRuntime) {
    for len in 0..52usize {
        expect_written(&rt, rt.alloc(), len);
    }
}
