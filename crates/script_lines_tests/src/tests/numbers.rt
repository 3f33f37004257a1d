//! Numbers, to the ends of their types and beyond.
use crate::tests::same;
use script_lines::{signed, unsigned};
use std::process::Abort;

const NINES: &[u8] = b"99999999999999999999999999999999999999999";

const LEAST: &[u8] = b"-99999999999999999999999999999999999999999";

struct Unsigned {
    word: &'static [u8],
    most: u64,
    wanted: Option<u64>,
}

const UNSIGNED: &[Unsigned] = &[
    Unsigned {
        word: b"0",
        most: 65535,
        wanted: Some(0),
    },
    Unsigned {
        word: b"007",
        most: 65535,
        wanted: Some(7),
    },
    Unsigned {
        word: b"65535",
        most: 65535,
        wanted: Some(65535),
    },
    Unsigned {
        word: b"65536",
        most: 65535,
        wanted: Some(65535),
    },
    Unsigned {
        word: b"18446744073709551614",
        most: u64::MAX,
        wanted: Some(18446744073709551614),
    },
    Unsigned {
        word: b"18446744073709551615",
        most: u64::MAX,
        wanted: Some(18446744073709551615),
    },
    Unsigned {
        word: b"18446744073709551616",
        most: u64::MAX,
        wanted: Some(18446744073709551615),
    },
    Unsigned {
        word: NINES,
        most: u64::MAX,
        wanted: Some(18446744073709551615),
    },
    Unsigned {
        word: NINES,
        most: 4294967295,
        wanted: Some(4294967295),
    },
    Unsigned {
        word: b"",
        most: 9,
        wanted: None,
    },
    Unsigned {
        word: b"-1",
        most: 9,
        wanted: None,
    },
    Unsigned {
        word: b"+1",
        most: 9,
        wanted: None,
    },
    Unsigned {
        word: b"1a",
        most: 9,
        wanted: None,
    },
    Unsigned {
        word: b"1\t",
        most: 9,
        wanted: None,
    },
];

fn unsigned_is(rt: &impl Abort, row: &Unsigned) {
    same(
        rt,
        &unsigned(row.word, row.most),
        &row.wanted,
        &(row.word, row.most),
    );
}

#[test]
fn unsigned_numbers_stop_at_their_ends(rt: HostRuntime) {
    for row in UNSIGNED {
        unsigned_is(&rt, row);
    }
}

struct Signed {
    word: &'static [u8],
    wanted: Option<i64>,
}

const SIGNED: &[Signed] = &[
    Signed {
        word: b"0",
        wanted: Some(0),
    },
    Signed {
        word: b"-0",
        wanted: Some(0),
    },
    Signed {
        word: b"-7",
        wanted: Some(-7),
    },
    Signed {
        word: b"9223372036854775807",
        wanted: Some(9223372036854775807),
    },
    Signed {
        word: b"9223372036854775808",
        wanted: Some(9223372036854775807),
    },
    Signed {
        word: b"-9223372036854775807",
        wanted: Some(-9223372036854775807),
    },
    Signed {
        word: b"-9223372036854775808",
        wanted: Some(i64::MIN),
    },
    Signed {
        word: b"-9223372036854775809",
        wanted: Some(i64::MIN),
    },
    Signed {
        word: NINES,
        wanted: Some(i64::MAX),
    },
    Signed {
        word: LEAST,
        wanted: Some(i64::MIN),
    },
    Signed {
        word: b"",
        wanted: None,
    },
    Signed {
        word: b"-",
        wanted: None,
    },
    Signed {
        word: b"+1",
        wanted: None,
    },
    Signed {
        word: b"--1",
        wanted: None,
    },
];

fn signed_is(rt: &impl Abort, row: &Signed) {
    same(rt, &signed(row.word), &row.wanted, &row.word);
}

#[test]
fn signed_numbers_stop_at_their_ends(rt: HostRuntime) {
    for row in SIGNED {
        signed_is(&rt, row);
    }
}
