//! The texts within scripts.
ghost use Rattle.std.specs.Prelude.{◌≡◌, ◌<◌};

use crate::tests::devices::Pieces;
use crate::tests::lines::{Row, put, put_lines};
use crate::tests::same;
use script_lines::{CountedReader, KeptLine, TextFound};
use std::alloc::Global;
use std::marker::Brand;
use std::process::Abort;
use std::sync::ledger::{Blank, Ledger};

// How the text ended, behind its bytes.
fn put_text(rt: &impl Abort, shown: &mut Vec<u8>, found: &TextFound) {
    match found {
        TextFound::NoEnd => put(rt, shown, b"no end "),
        TextFound::Ended { text, last } => {
            put(rt, shown, text.bytes().unwrap_or(b"want".as_slice()));
            put(rt, shown, if *last { b" last " } else { b" then " });
        }
    }
}

fn show_counted<L: Ledger>(
    rt: &impl Abort,
    alloc: Global,
    blank: Blank,
    pieces: Pieces<'_>,
) -> Vec<u8>
    requires name { blank.name ≡ L.name }
    requires parts { blank.parts ≡ L.parts }
    requires some { 0 < blank.parts }
{
    let mut reader = CountedReader::<_, L>::new(pieces, blank);
    let mut line = KeptLine::new(alloc).expect(rt, "memory");
    let mut shown = Vec::new(alloc);
    let Ok(found) = reader.read_text(alloc, &mut line) else {
        put(rt, &mut shown, b"failed");
        return shown;
    };
    put_text(rt, &mut shown, &found);
    let at_4 = reader.line_number() == 4;
    put(rt, &mut shown, if at_4 { b"4 " } else { b"- " });
    put_lines(rt, &mut shown, &mut reader, &mut line);
    shown
}

// The text with which a script begins, and the lines behind it, shown.
fn show(rt: &impl Abort, alloc: Global, pieces: Pieces<'_>) -> Vec<u8> {
    show_counted::<Brand>(rt, alloc, Blank::new(1), pieces)
}

fn shows(rt: &impl Abort, alloc: Global, row: &Row, size: usize) {
    let shown = show(rt, alloc, Pieces::new(row.script, size));
    same(rt, &shown.as_slice(), &row.wanted, &(row.script, size));
}

fn shows_in_pieces(rt: &impl Abort, alloc: Global, row: &Row) {
    shows(rt, alloc, row, 1);
    shows(rt, alloc, row, 3);
    shows(rt, alloc, row, 10000);
}

const TEXTS: &[Row] = &[
    Row {
        script: b"a\r\n b\n\nend\nquit",
        wanted: b"a\r\n b\n\n then 4 quit,|last",
    },
    Row {
        script: b"a\n\n\n end \t",
        wanted: b"a\n\n\n last 4 end",
    },
    Row {
        script: b"end\n",
        wanted: b" then - end",
    },
    Row {
        script: b"end",
        wanted: b" last - end",
    },
    Row {
        script: b"",
        wanted: b"no end - end",
    },
    Row {
        script: b"a\nend x\n\nend.",
        wanted: b"no end 4 end",
    },
    Row {
        script: b"a\nb\nc\nd\n",
        wanted: b"no end 4 end",
    },
];

#[test]
fn texts_keep_their_line_ends(rt: HostRuntime) {
    let alloc = rt.alloc();
    for row in TEXTS {
        shows_in_pieces(&rt, alloc, row);
    }
}

const FAILING: &[u8] = b"a b\nc\n\nend";

fn fails(rt: &impl Abort, alloc: Global, count: usize) {
    let bytes = &FAILING[..count.min(FAILING.len())];
    let shown = show(rt, alloc, Pieces::failing(bytes));
    same(rt, &shown.as_slice(), &b"failed".as_slice(), &count);
}

#[test]
fn a_reader_fails_at_each_place(rt: HostRuntime) {
    let alloc = rt.alloc();
    for count in 0..11 {
        fails(&rt, alloc, count);
    }
}
