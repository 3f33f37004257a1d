//! The lines of scripts.
ghost use Rattle.std.specs.Prelude.{◌≡◌, ◌<◌};

use crate::tests::devices::Pieces;
use crate::tests::same;
use script_lines::{CountedReader, KeptLine, LineFound, next_word};
use std::alloc::Global;
use std::io::Read;
use std::marker::Brand;
use std::process::Abort;
use std::sync::ledger::{Blank, Ledger};

pub fn put(rt: &impl Abort, shown: &mut Vec<u8>, bytes: &[u8]) {
    shown.extend_from_slice(bytes).expect(rt, "memory");
}

fn put_word(rt: &impl Abort, shown: &mut Vec<u8>, word: &[u8]) {
    put(rt, shown, word);
    put(rt, shown, b",");
}

// The line's words with a comma behind each.
fn put_words(rt: &impl Abort, shown: &mut Vec<u8>, words: &[u8]) {
    let mut rest = words;
    while let Some((word, behind)) = next_word(rest) {
        put_word(rt, shown, word);
        rest = behind;
    }
}

// What the line says, and its kind.
fn put_line(rt: &impl Abort, shown: &mut Vec<u8>, line: &KeptLine) {
    if line.is_passed_over() {
        put(rt, shown, b"#");
    }
    if line.is_end() {
        put(rt, shown, b"!");
    }
    match line.words() {
        None => put(rt, shown, b"want"),
        Some(words) => put_words(rt, shown, words),
    }
    put(rt, shown, b"|");
}

// The lines of what is left of a script, and how it ended.
pub fn put_lines<R: Read, L: Ledger>(
    rt: &impl Abort,
    shown: &mut Vec<u8>,
    reader: &mut CountedReader<R, L>,
    line: &mut KeptLine,
) {
    loop {
        let Ok(found) = reader.next_line(line) else {
            return put(rt, shown, b"failed");
        };
        if found == LineFound::End {
            return put(rt, shown, b"end");
        }
        put_line(rt, shown, line);
        if found == LineFound::Last {
            return put(rt, shown, b"last");
        }
    }
}

fn show_counted<L: Ledger>(
    rt: &impl Abort,
    alloc: Global,
    blank: Blank,
    pieces: Pieces<'_>,
) -> Vec<u8>
    requires name { blank.name ≡ L.name }
    requires parts { blank.parts ≡ L.parts }
    requires some { 0 < blank.parts }
{
    let mut reader = CountedReader::<_, L>::new(pieces, blank);
    let mut line = KeptLine::new(alloc).expect(rt, "memory");
    let mut shown = Vec::new(alloc);
    put_lines(rt, &mut shown, &mut reader, &mut line);
    shown
}

// The lines of a script, shown.
fn show(rt: &impl Abort, alloc: Global, pieces: Pieces<'_>) -> Vec<u8> {
    show_counted::<Brand>(rt, alloc, Blank::new(1), pieces)
}

// A script and its lines, shown.
pub struct Row {
    pub script: &'static [u8],
    pub wanted: &'static [u8],
}

fn shows(rt: &impl Abort, alloc: Global, row: &Row, size: usize) {
    let shown = show(rt, alloc, Pieces::new(row.script, size));
    same(rt, &shown.as_slice(), &row.wanted, &(row.script, size));
}

fn shows_in_pieces(rt: &impl Abort, alloc: Global, row: &Row) {
    shows(rt, alloc, row, 1);
    shows(rt, alloc, row, 2);
    shows(rt, alloc, row, 5);
    shows(rt, alloc, row, 10000);
}

const LINES: &[Row] = &[
    Row {
        script: b"",
        wanted: b"end",
    },
    Row {
        script: b"\n",
        wanted: b"#|end",
    },
    Row {
        script: b"quit",
        wanted: b"quit,|last",
    },
    Row {
        script: b"quit\n",
        wanted: b"quit,|end",
    },
    Row {
        script: b"quit\r\n",
        wanted: b"quit,|end",
    },
    Row {
        script: b"quit\r",
        wanted: b"quit\r,|last",
    },
    Row {
        script: b"quit\r\r\n",
        wanted: b"quit\r,|end",
    },
    Row {
        script: b"a\rb\n\rc\n",
        wanted: b"a\rb,|\rc,|end",
    },
    Row {
        script: b"\r\n\r",
        wanted: b"#|\r,|last",
    },
    Row {
        script: b" \t \n\t\n  ",
        wanted: b"#|#|#|last",
    },
    Row {
        script: b"# a b\n\t#c\nd #e\n",
        wanted: b"##,a,b,|##c,|d,#e,|end",
    },
    Row {
        script: b"  set   0 -1  2 \t\r\n",
        wanted: b"set,0,-1,2,|end",
    },
    Row {
        script: b"a\tb  c \t d\n",
        wanted: b"a\tb,c,\t,d,|end",
    },
    Row {
        script: b"end\n end\t\nend x\nen d\nEnd\nen",
        wanted: b"!end,|!end,|end,x,|en,d,|End,|en,|last",
    },
    Row {
        script: b"start     rle\nwork ",
        wanted: b"start,rle,|work,|last",
    },
];

#[test]
fn lines_come_in_any_pieces(rt: HostRuntime) {
    let alloc = rt.alloc();
    for row in LINES {
        shows_in_pieces(&rt, alloc, row);
    }
}

fn put_million(rt: &impl Abort, alloc: Global, script: &mut Vec<u8>, byte: u8) {
    let many = [byte].repeat(alloc, 1_000_000).expect(rt, "memory");
    put(rt, script, &many);
}

#[test]
fn long_lines_are_kept_whole(rt: HostRuntime) {
    let alloc = rt.alloc();
    let mut script = Vec::new(alloc);
    put(&rt, &mut script, b"start");
    put_million(&rt, alloc, &mut script, b' ');
    put(&rt, &mut script, b"rle\n");
    put_million(&rt, alloc, &mut script, b'x');
    put(&rt, &mut script, b" y\nquit\n");
    let shown = show(&rt, alloc, Pieces::new(&script, 4096));
    assert!(rt; shown.starts_with(b"start,rle,|xxx"));
    assert!(rt; shown.ends_with(b"xx,y,|quit,|end"));
    assert_eq!(rt; shown.len(), 1_000_024);
}

// After how many bytes reading fails, and the lines before that, shown.
struct Break {
    count: usize,
    wanted: &'static [u8],
}

const FAILING: &[u8] = b"a b\nc\n\nend";

const BREAKS: &[Break] = &[
    Break {
        count: 0,
        wanted: b"failed",
    },
    Break {
        count: 1,
        wanted: b"failed",
    },
    Break {
        count: 2,
        wanted: b"failed",
    },
    Break {
        count: 3,
        wanted: b"failed",
    },
    Break {
        count: 4,
        wanted: b"a,b,|failed",
    },
    Break {
        count: 5,
        wanted: b"a,b,|failed",
    },
    Break {
        count: 6,
        wanted: b"a,b,|c,|failed",
    },
    Break {
        count: 7,
        wanted: b"a,b,|c,|#|failed",
    },
    Break {
        count: 8,
        wanted: b"a,b,|c,|#|failed",
    },
    Break {
        count: 9,
        wanted: b"a,b,|c,|#|failed",
    },
    Break {
        count: 10,
        wanted: b"a,b,|c,|#|failed",
    },
];

fn fails(rt: &impl Abort, alloc: Global, row: &Break) {
    let bytes = &FAILING[..row.count.min(FAILING.len())];
    let shown = show(rt, alloc, Pieces::failing(bytes));
    same(rt, &shown.as_slice(), &row.wanted, &row.count);
}

#[test]
fn a_reader_fails_at_each_place(rt: HostRuntime) {
    let alloc = rt.alloc();
    for row in BREAKS {
        fails(&rt, alloc, row);
    }
}

// A line, how many words it has, and whether memory may be wanted for it.
struct Long {
    line: &'static [u8],
    words: usize,
    wants: bool,
}

const LONG: &[Long] = &[
    Long {
        line: b"quit",
        words: 1,
        wants: false,
    },
    Long {
        line: b"start                                                                     rle",
        words: 2,
        wants: false,
    },
    Long {
        line: b"                                                                         work    ",
        words: 1,
        wants: false,
    },
    // 64 bytes, blanks behind them, and one byte more.
    Long {
        line: b"x23456789 123456789 123456789 123456789 123456789 123456789 1234",
        words: 7,
        wants: false,
    },
    Long {
        line: b"x23456789 123456789 123456789 123456789 123456789 123456789 1234  \t  ",
        words: 7,
        wants: false,
    },
    Long {
        line: b"x23456789 123456789 123456789 123456789 123456789 123456789 12345",
        words: 7,
        wants: true,
    },
    Long {
        line: b"x23456789 123456789 123456789 123456789 123456789 123456789 1234 5",
        words: 8,
        wants: true,
    },
    Long {
        line: b"end",
        words: 1,
        wants: false,
    },
];

fn word_count(words: &[u8]) -> usize {
    let mut count: usize = 0;
    let mut rest = words;
    while let Some((_, behind)) = next_word(rest) {
        count = count.saturating_add(1);
        rest = behind;
    }
    count
}

// Whether the line is read whole, or memory ran out where it may.
fn is_read<L: Ledger>(alloc: Global, blank: Blank, row: &Long) -> bool
    requires name { blank.name ≡ L.name }
    requires parts { blank.parts ≡ L.parts }
    requires some { 0 < blank.parts }
{
    let mut reader = CountedReader::<_, L>::new(Pieces::new(row.line, 7), blank);
    let Ok(mut line) = KeptLine::new(alloc) else {
        // Where the room for every line is refused, nothing was read.
        return true;
    };
    if reader.next_line(&mut line) != Ok(LineFound::Last) {
        return false;
    }
    match line.words() {
        None => row.wants,
        Some(words) => word_count(words) == row.words,
    }
}

fn reads(rt: &impl Abort, alloc: Global, row: &Long) {
    same(
        rt,
        &is_read::<Brand>(alloc, Blank::new(1), row),
        &true,
        &row.line,
    );
}

#[test]
fn memory_is_wanted_for_long_lines_alone(rt: HostRuntime) {
    let alloc = rt.alloc();
    for row in LONG {
        reads(&rt, alloc, row);
    }
}
