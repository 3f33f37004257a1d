//! Worked texts of views.
ghost use Rattle.std.specs.Prelude.{IsTrue};
ghost use Rattle.bookmarks.specs.Within.{KeepsViewLimits};

use bookmarks::{View, render};
use plane_core::Plane;
use std::alloc::Global;
use std::fmt::Debug;
use std::process::Abort;
use test_planes::{Row, is_below};

/// The cells of a pattern, and the text that one view of it shows.
struct Pattern {
    what: &'static str,
    rows: &'static [Row],
    wanted: &'static str,
}

/// A window by its left column, its top row, its width and its height.
type Window = (i64, i64, u32, u32);

/// A window, whether it has a size that a window may have, and whether it lies in the range.
type Limits = (Window, bool, bool);

const LEAST: i64 = -(1 << 61);

const GREATEST: i64 = (1 << 61) - 1;

/// Stops the test where what was found isn't what was wanted.
fn same<T: PartialEq + Debug, A: Debug>(rt: &impl Abort, found: &T, wanted: &T, at: &A) {
    assert!(rt; found == wanted, "{at:?}: {found:?}, not {wanted:?}");
}

fn is_within(view: &View) -> bool
    ensures { IsTrue result → KeepsViewLimits view.now }
{
    view.has_window_size() && view.lies_in_range()
}

/// The plane with the rows, laid in turn.
fn plane_of(rt: &impl Abort, alloc: Global, rows: &[Row]) -> Plane {
    test_planes::plane_of(alloc, rows).expect(rt, "memory, and rows within the plane")
}

/// The text of a view of the plane, under a rule with this name and so many states.
fn text_of(
    rt: &impl Abort,
    alloc: Global,
    view: &View,
    plane: &Plane,
    name: &[u8],
    states: u16,
    generation: u64,
) -> Vec<u8> {
    assert!(rt; is_below(plane, states), "a state is too high");
    assert!(rt; is_within(view), "a view is beyond its limits");
    render(alloc, view, plane, name, states, generation).expect(rt, "memory")
}

fn check_counts(rt: &impl Abort, alloc: Global, case: &Pattern) {
    let plane = plane_of(rt, alloc, case.rows);
    let text = text_of(rt, alloc, &View::Counts, &plane, b"T", 256, 0);
    same(rt, &text.as_slice(), &case.wanted.as_bytes(), &case.what);
}

const COUNTED: [Pattern; 9] = [
    Pattern {
        what: "nothing",
        rows: &[],
        wanted: "empty\n",
    },
    Pattern {
        what: "a cell of state 0",
        rows: &[(3, 4, 0)],
        wanted: "empty\n",
    },
    Pattern {
        what: "a cell",
        rows: &[(0, 0, 1)],
        wanted: "1 1\n",
    },
    Pattern {
        what: "the greatest state",
        rows: &[(0, 0, 255)],
        wanted: "255 1\n",
    },
    Pattern {
        what: "a cell taken away",
        rows: &[(0, 0, 1), (0, 0, 0)],
        wanted: "empty\n",
    },
    Pattern {
        what: "a cell set again",
        rows: &[(0, 0, 1), (0, 0, 2)],
        wanted: "2 1\n",
    },
    Pattern {
        what: "ten cells",
        rows: &[
            (0, 0, 7),
            (1, 0, 7),
            (2, 0, 7),
            (3, 0, 7),
            (4, 0, 7),
            (0, 9, 7),
            (1, 9, 7),
            (2, 9, 7),
            (3, 9, 7),
            (4, 9, 7),
        ],
        wanted: "7 10\n",
    },
    Pattern {
        what: "the corners",
        rows: &[(LEAST, LEAST, 3), (GREATEST, GREATEST, 3)],
        wanted: "3 2\n",
    },
    Pattern {
        what: "states of one to three digits",
        rows: &[
            (0, 0, 255),
            (0, 1, 100),
            (0, 2, 99),
            (0, 3, 10),
            (0, 4, 9),
            (1, 4, 100),
            (-1, 4, 2),
            (5, 5, 9),
            (6, 5, 9),
        ],
        wanted: "2 1\n9 3\n10 1\n99 1\n100 2\n255 1\n",
    },
];

#[test]
fn counts(rt: HostRuntime) {
    for case in &COUNTED {
        check_counts(&rt, rt.alloc(), case);
    }
}

fn view_of(window: &Window) -> View {
    View::Window {
        left: window.0,
        top: window.1,
        width: window.2,
        height: window.3,
    }
}

/// A window of a pattern.
struct Framed {
    window: Window,
    pattern: Pattern,
}

fn check_window(rt: &impl Abort, alloc: Global, case: &Framed) {
    let plane = plane_of(rt, alloc, case.pattern.rows);
    let text = text_of(rt, alloc, &view_of(&case.window), &plane, b"X", 256, 0);
    same(
        rt,
        &text.as_slice(),
        &case.pattern.wanted.as_bytes(),
        &case.pattern.what,
    );
}

const FRAMED: [Framed; 9] = [
    Framed {
        window: (-2, 0, 5, 1),
        pattern: Pattern {
            what: "two cells at its ends",
            rows: &[(-2, 0, 1), (2, 0, 1)],
            wanted: "1 0 0 0 1\n",
        },
    },
    Framed {
        window: (0, 0, 2, 2),
        pattern: Pattern {
            what: "nothing",
            rows: &[],
            wanted: "0 0\n0 0\n",
        },
    },
    Framed {
        window: (7, -7, 1, 1),
        pattern: Pattern {
            what: "one cell",
            rows: &[(7, -7, 255)],
            wanted: "255\n",
        },
    },
    Framed {
        window: (0, 0, 1, 2),
        pattern: Pattern {
            what: "beside the cells",
            rows: &[(1, 0, 3), (0, 2, 3)],
            wanted: "0\n0\n",
        },
    },
    Framed {
        window: (-1, 4, 3, 2),
        pattern: Pattern {
            what: "states of one to three digits",
            rows: &[
                (-1, 4, 9),
                (0, 4, 10),
                (1, 4, 99),
                (-1, 5, 100),
                (1, 5, 255),
            ],
            wanted: "9 10 99\n100 0 255\n",
        },
    },
    Framed {
        window: (5, 5, 1, 3),
        pattern: Pattern {
            what: "higher than wide",
            rows: &[(5, 5, 1), (5, 6, 2), (5, 7, 3), (6, 5, 4)],
            wanted: "1\n2\n3\n",
        },
    },
    Framed {
        window: (LEAST, LEAST, 2, 2),
        pattern: Pattern {
            what: "the top left corner of the range",
            rows: &[(LEAST, LEAST, 1), (LEAST + 1, LEAST + 1, 2)],
            wanted: "1 0\n0 2\n",
        },
    },
    Framed {
        window: (GREATEST - 1, GREATEST - 1, 2, 2),
        pattern: Pattern {
            what: "the bottom right corner of the range",
            rows: &[(GREATEST, GREATEST, 1), (GREATEST - 1, GREATEST, 2)],
            wanted: "0 0\n2 1\n",
        },
    },
    Framed {
        window: (0, 0, 3, 1),
        pattern: Pattern {
            what: "no zero is left out",
            rows: &[(0, 0, 1)],
            wanted: "1 0 0\n",
        },
    },
];

#[test]
fn windows(rt: HostRuntime) {
    for case in &FRAMED {
        check_window(&rt, rt.alloc(), case);
    }
}

fn check_limits(rt: &impl Abort, case: &Limits) {
    let view = view_of(&case.0);
    same(rt, &view.has_window_size(), &case.1, &case.0);
    same(rt, &view.lies_in_range(), &case.2, &case.0);
}

#[test]
fn limits_of_windows(rt: HostRuntime) {
    let cases: [Limits; 15] = [
        ((0, 0, 1, 1), true, true),
        ((0, 0, 0, 1), false, true),
        ((0, 0, 1, 0), false, true),
        ((0, 0, 256, 256), true, true),
        ((0, 0, 65_536, 1), true, true),
        ((0, 0, 1, 65_537), false, true),
        ((0, 0, 257, 256), false, true),
        ((0, 0, u32::MAX, u32::MAX), false, true),
        ((LEAST, LEAST, 1, 1), true, true),
        ((LEAST - 1, 0, 1, 1), true, false),
        ((0, LEAST - 1, 1, 1), true, false),
        ((GREATEST, GREATEST, 1, 1), true, true),
        ((GREATEST, 0, 2, 1), true, false),
        ((0, GREATEST, 1, 2), true, false),
        ((i64::MAX, i64::MIN, 1, 1), true, false),
    ];
    for case in &cases {
        check_limits(&rt, case);
    }
    assert!(rt; is_within(&View::Counts) && is_within(&View::Rle));
}

/// Stops the test where the encoding of the pattern isn't the text that is wanted.
fn check_pattern(rt: &impl Abort, alloc: Global, states: u16, generation: u64, case: &Pattern) {
    let plane = plane_of(rt, alloc, case.rows);
    let text = text_of(rt, alloc, &View::Rle, &plane, b"X", states, generation);
    same(rt, &text.as_slice(), &case.wanted.as_bytes(), &case.what);
}

const NOTHING: Pattern = Pattern {
    what: "nothing",
    rows: &[],
    wanted: "#CXRLE Pos=0,0 Gen=0\nx = 0, y = 0, rule = X\n!\n",
};

const TWO_CELLS: Pattern = Pattern {
    what: "two cells",
    rows: &[(-2, 0, 1), (2, 0, 1)],
    wanted: "#CXRLE Pos=-2,0 Gen=2\nx = 5, y = 1, rule = X\no3bo!\n",
};

const THREE_STATES: Pattern = Pattern {
    what: "three states",
    rows: &[(0, 0, 1), (1, 0, 1), (1, 1, 2)],
    wanted: "#CXRLE Pos=0,0 Gen=9\nx = 2, y = 2, rule = X\n2A$.B!\n",
};

#[test]
fn patterns(rt: HostRuntime) {
    check_pattern(&rt, rt.alloc(), 2, 0, &NOTHING);
    check_pattern(&rt, rt.alloc(), 2, 2, &TWO_CELLS);
    check_pattern(&rt, rt.alloc(), 3, 9, &THREE_STATES);
}
