//! Bookmarks and their windows.
use super::{FAR, GREATEST, LEAST, Window, apply, mark, mark_window, number, opening, same};
use schedule::{Bookmark, Document, Edited, View};
use std::process::Abort;

/// Adds the bookmark that makes the one of this place among many.
fn add_one_of_many(rt: &impl Abort, document: &mut Document, k: u16) {
    let k = u64::from(k);
    let wanted = Edited {
        revision: 11 + k,
        id: Some(1 + k),
    };
    same(rt, &apply(rt, document, &mark(k / 2)), &wanted, &k);
}

fn check_one_of_many(rt: &impl Abort, k: u16, bookmark: &Bookmark) {
    let k = u64::from(k);
    let wanted = Bookmark {
        id: 1 + k,
        branch: 0,
        generation: k / 2,
        view: View::Counts,
    };
    same(rt, bookmark, &wanted, &k);
}

#[test]
fn many_bookmarks(rt: HostRuntime) {
    let mut document = opening(&rt, rt.alloc(), 10);
    for k in 0..4096 {
        add_one_of_many(&rt, &mut document, k);
    }
    same(&rt, &number(&rt, &mut document, &mark(0)), &46, &"full");
    same(
        &rt,
        &number(&rt, &mut document, &mark(FAR + 1)),
        &40,
        &"full",
    );
    same(&rt, &document.bookmarks().len(), &4096, &"full");
    for (k, bookmark) in (0..4096).zip(document.bookmarks()) {
        check_one_of_many(&rt, k, bookmark);
    }
}

/// A bookmark's generation and window, and the number of its refusal.
type Marked = (u64, Window, u8);

fn check_window(rt: &impl Abort, document: &mut Document, case: &Marked) {
    let found = number(rt, document, &mark_window(case.0, &case.1));
    same(rt, &found, &case.2, case);
}

fn add_mark(rt: &impl Abort, document: &mut Document, generation: u64) {
    document.apply(&mark(generation)).expect(rt, "a bookmark");
}

fn fill(rt: &impl Abort, document: &mut Document, count: u64) {
    for generation in 0..count {
        add_mark(rt, document, generation);
    }
}

#[test]
fn windows(rt: HostRuntime) {
    let cases: [Marked; 18] = [
        (0, (0, 0, 1, 1), 0),
        (0, (0, 0, 256, 256), 0),
        (0, (0, 0, 65_536, 1), 0),
        (0, (0, 0, 65_537, 1), 48),
        (0, (0, 0, u32::MAX, u32::MAX), 48),
        (0, (0, 0, 0, 1), 48),
        (0, (0, 0, 1, 0), 48),
        (0, (LEAST, LEAST, 1, 1), 0),
        (0, (LEAST - 1, 0, 1, 1), 41),
        (0, (0, LEAST - 1, 1, 1), 41),
        (0, (GREATEST, GREATEST, 1, 1), 0),
        (0, (GREATEST, 0, 2, 1), 41),
        (0, (0, GREATEST, 1, 2), 41),
        (0, (i64::MAX, i64::MAX, 1, 1), 41),
        // The generation is looked at first, and the size before the place.
        (FAR + 1, (0, 0, 0, 0), 40),
        (FAR + 1, (i64::MIN, 0, 1, 1), 40),
        (FAR, (i64::MIN, 0, 0, 1), 48),
        (FAR, (i64::MIN, 0, 1, 1), 41),
    ];
    let mut document = opening(&rt, rt.alloc(), 0);
    for case in &cases {
        check_window(&rt, &mut document, case);
    }
    // A full document is looked at before the size.
    fill(&rt, &mut document, 4091);
    check_window(&rt, &mut document, &(0, (0, 0, 0, 0), 46));
}

// A spent revision is looked at last.
#[test]
fn windows_at_the_last_revision(rt: HostRuntime) {
    let mut spent = opening(&rt, rt.alloc(), u64::MAX);
    check_window(&rt, &mut spent, &(0, (i64::MIN, 0, 1, 1), 41));
    check_window(&rt, &mut spent, &(0, (0, 0, 1, 1), 49));
}
