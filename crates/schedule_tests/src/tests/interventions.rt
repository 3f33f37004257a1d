//! Interventions and bookmarks that move.
use super::{
    Cells, EDGE, FAR, FOUR_STATES, Row, THREE_STATES, apply, cells_set, check_edit, mark, number,
    opening, plain, replace, same, set,
};
use schedule::{Document, Edit, Edited};
use std::alloc::Global;
use std::process::Abort;

fn insert(rt: &impl Abort, alloc: Global, generation: u64) -> Edit {
    insert_cells(rt, alloc, generation, &[(0, 0, 1)])
}

fn insert_cells(rt: &impl Abort, alloc: Global, generation: u64, rows: &[Row]) -> Edit {
    Edit::insert_intervention(0, generation, cells_set(rt, alloc, rows))
}

fn change(rt: &impl Abort, alloc: Global, id: u64, generation: u64, rows: &[Row]) -> Edit {
    Edit::change_intervention(id, generation, cells_set(rt, alloc, rows))
}

/// What an accepted edit answers that makes something with an id.
fn named(revision: u64, id: u64) -> Edited {
    Edited {
        revision,
        id: Some(id),
    }
}

fn check_applied(rt: &impl Abort, document: &mut Document, edit: &Edit, wanted: Edited) {
    same(rt, &apply(rt, document, edit), &wanted, &wanted.revision);
}

/// Stops the test where the intervention at this place has another id or generation or another
/// number of cells.
fn check_intervention(
    rt: &impl Abort,
    document: &Document,
    place: usize,
    wanted: (u64, u64, usize),
) {
    let interventions = document.interventions();
    assert!(rt; place < interventions.len(), "no intervention {place}");
    let found = &interventions[place];
    let cells = found.cells.as_slice().len();
    same(rt, &(found.id, found.acts.first(), cells), &wanted, &place);
}

/// Stops the test where the bookmark at this place has another id or generation.
fn check_mark(rt: &impl Abort, document: &Document, place: usize, wanted: (u64, u64)) {
    let bookmarks = document.bookmarks();
    assert!(rt; place < bookmarks.len(), "no bookmark {place}");
    let found = bookmarks[place];
    same(rt, &(found.id, found.generation), &wanted, &place);
}

// The last ids stay where the interventions that have them are removed.
#[test]
fn interventions(rt: HostRuntime) {
    let alloc = rt.alloc();
    let mut document = opening(&rt, alloc, 0);
    check_applied(&rt, &mut document, &insert(&rt, alloc, 4), named(1, 1));
    check_applied(&rt, &mut document, &insert(&rt, alloc, 2), named(2, 2));
    check_applied(&rt, &mut document, &insert(&rt, alloc, 2), named(3, 3));
    let changed = change(&rt, alloc, 2, 7, &[(0, 0, 1), (1, 0, 0)]);
    check_applied(&rt, &mut document, &changed, plain(4));
    check_intervention(&rt, &document, 0, (1, 4, 1));
    check_intervention(&rt, &document, 1, (2, 7, 2));
    check_intervention(&rt, &document, 2, (3, 2, 1));
    let removed = Edit::RemoveIntervention { id: 3 };
    check_applied(&rt, &mut document, &removed, plain(5));
    same(&rt, &number(&rt, &mut document, &removed), &43, &"removed");
    same(&rt, &document.interventions().len(), &2, &"removed");
    same(&rt, &document.last_intervention(), &3, &"removed");
    check_applied(&rt, &mut document, &insert(&rt, alloc, 0), named(6, 4));
    check_intervention(&rt, &document, 2, (4, 0, 1));
    same(&rt, &document.last_bookmark(), &0, &"bookmarks");
}

/// A document of revision 3 with one intervention and one bookmark under a rule of three states.
fn worked(rt: &impl Abort, alloc: Global) -> Document {
    let mut document = opening(rt, alloc, 0);
    apply(rt, &mut document, &replace(rt, alloc, THREE_STATES));
    apply(rt, &mut document, &insert(rt, alloc, 4));
    apply(rt, &mut document, &mark(2));
    document
}

fn check_worked(rt: &impl Abort, document: &Document) {
    same(rt, &document.rule().name(), &b"Three".as_slice(), &"rule");
    same(rt, &document.start().population(), &0, &"start");
    same(rt, &document.interventions().len(), &1, &"interventions");
    check_intervention(rt, document, 0, (1, 4, 1));
    same(rt, &document.bookmarks().len(), &1, &"bookmarks");
    check_mark(rt, document, 0, (1, 2));
    let ids = (document.last_intervention(), document.last_bookmark());
    same(rt, &(document.revision(), ids), &(3, (1, 1)), &"numbers");
}

// A copy stays as the document was, whatever is edited later.
#[test]
fn a_copy_stays_as_it_was(rt: HostRuntime) {
    let alloc = rt.alloc();
    let mut document = worked(&rt, alloc);
    let copy = document.copy().expect(&rt, "memory");
    apply(
        &rt,
        &mut document,
        &change(&rt, alloc, 1, 7, &[(0, 0, 1), (1, 0, 0)]),
    );
    apply(&rt, &mut document, &insert(&rt, alloc, 4));
    apply(&rt, &mut document, &Edit::RemoveBookmark { id: 1 });
    check_worked(&rt, &copy);
    same(&rt, &document.revision(), &6, &"document");
}

#[test]
fn intervention_acts_at_its_generation(rt: HostRuntime) {
    let alloc = rt.alloc();
    let mut document = opening(&rt, alloc, 0);
    apply(&rt, &mut document, &insert(&rt, alloc, 4));
    for intervention in document.interventions() {
        same(&rt, &intervention.acts_at(0, 4), &true, &4);
        same(&rt, &intervention.acts_at(0, 3), &false, &3);
        same(&rt, &intervention.acts_at(1, 4), &false, &"branch 1");
    }
}

#[test]
fn bookmarks_move(rt: HostRuntime) {
    let mut document = opening(&rt, rt.alloc(), 0);
    check_applied(&rt, &mut document, &mark(4), named(1, 1));
    check_applied(&rt, &mut document, &mark(2), named(2, 2));
    let moved = Edit::MoveBookmark {
        id: 1,
        generation: FAR,
    };
    check_applied(&rt, &mut document, &moved, plain(3));
    check_mark(&rt, &document, 0, (1, FAR));
    check_mark(&rt, &document, 1, (2, 2));
    let removed = Edit::RemoveBookmark { id: 1 };
    check_applied(&rt, &mut document, &removed, plain(4));
    check_mark(&rt, &document, 0, (2, 2));
    same(&rt, &number(&rt, &mut document, &removed), &44, &"removed");
    same(&rt, &number(&rt, &mut document, &moved), &44, &"removed");
    same(&rt, &document.bookmarks().len(), &1, &"removed");
    same(&rt, &document.last_bookmark(), &2, &"removed");
    check_applied(&rt, &mut document, &mark(0), named(5, 3));
    same(&rt, &document.last_intervention(), &0, &"interventions");
}

/// Cells of an intervention and its generation, and the number of the refusal.
struct Acting {
    generation: u64,
    rows: &'static [Row],
    wanted: u8,
}

// The generation is looked at before the places, and these before the states.
const ACTING: [Acting; 7] = [
    Acting {
        generation: FAR,
        rows: &[],
        wanted: 0,
    },
    Acting {
        generation: FAR + 1,
        rows: &[],
        wanted: 40,
    },
    Acting {
        generation: FAR + 1,
        rows: &[(EDGE, 0, 2)],
        wanted: 40,
    },
    Acting {
        generation: 0,
        rows: &[(EDGE, 0, 2)],
        wanted: 41,
    },
    Acting {
        generation: 0,
        rows: &[(0, 0, 2), (0, -EDGE - 1, 0)],
        wanted: 41,
    },
    Acting {
        generation: 0,
        rows: &[(0, 0, 1), (1, 0, 2)],
        wanted: 42,
    },
    Acting {
        generation: 0,
        rows: &[(-EDGE, EDGE - 1, 1)],
        wanted: 0,
    },
];

fn check_inserted(rt: &impl Abort, alloc: Global, case: &Acting) {
    let edit = insert_cells(rt, alloc, case.generation, case.rows);
    check_edit(rt, alloc, 0, &edit, case.wanted, &case.rows);
    let last = if case.wanted == 0 { 49 } else { case.wanted };
    check_edit(rt, alloc, u64::MAX, &edit, last, &case.rows);
}

/// Changes the one intervention of a document, and stops the test where the refusal is another.
fn check_changed(rt: &impl Abort, alloc: Global, case: &Acting) {
    let mut document = opening(rt, alloc, 0);
    apply(rt, &mut document, &insert(rt, alloc, 0));
    let edit = change(rt, alloc, 1, case.generation, case.rows);
    same(
        rt,
        &number(rt, &mut document, &edit),
        &case.wanted,
        &case.rows,
    );
    let other = change(rt, alloc, 2, case.generation, case.rows);
    same(rt, &number(rt, &mut document, &other), &43, &case.rows);
}

#[test]
fn refused_interventions(rt: HostRuntime) {
    for case in &ACTING {
        check_inserted(&rt, rt.alloc(), case);
        check_changed(&rt, rt.alloc(), case);
    }
}

fn insert_one(rt: &impl Abort, alloc: Global, document: &mut Document) {
    apply(rt, document, &insert(rt, alloc, 0));
}

// The generation is looked at before the number of interventions, and this before the cells.
#[test]
fn many_interventions(rt: HostRuntime) {
    let alloc = rt.alloc();
    let mut document = opening(&rt, alloc, 0);
    for _ in 0..4096 {
        insert_one(&rt, alloc, &mut document);
    }
    let far = insert(&rt, alloc, FAR + 1);
    same(&rt, &number(&rt, &mut document, &far), &40, &"far");
    let outside = insert_cells(&rt, alloc, 0, &[(EDGE, 0, 1)]);
    same(&rt, &number(&rt, &mut document, &outside), &45, &"full");
    same(&rt, &document.interventions().len(), &4096, &"full");
}

// What isn't there is looked at first, and the last revision last.
#[test]
fn refused_without_a_revision(rt: HostRuntime) {
    let alloc = rt.alloc();
    let mut document = opening(&rt, alloc, u64::MAX - 2);
    apply(&rt, &mut document, &insert(&rt, alloc, 0));
    apply(&rt, &mut document, &mark(0));
    check_number(&rt, &mut document, &change(&rt, alloc, 1, FAR + 1, &[]), 40);
    check_number(&rt, &mut document, &change(&rt, alloc, 1, 0, &[]), 49);
    check_number(&rt, &mut document, &Edit::RemoveIntervention { id: 2 }, 43);
    check_number(&rt, &mut document, &Edit::RemoveIntervention { id: 1 }, 49);
    check_number(&rt, &mut document, &moved(2, FAR + 1), 44);
    check_number(&rt, &mut document, &moved(1, FAR + 1), 40);
    check_number(&rt, &mut document, &moved(1, 0), 49);
    check_number(&rt, &mut document, &Edit::RemoveBookmark { id: 2 }, 44);
    check_number(&rt, &mut document, &Edit::RemoveBookmark { id: 1 }, 49);
}

fn moved(id: u64, generation: u64) -> Edit {
    Edit::MoveBookmark { id, generation }
}

fn check_number(rt: &impl Abort, document: &mut Document, edit: &Edit, wanted: u8) {
    same(rt, &number(rt, document, edit), &wanted, &"number");
}

// A rule has states enough for what interventions set, also where the start has none of them.
#[test]
fn rules_below_interventions(rt: HostRuntime) {
    let alloc = rt.alloc();
    let mut document = opening(&rt, alloc, 0);
    apply(&rt, &mut document, &replace(&rt, alloc, FOUR_STATES));
    let three = insert_cells(&rt, alloc, 5, &[(0, 0, 3)]);
    apply(&rt, &mut document, &three);
    check_number(&rt, &mut document, &replace(&rt, alloc, THREE_STATES), 42);
    apply(&rt, &mut document, &change(&rt, alloc, 1, 5, &[(0, 0, 2)]));
    check_number(&rt, &mut document, &replace(&rt, alloc, THREE_STATES), 0);
}
