//! Branches: what edits of them answer, and in which order they are refused.
use super::{
    EDGE, FAR, Window, apply, cells_set, mark_on, mark_window_on, number, opening, plain, same,
};
use schedule::{Branch, Document, Edit, Edited};
use std::alloc::Global;
use std::process::Abort;

fn fork(parent: u64, generation: u64) -> Edit {
    Edit::AddBranch { parent, generation }
}

fn remove(branch: u64) -> Edit {
    Edit::RemoveBranch { branch }
}

fn insert_on(rt: &impl Abort, alloc: Global, branch: u64, generation: u64, x: i64) -> Edit {
    Edit::insert_intervention(branch, generation, cells_set(rt, alloc, &[(x, 0, 1)]))
}

fn change(rt: &impl Abort, alloc: Global, id: u64, generation: u64) -> Edit {
    Edit::change_intervention(id, generation, cells_set(rt, alloc, &[(0, 0, 1)]))
}

fn moved(id: u64, generation: u64) -> Edit {
    Edit::MoveBookmark { id, generation }
}

/// Stops the test where the edit answers another id.
fn check_made(rt: &impl Abort, document: &mut Document, edit: &Edit, id: u64) {
    let edited = apply(rt, document, edit);
    same(rt, &edited.id, &Some(id), &edited.revision);
}

/// Stops the test where the edit isn't refused by this number; 0 is an accepted edit.
fn check_number(rt: &impl Abort, document: &mut Document, edit: &Edit, wanted: u8) {
    same(rt, &number(rt, document, edit), &wanted, &"number");
}

/// A document with branch 1, which leaves 0 at generation 2, and branch 2, which leaves 1 at 5;
/// with interventions 1 on 0 at 4 and 2 on 1 at 3, and bookmarks 1 on 1 at 4 and 2 on 0 at 9.
fn worked(rt: &impl Abort, alloc: Global, revision: u64) -> Document {
    let mut document = opening(rt, alloc, revision);
    check_made(rt, &mut document, &fork(0, 2), 1);
    check_made(rt, &mut document, &fork(1, 5), 2);
    check_made(rt, &mut document, &insert_on(rt, alloc, 0, 4, 0), 1);
    check_made(rt, &mut document, &insert_on(rt, alloc, 1, 3, 1), 2);
    check_made(rt, &mut document, &mark_on(1, 4), 1);
    check_made(rt, &mut document, &mark_on(0, 9), 2);
    document
}

#[test]
fn branches_are_told(rt: HostRuntime) {
    let document = worked(&rt, rt.alloc(), 0);
    let first = Branch {
        id: 1,
        parent: 0,
        fork: 2,
    };
    let second = Branch {
        id: 2,
        parent: 1,
        fork: 5,
    };
    same(
        &rt,
        &document.branches(),
        &[first, second].as_slice(),
        &"list",
    );
    same(&rt, &document.branch(2), &Some(second), &2);
    same(&rt, &document.branch(0), &None, &0);
    same(&rt, &document.branch(3), &None, &3);
    same(&rt, &document.last_branch(), &2, &"last");
    same(&rt, &document.revision(), &6, &"revision");
}

/// A branch, its fork and its reach.
type Reaching = (u64, u64, u64);

fn check_reach(rt: &impl Abort, document: &Document, case: &Reaching) {
    let found = (case.0, document.fork(case.0), document.reach(case.0));
    same(rt, &found, case, case);
}

// Branch 0 reaches as far as a bookmark, 1 as far as a fork, 2 as far as its own fork.
#[test]
fn reaches(rt: HostRuntime) {
    let mut document = worked(&rt, rt.alloc(), 0);
    for case in &[(0, 0, 9), (1, 2, 5), (2, 5, 5), (3, 0, 0)] {
        check_reach(&rt, &document, case);
    }
    apply(&rt, &mut document, &moved(1, 7));
    apply(&rt, &mut document, &moved(2, 1));
    for case in &[(0, 0, 2), (1, 2, 7), (2, 5, 5)] {
        check_reach(&rt, &document, case);
    }
}

/// What arrives in a branch at a generation, what is laid in a branch from a generation on, and
/// whether the one comes of the other.
type Felt = (u64, u64, u64, u64, bool);

fn check_felt(rt: &impl Abort, document: &Document, case: &Felt) {
    let found = document.is_felt(case.0, case.1, case.2, case.3);
    same(rt, &found, &case.4, case);
}

#[test]
fn felt_along_the_line(rt: HostRuntime) {
    let document = worked(&rt, rt.alloc(), 0);
    let cases: [Felt; 12] = [
        // Within a branch what is laid at a generation is felt above it alone.
        (0, 4, 0, 4, false),
        (0, 5, 0, 4, true),
        (1, 3, 1, 3, false),
        (1, 4, 1, 3, true),
        // A child feels its parent up to the fork, that generation's interventions among them.
        (1, 2, 0, 2, true),
        (1, 9, 0, 3, false),
        (2, 5, 1, 5, true),
        (2, 9, 1, 6, false),
        (2, 5, 0, 2, true),
        (2, 5, 0, 3, false),
        // A parent feels no child.
        (0, 9, 1, 2, false),
        (1, 9, 2, 5, false),
    ];
    for case in &cases {
        check_felt(&rt, &document, case);
    }
}

// Where a branch, a parent or an id is missing that comes first, and then the far generation and
// the one before the fork.
#[test]
fn refused_in_order(rt: HostRuntime) {
    let alloc = rt.alloc();
    let mut document = worked(&rt, alloc, 0);
    for case in &[
        (7, FAR + 1, 50),
        (7, 0, 50),
        (1, FAR + 1, 40),
        (1, 1, 51),
        (2, 4, 51),
        (2, 5, 0),
    ] {
        check_placed(&rt, alloc, &mut document, case);
    }
    check_number(&rt, &mut document, &change(&rt, alloc, 9, FAR + 1), 43);
    check_number(&rt, &mut document, &change(&rt, alloc, 2, FAR + 1), 40);
    check_number(&rt, &mut document, &change(&rt, alloc, 2, 1), 51);
    check_number(&rt, &mut document, &change(&rt, alloc, 1, 1), 0);
    check_number(&rt, &mut document, &moved(9, FAR + 1), 44);
    check_number(&rt, &mut document, &moved(1, FAR + 1), 40);
    check_number(&rt, &mut document, &moved(1, 1), 51);
    check_number(&rt, &mut document, &moved(2, 1), 0);
}

/// A branch, a generation of it, and the number of the refusal.
type Placed = (u64, u64, u8);

/// Stops the test where an intervention, a bookmark or a branch there is refused by another number.
fn check_placed(rt: &impl Abort, alloc: Global, document: &mut Document, case: &Placed) {
    let edits = [
        insert_on(rt, alloc, case.0, case.1, 0),
        mark_on(case.0, case.1),
        fork(case.0, case.1),
    ];
    for edit in &edits {
        check_number(rt, document, edit, case.2);
    }
}

const NO_WINDOW: Window = (0, 0, 0, 0);

// The fork is looked at before cells and windows, and the last revision last.
#[test]
fn refused_by_the_fork_before_the_rest(rt: HostRuntime) {
    let alloc = rt.alloc();
    let mut document = worked(&rt, alloc, u64::MAX - 6);
    check_number(&rt, &mut document, &insert_on(&rt, alloc, 1, 1, EDGE), 51);
    check_number(&rt, &mut document, &insert_on(&rt, alloc, 1, 2, EDGE), 41);
    check_number(&rt, &mut document, &insert_on(&rt, alloc, 1, 2, 0), 49);
    check_number(&rt, &mut document, &mark_window_on(1, 1, &NO_WINDOW), 51);
    check_number(&rt, &mut document, &mark_window_on(1, 2, &NO_WINDOW), 48);
    check_number(&rt, &mut document, &mark_on(1, 2), 49);
    check_number(&rt, &mut document, &fork(1, 1), 51);
    check_number(&rt, &mut document, &fork(1, 2), 49);
    check_number(&rt, &mut document, &remove(3), 50);
    check_number(&rt, &mut document, &remove(1), 52);
    check_number(&rt, &mut document, &remove(2), 49);
}

// A branch is removed once nothing stands in it and none leaves it, and its id isn't given again.
#[test]
fn branches_in_use_stay(rt: HostRuntime) {
    let mut document = worked(&rt, rt.alloc(), 0);
    check_number(&rt, &mut document, &remove(0), 52);
    check_number(&rt, &mut document, &remove(1), 52);
    same(&rt, &apply(&rt, &mut document, &remove(2)), &plain(7), &7);
    check_number(&rt, &mut document, &remove(2), 50);
    check_number(&rt, &mut document, &remove(1), 52);
    check_number(&rt, &mut document, &Edit::RemoveIntervention { id: 2 }, 0);
    check_number(&rt, &mut document, &remove(1), 52);
    check_number(&rt, &mut document, &Edit::RemoveBookmark { id: 1 }, 0);
    check_number(&rt, &mut document, &remove(1), 0);
    same(&rt, &document.branches().len(), &0, &"removed");
    same(&rt, &document.last_branch(), &2, &"removed");
    let wanted = Edited {
        revision: 11,
        id: Some(3),
    };
    same(
        &rt,
        &apply(&rt, &mut document, &fork(0, 0)),
        &wanted,
        &"new",
    );
}

#[test]
fn many_branches(rt: HostRuntime) {
    let mut document = opening(&rt, rt.alloc(), 0);
    for id in 1..65 {
        check_made(&rt, &mut document, &fork(id - 1, id), id);
    }
    check_number(&rt, &mut document, &fork(65, 0), 50);
    check_number(&rt, &mut document, &fork(64, FAR + 1), 40);
    check_number(&rt, &mut document, &fork(64, 63), 51);
    check_number(&rt, &mut document, &fork(64, 64), 53);
    same(&rt, &document.is_felt(64, 64, 0, 1), &true, &"far down");
    same(&rt, &document.is_felt(64, 64, 0, 2), &false, &"far down");
    check_number(&rt, &mut document, &remove(64), 0);
    check_made(&rt, &mut document, &fork(0, 64), 65);
}

// An intervention acts in its own branch alone, and a copy has the branches.
#[test]
fn a_copy_has_the_branches(rt: HostRuntime) {
    let mut document = worked(&rt, rt.alloc(), 0);
    let copy = document.copy().expect(&rt, "memory");
    apply(&rt, &mut document, &remove(2));
    same(&rt, &copy.branches().len(), &2, &"copy");
    same(&rt, &copy.last_branch(), &2, &"copy");
    for intervention in copy.interventions() {
        let acts = (intervention.acts_at(1, 3), intervention.acts_at(0, 4));
        same(
            &rt,
            &acts,
            &(intervention.id == 2, intervention.id == 1),
            &"acts",
        );
    }
}

// Branch 1 leaves 0 at 2 and has an intervention there and a bookmark at 4; 0 has one at 4.
#[test]
fn refusals_of_the_worked_example(rt: HostRuntime) {
    let alloc = rt.alloc();
    let mut document = opening(&rt, alloc, 2);
    let forked = Edited {
        revision: 3,
        id: Some(1),
    };
    same(
        &rt,
        &apply(&rt, &mut document, &fork(0, 2)),
        &forked,
        &"fork",
    );
    check_made(&rt, &mut document, &insert_on(&rt, alloc, 1, 2, 2), 1);
    check_made(&rt, &mut document, &mark_window_on(1, 4, &(-4, 0, 9, 1)), 1);
    check_made(&rt, &mut document, &mark_window_on(0, 4, &(-4, 0, 9, 1)), 2);
    check_number(&rt, &mut document, &insert_on(&rt, alloc, 1, 1, 0), 51);
    check_number(&rt, &mut document, &remove(1), 52);
    check_number(&rt, &mut document, &fork(7, 2), 50);
    same(&rt, &document.revision(), &6, &"revision");
}
