//! Rules that are replaced, revisions that are spent, and what faults say.
use super::{
    EDGE, FAR, FOUR_STATES, THREE_STATES, TWO_STATES, apply, check_edit, mark, number, opening,
    plain, replace, same, set, set_many,
};
use schedule::{Document, Edit, EditFault, Edited, Next, Refusal};
use std::alloc::{AllocError, Global};
use std::process::Abort;

/// What is seen after an edit: the number of its refusal, the rule's states, the state of (0, 0)
/// and the revision.
type Seen = (u8, u16, u8, u64);

fn check_rule(rt: &impl Abort, document: &mut Document, edit: &Edit, wanted: Seen) {
    let refused = number(rt, document, edit);
    let states = document.rule().states();
    let found = (
        refused,
        states,
        document.start().get(0, 0),
        document.revision(),
    );
    same(rt, &found, &wanted, &"rules");
}

#[test]
fn rules(rt: HostRuntime) {
    let alloc = rt.alloc();
    let mut document = opening(&rt, alloc, 0);
    let four = replace(&rt, alloc, FOUR_STATES);
    let three = replace(&rt, alloc, THREE_STATES);
    let two = replace(&rt, alloc, TWO_STATES);
    same(&rt, &apply(&rt, &mut document, &four), &plain(1), &"rules");
    let with_three = set(&rt, alloc, &[(0, 0, 3)]);
    let with_two = set(&rt, alloc, &[(0, 0, 2)]);
    let with_one = set(&rt, alloc, &[(0, 0, 1)]);
    check_rule(&rt, &mut document, &with_three, (0, 4, 3, 2));
    check_rule(&rt, &mut document, &two, (42, 4, 3, 2));
    check_rule(&rt, &mut document, &three, (42, 4, 3, 2));
    check_rule(&rt, &mut document, &with_two, (0, 4, 2, 3));
    check_rule(&rt, &mut document, &two, (42, 4, 2, 3));
    check_rule(&rt, &mut document, &three, (0, 3, 2, 4));
    check_rule(&rt, &mut document, &with_three, (42, 3, 2, 4));
    check_rule(&rt, &mut document, &with_one, (0, 3, 1, 5));
    check_rule(&rt, &mut document, &two, (0, 2, 1, 6));
    check_rule(&rt, &mut document, &with_two, (42, 2, 1, 6));
    check_rule(&rt, &mut document, &four, (0, 4, 1, 7));
    same(&rt, &document.rule().name(), &b"Four".as_slice(), &"rules");
}

fn check_spent(rt: &impl Abort, alloc: Global, edit: &Edit, wanted: u8, what: &str) {
    check_edit(rt, alloc, u64::MAX, edit, wanted, &what);
}

#[test]
fn no_revision_is_left(rt: HostRuntime) {
    let alloc = rt.alloc();
    check_spent(&rt, alloc, &replace(&rt, alloc, TWO_STATES), 49, "rule");
    check_spent(&rt, alloc, &set(&rt, alloc, &[]), 49, "nothing");
    check_spent(&rt, alloc, &mark(0), 49, "bookmark");
    check_spent(&rt, alloc, &set(&rt, alloc, &[(EDGE, 0, 0)]), 41, "outside");
    check_spent(&rt, alloc, &set(&rt, alloc, &[(0, 0, 2)]), 42, "high");
    let many = set_many(&rt, alloc, 10_000, (0, 0, 1));
    check_spent(&rt, alloc, &many, 47, "many");
    check_spent(&rt, alloc, &mark(FAR + 1), 40, "far");
}

#[test]
fn last_revision_is_given(rt: HostRuntime) {
    let mut last = opening(&rt, rt.alloc(), u64::MAX - 1);
    let wanted = Edited {
        revision: u64::MAX,
        id: Some(1),
    };
    same(&rt, &apply(&rt, &mut last, &mark(3)), &wanted, &"last");
    same(&rt, &number(&rt, &mut last, &mark(3)), &49, &"spent");
}

fn check_fault(rt: &impl Abort, fault: EditFault, number: u8, name: &'static str) {
    same(rt, &fault.reason().number, &number, &name);
    same(rt, &fault.reason().name, &name, &name);
    same(rt, &fault.reason().place, &None, &name);
}

#[test]
fn faults(rt: HostRuntime) {
    check_fault(&rt, EditFault::GenerationTooFar, 40, "GenerationTooFar");
    check_fault(&rt, EditFault::CellOutOfRange, 41, "CellOutOfRange");
    check_fault(&rt, EditFault::CellStateTooHigh, 42, "CellStateTooHigh");
    check_fault(&rt, EditFault::NoSuchIntervention, 43, "NoSuchIntervention");
    check_fault(&rt, EditFault::NoSuchBookmark, 44, "NoSuchBookmark");
    check_fault(
        &rt,
        EditFault::TooManyInterventions,
        45,
        "TooManyInterventions",
    );
    check_fault(&rt, EditFault::TooManyBookmarks, 46, "TooManyBookmarks");
    check_fault(&rt, EditFault::TooManyCells, 47, "TooManyCells");
    check_fault(&rt, EditFault::BadWindow, 48, "BadWindow");
    check_fault(&rt, EditFault::RevisionSpent, 49, "RevisionSpent");
    check_fault(&rt, EditFault::NoSuchBranch, 50, "NoSuchBranch");
    check_fault(&rt, EditFault::BeforeFork, 51, "BeforeFork");
    check_fault(&rt, EditFault::BranchInUse, 52, "BranchInUse");
    check_fault(&rt, EditFault::TooManyBranches, 53, "TooManyBranches");
    check_fault(&rt, EditFault::NoMemory, 70, "NoMemory");
}

#[test]
fn faults_are_told(rt: HostRuntime) {
    same(
        &rt,
        &EditFault::from(AllocError),
        &EditFault::NoMemory,
        &"from",
    );
    let text = format!(in rt.alloc(); "{}", EditFault::TooManyCells).expect(&rt, "memory");
    let wanted = "more than 10,000 cells in one edit";
    same(&rt, &text.as_str(), &wanted, &"told");
}
