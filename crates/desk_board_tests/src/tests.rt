//! Snapshots that are published, and what viewers are shown.
mod desks;
mod threads;

ghost use Rattle.std.specs.Prelude.{◌≡◌, ◌<◌, ◌≤◌, All};
ghost use Rattle.desk_board.specs.BoardHistory.{unseen};

use basics::Refusal;
use desk_board::{BoardFault, PublishFault, Publisher, Receipt, Snapshot, Viewer, board};
use schedule::Document;
use std::alloc::Global;
use std::fmt::Debug;
use std::process::Abort;
use std::sync::Wait;

/// Stops the test where what was found isn't what was wanted.
fn same<T: PartialEq + Debug, A: Debug>(rt: &impl Abort, found: &T, wanted: &T, at: &A) {
    assert!(rt; *found == *wanted, "{at:?}: {found:?}, not {wanted:?}");
}

/// The snapshot of the opening document at a revision.
fn snapshot_of(rt: &impl Abort, alloc: Global, revision: u64) -> Snapshot {
    let document = Document::opening(alloc, revision).expect(rt, "memory");
    Snapshot::of(document, Vec::new(alloc))
}

/// A board of so many viewers that was opened with revision 0.
fn opened<R: Abort + Wait>(rt: &R, alloc: Global, viewers: u8) -> (Publisher<&R>, Vec<Viewer>)
    requires { (0 < viewers) × (viewers ≤ 16) }
    ensures { All (λ viewer. viewer ≡ unseen result.0.board) result.1.items }
{
    let first = snapshot_of(rt, alloc, 0);
    board(rt, alloc, first, viewers).expect(rt, "a board")
}

/// The same with two viewers.
fn opened_to_two<R: Abort + Wait>(rt: &R, alloc: Global) -> (Publisher<&R>, Viewer, Viewer)
    ensures one { result.1.board ≡ result.0.board }
    ensures other { result.2.board ≡ result.0.board }
{
    let (publisher, mut viewers) = opened(rt, alloc, 2);
    let one = viewers.pop().expect(rt, "a viewer");
    let other = viewers.pop().expect(rt, "a viewer");
    (publisher, one, other)
}

/// Lets the viewer look, and gives it back with the revision that it was shown.
fn revision_of(viewer: Viewer) -> (Viewer, Option<u64>)
    ensures { result.0.board ≡ viewer.board }
{
    match viewer.look() {
        Ok(seen) => {
            let revision = seen.snapshot().document().revision();
            (seen.done(), Some(revision))
        }
        Err(viewer) => (viewer, None),
    }
}

/// Stops the test where the viewer isn't shown what is wanted.
fn check_look(rt: &impl Abort, viewer: Viewer, wanted: Option<u64>) -> Viewer
    ensures { result.board ≡ viewer.board }
{
    let (viewer, revision) = revision_of(viewer);
    same(rt, &revision, &wanted, &"look");
    viewer
}

/// What the viewer is shown, which is to be this revision.
fn shown<R: Abort>(rt: &R, viewer: Viewer, wanted: u64) -> (Viewer, Receipt)
    ensures viewer { result.0.board ≡ viewer.board }
    ensures receipt { result.1.board ≡ viewer.board }
{
    let seen = viewer.look().ok().expect(rt, "a look");
    same(rt, &seen.snapshot().document().revision(), &wanted, &"look");
    let receipt = seen.receipt();
    (seen.done(), receipt)
}

fn publish<R: Abort + Wait>(
    rt: &R,
    alloc: Global,
    publisher: &mut Publisher<&R>,
    revision: u64,
) -> Receipt
    ensures board { publisher.new.board ≡ publisher.old.board }
    ensures receipt { result ≡ publisher.new }
{
    publisher
        .publish(snapshot_of(rt, alloc, revision))
        .expect(rt, "memory")
}

// A viewer that is told of a revision is shown it, and is handed back only after the end.
#[test]
fn a_told_viewer_sees_revision_3(rt: HostRuntime) {
    let alloc = rt.alloc();
    let (mut publisher, viewer, other) = opened_to_two(&rt, alloc);
    let mut viewer = check_look(&rt, viewer, Some(0));
    let receipt = publish(&rt, alloc, &mut publisher, 3);
    viewer.learn(&receipt);
    let viewer = check_look(&rt, viewer, Some(3));
    let viewer = check_look(&rt, viewer, Some(3));
    publisher.end();
    check_look(&rt, viewer, None);
    check_look(&rt, other, None);
}

// A viewer that saw a revision tells another of it, and the other is shown that or a later one.
#[test]
fn a_viewer_tells_another(rt: HostRuntime) {
    let alloc = rt.alloc();
    let (mut publisher, one, mut other) = opened_to_two(&rt, alloc);
    publish(&rt, alloc, &mut publisher, 1);
    let (one, receipt) = shown(&rt, one, 1);
    publish(&rt, alloc, &mut publisher, 2);
    other.learn(&receipt);
    check_look(&rt, other, Some(2));
    check_look(&rt, one, Some(2));
    publisher.end();
}

// Of what is known of a board, what is of fewer snapshots begins what is of more.
#[test]
fn receipts_of_1_to_3_snapshots(rt: HostRuntime) {
    let alloc = rt.alloc();
    let (mut publisher, one, other) = opened_to_two(&rt, alloc);
    let (_one, first) = shown(&rt, one, 0);
    let second = publish(&rt, alloc, &mut publisher, 1);
    let (_other, seen) = shown(&rt, other, 1);
    publish(&rt, alloc, &mut publisher, 2);
    let all = publisher.receipt();
    same(&rt, &first.position(), &1, &"first");
    same(&rt, &second.position(), &2, &"second");
    same(&rt, &all.position(), &3, &"all");
    same(&rt, &first.begins(&second), &true, &"first begins second");
    same(&rt, &second.begins(&first), &false, &"second begins first");
    same(&rt, &second.begins(&seen), &true, &"second begins seen");
    same(&rt, &seen.begins(&second), &true, &"seen begins second");
    same(&rt, &all.begins(&seen), &false, &"all begins seen");
    publisher.end();
}

/// How many viewers a board has that is opened for so many.
fn check_viewers(rt: &(impl Abort + Wait), alloc: Global, count: u8)
    requires { (0 < count) × (count ≤ 16) }
{
    let (publisher, viewers) = opened(rt, alloc, count);
    same(rt, &viewers.len(), &usize::from(count), &count);
    for viewer in viewers {
        check_look(rt, viewer, Some(0));
    }
    publisher.end();
}

#[test]
fn boards_of_1_and_of_16_viewers(rt: HostRuntime) {
    check_viewers(&rt, rt.alloc(), 1);
    check_viewers(&rt, rt.alloc(), 16);
}

fn check_fault(rt: &impl Abort, fault: &impl Refusal, number: u8, name: &'static str) {
    same(rt, &fault.reason().number, &number, &name);
    same(rt, &fault.reason().name, &name, &number);
    same(rt, &fault.reason().place, &None, &name);
}

#[test]
fn faults(rt: HostRuntime) {
    check_fault(&rt, &BoardFault::NoViewer, 75, "NoViewer");
    check_fault(&rt, &BoardFault::NoMemory, 70, "NoMemory");
    check_fault(&rt, &PublishFault::NoMemory, 70, "NoMemory");
}
