//! The marks of a document, and how many there are at most.
ghost use Rattle.std.specs.Prelude.{◌≡◌, ◌≤◌, ◌+◌, ◌*◌, ◌++◌, Ok, [], length, map, flat_map};
ghost use Rattle.std.specs.Prelude.{vec_len, vec_capacity};
ghost use Rattle.std.specs.List.{All, list_any};
ghost use Rattle.std.specs.List.Sorted.{IsPermutation, IsSortedByKey};
ghost use Rattle.std.specs.Ordering.{nat_cmp};
ghost use Rattle.schedule.specs.declared.edit.Edited.{Edited};
ghost use Rattle.schedule.specs.Acts.{generations_to, repeats};
ghost use Rattle.schedule.specs.Asked.{asked_of};
ghost use Rattle.schedule.specs.Branches.{reach};
ghost use Rattle.schedule.specs.Change.{change, made};
ghost use Rattle.schedule.specs.Plan.{Plan};
ghost use Rattle.document_marks.specs.AllMarks.{AreMarksOf, but_start, mark_rank};
ghost use Rattle.desk_events.specs.Marks.{acting_marks, bookmark_mark, branch_marks, mark_at};
ghost use Rattle.document_marks.specs.MostMarks.{asks_to_repeat, marks_at_most};
ghost use Rattle.document_marks.specs.MostMarks.{marks_at_most_after, most_repeats};

use crate::rank::rank_of;
use desk_events::Mark;
use schedule::{Bookmark, Branch, Document, Edit, Intervention, MOST_MARKS};

/// At most how many marks a document has besides the start once an edit is made: there is at most
/// one more intervention, one more bookmark and one more branch.
pub fn marks_at_most_after(document: &Document, edit: &Edit) -> usize
    ensures most { result ≡ marks_at_most_after document.now (asked_of edit.now) }
    ensures enough { (after : Plan) (edited : Edited) →
        change document.now (asked_of edit.now) ≡ Ok (made after edited) →
        marks_at_most after ≤ result }
{
    let interventions = document.interventions().len() + 1;
    let bookmarks = document.bookmarks().len() + 1;
    let branches = document.branches().len() + 1;
    interventions + bookmarks + 2 * branches + most_repeats(document, edit)
}

// At most how many marks repeating interventions make after an edit.
fn most_repeats(document: &Document, edit: &Edit) -> usize
    ensures { result ≡ most_repeats document.now (asked_of edit.now) }
{
    if has_repeats(document.interventions()) || asks_to_repeat(edit) {
        MOST_MARKS as usize
    } else {
        0
    }
}

// Whether one of the interventions repeats.
fn has_repeats(interventions: &[Intervention]) -> bool
    ensures { result ≡ list_any (λ i. repeats i.acts) interventions.now }
{
    interventions
        .iter()
        .any(|intervention| intervention.acts.repeats())
}

// Whether an edit makes an intervention that repeats.
fn asks_to_repeat(edit: &Edit) -> bool
    ensures { result ≡ asks_to_repeat (asked_of edit.now) }
{
    match edit {
        Edit::Insert { acts, .. } | Edit::Change { acts, .. } => acts.repeats(),
        _ => false,
    }
}

/// The marks of a document besides the start, each once, by rising branch and generation. They
/// stand in the room, which is empty and has a place for each intervention, each bookmark and each
/// generation at which something repeats, and two for each branch.
pub fn marks_of(room: Vec<Mark>, document: &Document) -> Vec<Mark>
    requires empty { room.items ≡ [] }
    requires room { marks_at_most document.now ≤ vec_capacity room }
    ensures { AreMarksOf document.now result.items }
{
    let mut marks = room;
    add_branches(&mut marks, document.branches());
    add_bookmarks(&mut marks, document.bookmarks());
    add_interventions(&mut marks, document);
    marks.retain(|mark| !mark.is_start());
    sort(&mut marks);
    marks.dedup_by_key(|mark| rank_of(*mark));
    marks
}

// Sorts marks by rank. Those that stand in order one after another are merged; where there is no
// memory for that, all are sorted in place.
fn sort(marks: &mut Vec<Mark>)
    ensures same { IsPermutation marks.old.items marks.new.items }
    ensures sorted { IsSortedByKey mark_rank nat_cmp marks.new.items }
{
    match marks.sort_by_key(|mark| rank_of(*mark)) {
        Ok(()) => {}
        Err(_) => marks.sort_unstable_by_key(|mark| rank_of(*mark)),
    }
}

// Adds the marks at which branches begin and leave their parents.
fn add_branches(marks: &mut Vec<Mark>, branches: &[Branch])
    requires { vec_len marks.old + 2 * length branches.now ≤ vec_capacity marks.old }
    ensures marks { marks.new.items ≡ marks.old.items ++ flat_map branch_marks branches.now }
    ensures len { vec_len marks.new ≡ vec_len marks.old + 2 * length branches.now }
    ensures capacity { vec_capacity marks.new ≡ vec_capacity marks.old }
{
    for branch in branches {
        marks.push_reserved(Mark::at(branch.id, branch.fork));
        marks.push_reserved(Mark::at(branch.parent, branch.fork));
    }
}

// Adds the marks at which bookmarks stand.
fn add_bookmarks(marks: &mut Vec<Mark>, bookmarks: &[Bookmark])
    requires { vec_len marks.old + length bookmarks.now ≤ vec_capacity marks.old }
    ensures marks { marks.new.items ≡ marks.old.items ++ map bookmark_mark bookmarks.now }
    ensures len { vec_len marks.new ≡ vec_len marks.old + length bookmarks.now }
    ensures capacity { vec_capacity marks.new ≡ vec_capacity marks.old }
{
    for bookmark in bookmarks {
        marks.push_reserved(Mark::of(bookmark));
    }
}

// Adds the marks at which interventions act, as far as their branches reach.
fn add_interventions(marks: &mut Vec<Mark>, document: &Document)
    requires { vec_len marks.old
        + length (flat_map (acting_marks (reach document.now)) document.now.interventions)
        ≤ vec_capacity marks.old }
    ensures { marks.new.items ≡ marks.old.items
        ++ flat_map (acting_marks (reach document.now)) document.now.interventions }
{
    let mut known = [Reached {
        branch: 0,
        far: document.reach(0),
    }; PLACES];
    for intervention in document.interventions() {
        let far = reach_of(document, &mut known, intervention.branch);
        add_acting(marks, intervention, far);
    }
}

// How far a branch reaches.
#[derive(Clone, Copy)]
struct Reached {
    branch: u64,
    far: u64,
}

// A place for branch 0 and for each other that a document may have.
const PLACES: usize = 65;

// How far a branch reaches. What was found out before is known; each branch has a place of its own
// there, by how many ids are at most its own.
fn reach_of(document: &Document, known: &mut [Reached], branch: u64) -> u64
    requires { All (λ r. r.far ≡ reach document.now r.branch) known.old }
    ensures reach { result ≡ reach document.now branch }
    ensures known { All (λ r. r.far ≡ reach document.now r.branch) known.new }
{
    let place = document
        .branches()
        .partition_point(|other| other.id <= branch);
    if place < known.len() && known[place].branch == branch {
        return known[place].far;
    }
    let far = document.reach(branch);
    if place < known.len() {
        known[place] = Reached { branch, far };
    }
    far
}

// Adds the marks at which an intervention acts, up to a generation.
fn add_acting(marks: &mut Vec<Mark>, intervention: &Intervention, far: u64)
    requires { vec_len marks.old + length (generations_to far intervention.now.acts)
        ≤ vec_capacity marks.old }
    ensures marks { marks.new.items ≡ marks.old.items
        ++ map (mark_at intervention.now.branch) (generations_to far intervention.now.acts) }
    ensures capacity { vec_capacity marks.new ≡ vec_capacity marks.old }
{
    for generation in intervention.acts.generations_to(far) {
        marks.push_reserved(Mark::at(intervention.branch, generation));
    }
}
