//! Worked jobs of the rule X.
ghost use Rattle.std.specs.Prelude.{IsTrue};
ghost use Rattle.bookmarks.specs.Within.{KeepsViewLimits};
ghost use Rattle.revision_jobs.specs.Entries.{IsOf};
ghost use Rattle.step_engine.specs.Evolved.{CanEvolve};

mod answers;
mod entries;
mod posts;
mod stops;

use basics::Listing;
use bookmarks::View;
use plane_core::{CellSet, Next, Plane};
use revision_jobs::{Entries, Entry, Place, Rendering, Step};
use rule_tree::Rule;
use std::alloc::Global;
use std::fmt::Debug;
use std::process::Abort;
use std::sync::{Arc, Wait};
use step_engine::fits;
use test_planes::{Row, all_can_be_laid, is_below, sets_of};

// A cell is 1 next where exactly one of its two neighbours is. Two of the eight cases are left to
// the cell's own state.
const X: &[u8] =
    b"@RULE X\n@TABLE\nn_states:2\nneighborhood:oneDimensional\nsymmetries:none\n0,1,0,1\n0,0,1,1\n1,0,0,0\n1,1,1,0\n";

const MOST_GENERATIONS: u64 = 1 << 60;

/// Stops the test where what was found isn't what was wanted.
fn same<T: PartialEq + Debug, A: Debug>(rt: &impl Abort, found: &T, wanted: &T, at: &A) {
    assert!(rt; *found == *wanted, "{at:?}: {found:?}, not {wanted:?}");
}

fn can_evolve(plane: &Plane, states: u16, gens: u64) -> bool
    ensures { IsTrue result → CanEvolve states gens plane.now }
{
    is_below(plane, states) && gens <= MOST_GENERATIONS && fits(plane, gens)
}

fn is_within(view: &View) -> bool
    ensures { IsTrue result → KeepsViewLimits view.now }
{
    view.has_window_size() && view.lies_in_range()
}

fn cells_set(rt: &impl Abort, alloc: Global, rows: &[Row]) -> Listing<CellSet> {
    Listing::from_vec(sets_of(alloc, rows).expect(rt, "memory"))
}

fn plane_of(rt: &impl Abort, alloc: Global, rows: &[Row]) -> Plane {
    test_planes::plane_of(alloc, rows).expect(rt, "memory, and rows within the plane")
}

fn shared(rt: &impl Abort, alloc: Global, plane: Plane) -> Arc<Plane> {
    Arc::new(alloc, plane).expect(rt, "memory")
}

fn table(rt: &impl Abort, alloc: Global) -> Entries {
    Entries::new(alloc).expect(rt, "memory")
}

/// Stores a step of the rule X.
fn push_step<R: Abort + Wait>(
    rt: &R,
    alloc: Global,
    entries: &Entries,
    from: Arc<Plane>,
    cells: Listing<CellSet>,
    gens: u64,
) -> Place
    ensures { IsOf entries.now result }
{
    let rule = Rule::read(alloc, X).expect(rt, "a rule");
    assert!(rt;
        all_can_be_laid(cells.as_slice()),
        "a cell lies outside the plane"
    );
    let laid = from.lay(cells.as_slice()).expect(rt, "memory");
    assert!(rt; can_evolve(&laid, rule.states(), gens), "there is no room");
    let rule = Arc::new(alloc, rule).expect(rt, "memory");
    let step = Step {
        rule,
        from,
        cells,
        gens,
    };
    entries.push(rt, Entry::Step(step)).expect(rt, "memory")
}

/// Stores a view under the rule X.
fn push_view<R: Abort + Wait>(
    rt: &R,
    alloc: Global,
    entries: &Entries,
    view: View,
    from: Arc<Plane>,
    cells: Listing<CellSet>,
    generation: u64,
) -> Place
    ensures { IsOf entries.now result }
{
    assert!(rt;
        all_can_be_laid(cells.as_slice()),
        "a cell lies outside the plane"
    );
    let laid = from.lay(cells.as_slice()).expect(rt, "memory");
    assert!(rt; is_below(&laid, 2), "a state is too high");
    assert!(rt; is_within(&view), "a view is beyond its limits");
    let name = b"X".to_vec(alloc).expect(rt, "memory");
    let rendering = Rendering {
        view,
        from,
        cells,
        name: Listing::from_vec(name),
        states: 2,
        generation,
    };
    entries
        .push(rt, Entry::View(rendering))
        .expect(rt, "memory")
}

/// Stores the step over so many generations from the one live cell (0, 0).
fn push_from_one<R: Abort + Wait>(rt: &R, alloc: Global, entries: &Entries, gens: u64) -> Place
    ensures { IsOf entries.now result }
{
    let from = shared(rt, alloc, plane_of(rt, alloc, &[(0, 0, 1)]));
    let none = cells_set(rt, alloc, &[]);
    push_step(rt, alloc, entries, from, none, gens)
}
