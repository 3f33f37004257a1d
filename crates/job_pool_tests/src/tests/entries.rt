//! Entries that the tests' jobs work.
ghost use Rattle.std.specs.Prelude.{IsTrue};
ghost use Rattle.worlds.specs.Range.{AllBelow};
ghost use Rattle.step_engine.specs.Evolved.{CanEvolve};
ghost use Rattle.bookmarks.specs.Within.{KeepsViewLimits};
ghost use Rattle.revision_jobs.specs.Entries.{IsOf};

use basics::Listing;
use bookmarks::View;
use plane_core::{CellSet, Next, Plane};
use revision_jobs::{Entries, Entry, Place, Rendering, Step};
use rule_tree::Rule;
use std::alloc::Global;
use std::process::Abort;
use std::sync::{Arc, Wait};
use step_engine::fits;

/// A rule of two states whose every cell stays as it is.
pub(super) const STILL: &[u8] =
    b"@RULE Still\n@TABLE\nn_states:2\nneighborhood:oneDimensional\nsymmetries:none\n";

/// One under which a live cell with empty neighbours dies.
pub(super) const GONE: &[u8] =
    b"@RULE Gone\n@TABLE\nn_states:2\nneighborhood:oneDimensional\nsymmetries:none\n1,0,0,0\n";

const DOT: &[CellSet] = &[CellSet {
    x: 0,
    y: 0,
    state: 1,
}];

pub(super) fn table(rt: &impl Abort, alloc: Global) -> Entries {
    Entries::new(alloc).expect(rt, "memory")
}

fn is_below(plane: &Plane, states: u16) -> bool
    ensures { IsTrue result → AllBelow states plane.now }
{
    u16::from(plane.greatest()) < states
}

fn can_evolve(plane: &Plane, states: u16, gens: u64) -> bool
    ensures { IsTrue result → CanEvolve states gens plane.now }
{
    is_below(plane, states) && gens <= 1 << 60 && fits(plane, gens)
}

fn is_within(view: &View) -> bool
    ensures { IsTrue result → KeepsViewLimits view.now }
{
    view.has_window_size() && view.lies_in_range()
}

/// Stores a view of the empty pattern.
pub(super) fn push_view<R: Abort + Wait>(
    rt: &R,
    alloc: Global,
    entries: &Entries,
    view: View,
) -> Place
    ensures { IsOf entries.now result }
{
    let plane = Plane::empty(alloc);
    assert!(rt; is_below(&plane, 2), "a state is too high");
    assert!(rt; is_within(&view), "a view is beyond its limits");
    let rendering = Rendering {
        view,
        from: Arc::new(alloc, plane).expect(rt, "memory"),
        cells: Listing::from_vec(Vec::new(alloc)),
        name: Listing::from_vec(Vec::new(alloc)),
        states: 2,
        generation: 0,
    };
    entries
        .push(rt, Entry::View(rendering))
        .expect(rt, "memory")
}

/// Stores a step of the empty pattern over so many generations.
pub(super) fn push_step<R: Abort + Wait>(
    rt: &R,
    alloc: Global,
    entries: &Entries,
    gens: u64,
) -> Place
    ensures { IsOf entries.now result }
{
    push_step_of(rt, alloc, entries, STILL, Plane::empty(alloc), gens)
}

/// Stores a step of one live cell over one generation.
pub(super) fn push_dot<R: Abort + Wait>(
    rt: &R,
    alloc: Global,
    entries: &Entries,
    text: &[u8],
) -> Place
    ensures { IsOf entries.now result }
{
    let plane = Plane::empty(alloc).lay(DOT).expect(rt, "memory");
    push_step_of(rt, alloc, entries, text, plane, 1)
}

/// Stores a step of the pattern under the rule of a text.
fn push_step_of<R: Abort + Wait>(
    rt: &R,
    alloc: Global,
    entries: &Entries,
    text: &[u8],
    plane: Plane,
    gens: u64,
) -> Place
    ensures { IsOf entries.now result }
{
    let rule = Rule::read(alloc, text).expect(rt, "a rule");
    assert!(rt; can_evolve(&plane, rule.states(), gens), "there is no room");
    let step = Step {
        rule: Arc::new(alloc, rule).expect(rt, "memory"),
        from: Arc::new(alloc, plane).expect(rt, "memory"),
        cells: Listing::from_vec(Vec::new(alloc)),
        gens,
    };
    entries.push(rt, Entry::Step(step)).expect(rt, "memory")
}
