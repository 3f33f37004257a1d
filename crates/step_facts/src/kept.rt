//! A fact that is kept.
ghost use Rattle.std.specs.Prelude.{◌≡◌, ◌↔◌, IfOk, IsTrue};
ghost use Rattle.std.specs.Arc.{arc_value};
ghost use Rattle.worlds.specs.Live.{population};
ghost use Rattle.revision_jobs.specs.Value.{world_after};
ghost use Rattle.step_facts.specs.Known.{IsTrueFact};
ghost use Rattle.step_facts.specs.Same.{asked_of, same_step};

use plane_core::{CellSet, Plane};
use revision_jobs::Step;
use std::alloc::{AllocError, Global};
use std::marker::Model;
use std::sync::Arc;

/// A step and the pattern that came of it. Contracts see it as the two.
#[derive(Drop)]
pub(crate) struct Kept {
    step: Step,
    // How many cells are live in the step's pattern, which tells most steps apart.
    live: u128,
    value: Arc<Plane>,
}

impl Model for Kept {
    ghost use Rattle.std.specs.Coded.{codes};
    ghost use Rattle.std.specs.Prelude.{◌≡◌};
    ghost use Rattle.std.specs.Arc.{arc_value};
    ghost use Rattle.worlds.specs.World.{coded_world};
    ghost use Rattle.worlds.specs.Live.{population};
    ghost use Rattle.step_facts.specs.Known.{Fact, IsTrueFact};

    ghost Value = { Fact };

    ghost coded = { Prim.hlevel (codes, coded_world) };

    ghost view = { λ k. (k.step, arc_value k.value) };

    ghost invariant = { λ k. (k.live ≡ population (arc_value k.step.from)) × IsTrueFact (k.step, arc_value k.value) };
}

// Whether two lists of cells are the same.
fn are_same_cells(cells: &[CellSet], others: &[CellSet]) -> bool
    ensures { IsTrue result ↔ (cells.now ≡ others.now) }
{
    cells == others
}

// Whether two steps are the same but for the names of their rules. Rules and patterns are compared
// only where all else is the same.
fn are_same(step: &Step, other: &Step) -> bool
    ensures { IsTrue result ↔ (asked_of step.now ≡ asked_of other.now) }
{
    if step.gens != other.gens {
        return false;
    }
    if !are_same_cells(step.cells.as_slice(), other.cells.as_slice()) {
        return false;
    }
    if !step.rule.equals(&other.rule) {
        return false;
    }
    step.from.equals(&other.from)
}

impl Kept {
    /// What came of a step, with handles of its own on its rule and on both patterns.
    pub(crate) fn of(alloc: Global, step: &Step, value: &Arc<Plane>) -> Result<Kept, AllocError>
        requires { arc_value value.now ≡ world_after step.now }
        ensures step { IfOk result (λ kept. asked_of kept.0 ≡ asked_of step.now) }
        ensures value { IfOk result (λ kept. kept.1 ≡ world_after step.now) }
    {
        Ok(Kept {
            step: Step {
                rule: Arc::try_clone(&step.rule)?,
                from: Arc::try_clone(&step.from)?,
                cells: step.cells.copy(alloc)?,
                gens: step.gens,
            },
            live: step.from.population(),
            value: Arc::try_clone(value)?,
        })
    }

    /// Whether it is of this step, in whose pattern so many cells are live.
    pub(crate) fn is_of(&self, step: &Step, live: u128) -> bool
        requires { live ≡ population (arc_value step.now.from) }
        ensures { result ≡ same_step step.now self.now.0 }
    {
        self.live == live && are_same(step, &self.step)
    }

    /// The pattern that came of it.
    pub(crate) fn value(&self) -> Result<Arc<Plane>, AllocError>
        ensures value { IfOk result (λ plane. arc_value plane ≡ self.now.1) }
        ensures right { self.now.1 ≡ world_after self.now.0 }
    {
        Arc::try_clone(&self.value)
    }
}
