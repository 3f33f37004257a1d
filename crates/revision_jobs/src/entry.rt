//! What is to be computed.
ghost use Rattle.std.specs.Prelude.{◌↔◌, IfOk, IsTrue};
ghost use Rattle.revision_jobs.specs.Serving.{HasRule, IsEngineFor, EngineComputes};

use basics::Listing;
use bookmarks::View;
use bumpalo::Bump;
use plane_core::{CellSet, Plane};
use rule_tree::Rule;
use std::alloc::{AllocError, Global};
use std::sync::Arc;
use step_engine::Engine;

/// A pattern or a text that is to be computed. Both begin with the pattern `from`, on which the
/// cells are laid in turn, so that the last mention of a cell wins. The cells lie in
/// `-2^61 <= x, y < 2^61`.
#[derive(Drop)]
pub enum Entry {
    /// A later pattern.
    Step(Step),
    /// The text of a view.
    View(Rendering),
}

/// The pattern so many generations later, at most 2^60. The pattern with its cells has states of
/// the rule, and room for the generations in the range of planes.
pub struct Step {
    pub rule: Arc<Rule>,
    pub from: Arc<Plane>,
    pub cells: Listing<CellSet>,
    pub gens: u64,
}

// Written out, as a derived one is proved again in each crate above.
impl Drop for Step {
    fn drop(self) {
        let Step {
            rule: _,
            from: _,
            cells: _,
            gens: _,
        } = self;
    }
}

/// The text of a view, for a rule with this name and so many states, at a generation. The pattern
/// with its cells has states below `states`, and a window keeps its limits.
pub struct Rendering {
    pub view: View,
    pub from: Arc<Plane>,
    pub cells: Listing<CellSet>,
    pub name: Listing<u8>,
    pub states: u16,
    pub generation: u64,
}

// Written out, as a derived one is proved again in each crate above.
impl Drop for Rendering {
    fn drop(self) {
        let Rendering {
            view: _,
            from: _,
            cells: _,
            name: _,
            states: _,
            generation: _,
        } = self;
    }
}

impl Entry {
    /// Whether an engine for the rule computes the entry: the rule of a step is the same but for its
    /// name, and for a view any engine will do.
    pub fn is_served_by(&self, rule: &Rule) -> bool
        ensures same { IsTrue result ↔ HasRule rule.now self.now }
        ensures serves { IsTrue result → EngineComputes rule.now self.now }
    {
        match self {
            Entry::Step(step) => rule.equals(&step.rule),
            Entry::View(_) => true,
        }
    }

    /// An engine for the rule of a step, which may hold so many squares. A view needs none.
    pub fn engine<'a>(
        &'a self,
        alloc: Global,
        arena: &'a Bump,
        squares: u32,
    ) -> Result<Option<Engine<'a, Rule>>, AllocError>
        ensures { IfOk result (λ engine. IsEngineFor squares self.now engine) }
    {
        match self {
            Entry::Step(step) => Ok(Some(Engine::new(alloc, arena, &*step.rule, squares)?)),
            Entry::View(_) => Ok(None),
        }
    }
}
