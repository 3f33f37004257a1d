//! The facts.
ghost use Rattle.std.specs.Prelude.{◌≡◌, ◌+◌, [], Some, length, position, IfOk, IfSome, OnErr, OnOk};
ghost use Rattle.std.specs.Arc.{arc_value};
ghost use Rattle.std.specs.Map.{lookup_entry};
ghost use Rattle.std.specs.NonZero.{non_zero_usize_get};
ghost use Rattle.std.specs.Option.{option_map, option_to_list};
ghost use Rattle.std.specs.VecDeque.{deque_capacity, deque_len};
ghost use Rattle.revision_jobs.specs.Value.{world_after};
ghost use Rattle.revision_jobs.specs.declared.entry.Step.{Step};
ghost use Rattle.step_facts.specs.Known.{AddsOnly, IsKeptFirst, known, used, without};
ghost use Rattle.step_facts.specs.Same.{same_step};

use crate::kept::Kept;
use plane_core::Plane;
use revision_jobs::Step;
use std::alloc::{AllocError, Global};
use std::collections::VecDeque;
use std::marker::Model;
use std::num::NonZeroUsize;
use std::sync::Arc;

/// Steps with the patterns that came of them, the last used first.
///
/// Contracts see them as a list, and how many it may hold.
pub struct Facts {
    kept: VecDeque<Kept>,
    most: NonZeroUsize,
    alloc: Global,
}

// Written out, as a derived one is proved again in each crate above.
impl Drop for Facts {
    fn drop(self) {
        let Facts {
            kept: _,
            most: _,
            alloc: _,
        } = self;
    }
}

impl Model for Facts {
    ghost use Rattle.std.specs.Coded.{codes};
    ghost use Rattle.std.specs.NonZero.{non_zero_usize_get};
    ghost use Rattle.worlds.specs.World.{coded_world};
    ghost use Rattle.step_facts.specs.Known.{FactList};

    ghost Value = { FactList };

    ghost coded = { Prim.hlevel (codes, coded_world) };

    ghost view = { λ facts. record { list = facts.kept.items; most = non_zero_usize_get facts.most } };
}

// Where the first fact of a step stands, if there is one.
fn place_of(facts: &VecDeque<Kept>, step: &Step) -> Option<usize>
    ensures { result ≡ position (λ fact. same_step step.now fact.0) facts.now.items }
{
    let live = step.from.population();
    facts.iter().position(|kept| kept.is_of(step, live))
}

// The first fact of a step leaves, if there is one.
fn take_out(facts: &mut VecDeque<Kept>, step: &Step) -> Option<Kept>
    ensures fact { result ≡ lookup_entry (same_step step.now) facts.old.items }
    ensures rest { facts.new.items ≡ without step.now facts.old.items }
    ensures length { length (option_to_list result) + deque_len facts.new ≡ deque_len facts.old }
    ensures capacity { deque_capacity facts.new ≡ deque_capacity facts.old }
{
    let place = place_of(facts, step)?;
    facts.remove(place)
}

impl Facts {
    /// No facts, and room for at most so many.
    pub fn new(alloc: Global, most: NonZeroUsize) -> Facts
        ensures { result ≡ record { list = []; most = non_zero_usize_get most } }
    {
        Facts {
            kept: VecDeque::new(alloc),
            most,
            alloc,
        }
    }

    /// Keeps which pattern came of a step, as the fact that was used last. Where there was no room
    /// the one that was used longest ago goes. Refused, the facts are as they were.
    pub fn keep(&mut self, step: &Step, value: &Arc<Plane>) -> Result<(), AllocError>
        requires { arc_value value.now ≡ world_after step.now }
        ensures first { OnOk result (IsKeptFirst step.now self.old self.new) }
        ensures kept { OnOk result (known self.new.list step.now ≡ Some (world_after step.now)) }
        ensures adds { AddsOnly step.now self.old.list self.new.list }
        ensures unchanged { OnErr result (self.new ≡ self.old) }
    {
        let kept = Kept::of(self.alloc, step, value)?;
        self.kept.reserve(1)?;
        take_out(&mut self.kept, step);
        self.kept.truncate(self.most.get() - 1);
        self.kept.push_front_reserved(kept);
        Ok(())
    }

    /// The pattern that comes of a step, if the fact is kept, which then is the one that was used
    /// last.
    pub fn recall(&mut self, step: &Step) -> Result<Option<Arc<Plane>>, AllocError>
        ensures known { IfOk result (λ found.
            option_map (λ plane. arc_value plane) found ≡ known self.old.list step.now) }
        ensures right { IfOk result (λ found.
            IfSome found (λ plane. arc_value plane ≡ world_after step.now)) }
        ensures used { self.new.list ≡ used step.now self.old.list }
        ensures most { self.new.most ≡ self.old.most }
        ensures others { (other : Step) → known self.new.list other ≡ known self.old.list other }
    {
        let Some(kept) = take_out(&mut self.kept, step) else {
            return Ok(None);
        };
        let value = kept.value();
        self.kept.push_front_reserved(kept);
        Ok(Some(value?))
    }
}
