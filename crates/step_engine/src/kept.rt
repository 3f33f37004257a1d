//! An engine that keeps its squares and their results from one call to the next.
ghost use Rattle.std.specs.Prelude.{◌≡◌, IfOk, Err};
ghost use Rattle.worlds.specs.Iterate.{iterate};
ghost use Rattle.worlds.specs.Step.{step};
ghost use Rattle.worlds.specs.Stop.{CountsStop};
ghost use Rattle.step_engine.specs.Evolved.{CanEvolve, IsRoomSpent};

use crate::allowance::Allowance;
use crate::cache::Cache;
use crate::evolved::EvolveFault;
use crate::pace::Leap;
use crate::room::MOST_SQUARES;
use bumpalo::Bump;
use hash_engine::Asking;
use plane_core::{Next, Plane, Stop};
use std::alloc::{AllocError, Global};
use std::marker::Model;

// An engine that may hold fewer squares does without the small ones, which would be many beside them.
const ROOM_FOR_SMALL: u32 = 1 << 18;

// So many squares take as long to make as the small ones, which a shorter way isn't worth.
const MADE_BEFORE_SMALL: u32 = 1 << 12;

// A first pattern of so many live cells is likely to make more.
const MANY_CELLS: u128 = 1 << 12;

/// An engine for one rule, which keeps the squares of the planes that it evolved and their results:
/// what an earlier call found isn't computed again. It keeps a copy of the plane that it gave last,
/// too, so that a call that goes on from it begins at its square.
///
/// Contracts see the rule, and how many squares the engine may hold.
#[derive(Drop)]
pub struct Engine<'a, R: Next> {
    alloc: Global,
    arena: &'a Bump,
    rule: &'a R,
    cache: Cache<'a>,
    // How far a leap may go that begins the next way, 0 where none was made.
    pace: u64,
    allowance: Allowance,
    // How many squares the leaps made, until they are as many as decide what a cache begins with.
    made_in_all: u32,
}

impl<'a, R: Next> Model for Engine<'a, R> {
    ghost use Rattle.step_engine.specs.Kept.{RuleEngine, IsRightCache};

    ghost Value = { RuleEngine R };

    ghost view = { λ e. record { rule = e.rule.now; limit = e.cache.limit } };

    ghost invariant = { λ e. IsRightCache (R.meaning e.rule.now) e.cache };
}

impl<'a, R: Next> Engine<'a, R> {
    /// An engine that evolved nothing yet, and may hold up to `limit` squares, at most 16,777,216. The
    /// arena, which is made before it, holds some bytes of each call.
    ///
    /// Under a rule of two states, and with a limit of at least 262,144, it begins anew with the 65,552
    /// squares of up to 4 by 4 cells once it made many, or where a first pattern is large, if there is
    /// memory for them. These are held beside the limit.
    pub fn new(
        alloc: Global,
        arena: &'a Bump,
        rule: &'a R,
        limit: u32,
    ) -> Result<Engine<'a, R>, AllocError>
        ensures { IfOk result (λ engine. engine ≡ record { rule = rule.now; limit = limit }) }
    {
        let cache = Cache::new(alloc, arena, limit, false)?;
        Ok(Engine {
            alloc,
            arena,
            rule,
            cache,
            pace: 0,
            allowance: Allowance::new(),
            made_in_all: 0,
        })
    }

    /// The rule.
    pub fn rule(&self) -> &'a R
        ensures { result.now ≡ self.now.rule }
    {
        self.rule
    }

    /// How many squares it may hold.
    pub fn limit(&self) -> u32
        ensures { result ≡ self.now.limit }
    {
        self.cache.limit()
    }

    /// The plane `generations` later under the engine's rule, whatever the engine evolved before.
    ///
    /// The plane's states are below the rule's, and it fits. The stop is asked before each result that
    /// isn't known yet, and Stopped is answered where it says yes; NoMemory where a growth was refused.
    /// Where there is no room for another square beside those of earlier calls, all of them are given
    /// up, and the plane is evolved once more: so NoRoom comes only where the squares on the way alone
    /// are more than the engine may hold. Results by as many generations as `generations` decides stay
    /// while calls are by the same number, and those by 2^k generations until squares are given up.
    pub fn evolve<S: Stop>(
        &mut self,
        plane: &Plane,
        generations: u64,
        stop: &mut S,
    ) -> Result<Plane, EvolveFault>
        requires { CanEvolve (R.state_count self.old.rule) generations plane.now }
        ensures plane { IfOk result (λ later.
            later ≡ iterate generations (step (R.meaning self.old.rule)) plane.now) }
        ensures same { self.new ≡ self.old }
        ensures stop { CountsStop result (Err EvolveFault.Stopped)
            (S.yes_count stop.old) (S.yes_count stop.new) }
        ensures no_room { result ≡ Err EvolveFault.NoRoom →
            IsRoomSpent self.old.limit (R.meaning self.old.rule) plane.now generations }
    {
        let was_new = self.cache.squares() == 0;
        let rule = self.rule;
        let found = self
            .cache
            .pass(&mut Asking::new(rule), plane, generations, stop);
        if was_new || !matches!(&found, Err(EvolveFault::NoRoom)) {
            return found;
        }
        self.cache = self.cache.anew(self.alloc, self.arena)?;
        self.cache
            .pass(&mut Asking::new(rule), plane, generations, stop)
    }

    /// The plane `generations` later, as `evolve` gives it. All squares are given up before, where they
    /// are more than the engine keeps.
    pub(crate) fn leap<S: Stop>(
        &mut self,
        plane: &Plane,
        generations: u64,
        stop: &mut S,
    ) -> Result<Plane, EvolveFault>
        requires { CanEvolve (R.state_count self.old.rule) generations plane.now }
        ensures plane { IfOk result (λ later.
            later ≡ iterate generations (step (R.meaning self.old.rule)) plane.now) }
        ensures same { self.new ≡ self.old }
        ensures stop { CountsStop result (Err EvolveFault.Stopped)
            (S.yes_count stop.old) (S.yes_count stop.new) }
        ensures no_room { result ≡ Err EvolveFault.NoRoom →
            IsRoomSpent self.old.limit (R.meaning self.old.rule) plane.now generations }
    {
        self.turn_small(plane);
        let most = self.most();
        let squares = self.squares();
        if self.allowance.is_spent(squares, generations, most) {
            self.give_up();
        }
        let before = self.squares();
        let found = self.evolve(plane, generations, stop);
        self.note_leap(plane, generations, before);
        found
    }

    // Begins anew with the small squares, where that is worth it by what was made, or at first by the
    // pattern.
    fn turn_small(&mut self, plane: &Plane)
        ensures { self.new ≡ self.old }
    {
        let is_large = self.squares() == 0 && plane.population() >= MANY_CELLS;
        if self.made_in_all < MADE_BEFORE_SMALL && !is_large {
            return;
        }
        self.made_in_all = 0;
        let is_worth = self.rule.states() == 2 && self.cache.limit() >= ROOM_FOR_SMALL;
        if is_worth
            && !self.cache.is_small()
            && let Ok(cache) = Cache::new(self.alloc, self.arena, self.cache.limit(), true)
        {
            self.cache = cache;
        }
    }

    // Gives all squares and results up.
    fn give_up(&mut self)
        ensures { self.new ≡ self.old }
    {
        self.cache.clear();
    }

    // How many squares it holds beside those with which it began.
    fn squares(&self) -> u32 {
        self.cache.squares()
    }

    // Notes a leap, before which there were so many squares, unless they were given up.
    fn note_leap(&mut self, plane: &Plane, count: u64, before: u32)
        ensures { self.new ≡ self.old }
    {
        let after = self.squares();
        let made = after.checked_sub(before).unwrap_or(after);
        let most = self.most();
        self.made_in_all = self.made_in_all.saturating_add(made);
        self.allowance.note(plane, Leap { count, made }, most);
    }

    // How many squares there may be.
    fn most(&self) -> u32 {
        self.cache.limit().min(MOST_SQUARES)
    }

    /// How many squares the leap before made.
    pub(crate) fn made(&self) -> u32 {
        self.allowance.made()
    }

    /// How many squares the lengths of leaps go by.
    pub(crate) fn measure(&self) -> u32 {
        self.allowance.measure(self.most())
    }

    /// How far the leap may go that begins a way, 0 where none was made yet.
    pub(crate) fn pace(&self) -> u64 {
        self.pace
    }

    /// Keeps how far it may go.
    pub(crate) fn keep_pace(&mut self, pace: u64)
        ensures { self.new ≡ self.old }
    {
        self.pace = pace;
    }
}
