//! Squares and their results, which are kept from one call to the next.
//!
//! A table may begin with all squares of up to 4 by 4 cells of states 0 and 1, whose numbers say what
//! cells they have. They aren't counted among those that an engine holds.
ghost use Rattle.std.specs.Prelude.{◌≡◌, ◌-◌, ◌≤◌, length, IfOk, IfSome, Err};
ghost use Rattle.worlds.specs.Iterate.{iterate};
ghost use Rattle.worlds.specs.Step.{step};
ghost use Rattle.worlds.specs.Stop.{CountsStop};
ghost use Rattle.square_table.specs.Squares.{Table};
ghost use Rattle.hash_engine.specs.Small.{small_count};
ghost use Rattle.step_engine.specs.Evolved.{CanEvolve};
ghost use Rattle.step_engine.specs.Kept.{ClearsFor, HasNothing, HasRoom, IsNewCache, IsPackedIn, IsRightCache, LaysFor, SpendsNew, begun_by, begun_in};
ghost use Rattle.step_engine.specs.Padded.{IsSquareOf};

use crate::evolved::EvolveFault;
use crate::padding::rooted;
use crate::room::MOST_SQUARES;
use bumpalo::Bump;
use hash_engine::{Memo, SMALL_SQUARES, lay_small, search};
use plane_core::{Ask, Plane, Stop};
use square_table::{Square, SquareTable};
use std::alloc::{AllocError, Global};

// A plane, and one of its squares round the origin.
#[derive(Drop)]
struct Packed<'a> {
    plane: Plane,
    square: Square<'a>,
}

// The square of a plane, where it is the one that was packed last.
fn recalled<'a>(latest: Option<&Packed<'a>>, plane: &Plane) -> Option<Square<'a>>
    ensures { (table : Table) → IfSome latest.entry (λ packed. IsPackedIn table packed.now) →
        IfSome result (IsSquareOf table plane.now) }
{
    match latest {
        Some(packed) if packed.plane.equals(plane) => Some(packed.square),
        _ => None,
    }
}

/// The squares of planes that were evolved under one rule, and their results.
#[derive(Drop)]
pub(crate) struct Cache<'a> {
    table: SquareTable<'a>,
    memo: Memo,
    // The plane that was found last, with its square.
    latest: Option<Packed<'a>>,
    // How many squares there may be beside those with which the table begins.
    limit: u32,
    // Whether it begins with the small ones.
    is_small: bool,
}

// How many squares a table begins with.
fn begun(is_small: bool) -> u32
    ensures value { result ≡ begun_by is_small }
    ensures few { result ≤ small_count }
{
    if is_small { SMALL_SQUARES } else { 0 }
}

impl<'a> Cache<'a> {
    /// One that may hold up to `limit` squares, at most 16,777,216, beside the small ones. It begins
    /// with these where that is wanted and there is memory for them, else with no square.
    pub(crate) fn new(
        alloc: Global,
        arena: &'a Bump,
        limit: u32,
        is_small: bool,
    ) -> Result<Cache<'a>, AllocError>
        ensures { IfOk result (IsNewCache limit) }
    {
        let most = limit.min(MOST_SQUARES) + begun(is_small);
        let mut cache = Cache {
            table: SquareTable::new(alloc, arena, most)?,
            memo: Memo::nothing(alloc),
            latest: None,
            limit,
            is_small,
        };
        cache.lay();
        Ok(cache)
    }

    /// How many squares there may be beside those with which it began.
    pub(crate) fn limit(&self) -> u32
        ensures { result ≡ self.now.limit }
    {
        self.limit
    }

    /// Another one, which begins as this one did.
    pub(crate) fn anew(&self, alloc: Global, arena: &'a Bump) -> Result<Cache<'a>, AllocError>
        ensures { IfOk result (IsNewCache self.now.limit) }
    {
        Cache::new(alloc, arena, self.limit, self.is_small)
    }

    /// Whether it began with the small squares.
    pub(crate) fn is_small(&self) -> bool {
        self.is_small
    }

    /// How many squares there are beside those with which it began.
    pub(crate) fn squares(&self) -> u32
        requires { begun_in self.now ≤ length self.now.table.rows }
        ensures { result ≡ length self.now.table.rows - begun_in self.now }
    {
        self.table.len() - begun(self.is_small)
    }

    /// Gives up all squares but those with which it began, and all results. It keeps their memory.
    pub(crate) fn clear(&mut self)
        requires { HasRoom self.old }
        ensures right { ClearsFor self.old self.new }
        ensures limit { self.new.limit ≡ self.old.limit }
    {
        self.latest = None;
        self.table.clear();
        self.memo.clear();
        self.lay();
    }

    // Lays the squares with which it begins. Where that is refused there are none.
    fn lay(&mut self)
        requires { HasNothing self.old }
        ensures right { LaysFor self.old self.new }
        ensures new { length self.new.table.rows ≡ begun_in self.new }
        ensures limit { self.new.limit ≡ self.old.limit }
    {
        if !self.is_small {
            return;
        }
        match lay_small(&mut self.table) {
            Ok(()) => self.memo.turn_small(),
            Err(_) => {
                self.table.clear();
                self.is_small = false;
            }
        }
    }

    /// The plane `generations` later, by the squares and results that are kept. It is noted as the
    /// latest with its square, so that an evolution that goes on from it needn't look for the squares
    /// of its rows.
    pub(crate) fn pass<Q: Ask, S: Stop>(
        &mut self,
        rule: &mut Q,
        plane: &Plane,
        generations: u64,
        stop: &mut S,
    ) -> Result<Plane, EvolveFault>
        requires evolve { CanEvolve (Q.state_count rule.old) generations plane.now }
        requires right { IsRightCache (Q.meaning rule.old) self.old }
        ensures plane { IfOk result (λ later.
            later ≡ iterate generations (step (Q.meaning rule.old)) plane.now) }
        ensures right { IsRightCache (Q.meaning rule.old) self.new }
        ensures limit { self.new.limit ≡ self.old.limit }
        ensures stop { CountsStop result (Err EvolveFault.Stopped)
            (S.yes_count stop.old) (S.yes_count stop.new) }
        ensures no_room { result ≡ Err EvolveFault.NoRoom →
            SpendsNew (Q.meaning rule.old) plane.now generations self.old }
    {
        let known = recalled(self.latest.as_ref(), plane);
        self.latest = None;
        let root = rooted(&mut self.table, known, plane, generations)?;
        let found = search(
            &mut self.table,
            &mut self.memo,
            rule,
            root,
            generations,
            stop,
        )?;
        let later = self.table.pack(found)?;
        if let Ok(plane) = later.copy() {
            self.latest = Some(Packed {
                plane,
                square: found,
            });
        }
        Ok(later)
    }
}
