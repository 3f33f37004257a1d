//! Many generations of a plane at once, by squares that are shared.
ghost use Rattle.std.specs.Prelude.{◌≡◌, IfOk, Err};
ghost use Rattle.worlds.specs.Iterate.{iterate};
ghost use Rattle.worlds.specs.Step.{step};
ghost use Rattle.worlds.specs.Stop.{CountsStop};
ghost use Rattle.hash_engine.specs.Found.{KeepsRule};
ghost use Rattle.step_engine.specs.Evolved.{CanEvolve, IsRoomSpent};
ghost use Rattle.counted_engine.specs.Evolved.{IsEvolved, IsReport, AsksOnceOf};

use crate::evolved::{Evolved, Report};
use crate::found::result;
use bumpalo::Bump;
use hash_engine::Asking;
use plane_core::{Ask, Next, Plane, Stop};
use std::alloc::Global;
use step_engine::{EvolveFault, no_squares, rooted};

/// The plane `generations` later, by Gosper's algorithm for any number of generations (R. Wm. Gosper,
/// Exploiting Regularities in Large Cellular Spaces, Physica 10D, 1984), where the rule counts its
/// asks.
///
/// The plane's states are below the rule's, and it fits. Each distinct square is computed once; all
/// of them are given up at the end. So the rule is asked four times, in the order nw, ne, sw and se,
/// for each different block of 4 by 4 cells that is put to it. The stop is asked before each result
/// that isn't known yet, and Stopped is answered where it says yes; NoRoom where `limit` squares, at
/// most 16,777,216, are not enough; NoMemory where a growth was refused.
pub fn evolve_by<Q: Ask, S: Stop>(
    alloc: Global,
    rule: &mut Q,
    plane: &Plane,
    generations: u64,
    stop: &mut S,
    limit: u32,
) -> Result<Evolved, EvolveFault>
    requires { CanEvolve (Q.state_count rule.old) generations plane.now }
    ensures evolved { IfOk result (IsEvolved limit (Q.meaning rule.old) plane.now generations) }

    // No block of 4 by 4 cells is put to the rule twice, and each stands in an earlier generation.
    ensures asks { IfOk result
        (AsksOnceOf Q.meaning Q.asks rule.old rule.new plane.now generations) }
    ensures rule { KeepsRule Q.meaning Q.state_count rule.old rule.new }
    ensures stop { CountsStop result (Err EvolveFault.Stopped)
        (S.yes_count stop.old) (S.yes_count stop.new) }
    ensures no_room { result ≡ Err EvolveFault.NoRoom →
        IsRoomSpent limit (Q.meaning rule.old) plane.now generations }
{
    let arena = Bump::new(alloc);
    let mut table = no_squares(alloc, &arena, limit)?;
    let root = rooted(&mut table, None, plane, generations)?;
    let found = result(alloc, &mut table, rule, root, generations, stop)?;
    let report = Report {
        squares: table.len(),
        fours: found.fours,
        base: found.base,
    };
    let plane = table.pack(found.square)?;
    Ok(Evolved { plane, report })
}

/// The plane `generations` later, as `evolve_by` gives it.
pub fn evolve<R: Next, S: Stop>(
    alloc: Global,
    rule: &R,
    plane: &Plane,
    generations: u64,
    stop: &mut S,
    limit: u32,
) -> Result<Evolved, EvolveFault>
    requires { CanEvolve (R.state_count rule.now) generations plane.now }
    ensures plane { IfOk result (λ evolved.
        evolved.plane ≡ iterate generations (step (R.meaning rule.now)) plane.now) }
    ensures report { IfOk result (λ evolved.
        IsReport limit (R.meaning rule.now) plane.now generations evolved.report) }
    ensures stop { CountsStop result (Err EvolveFault.Stopped)
        (S.yes_count stop.old) (S.yes_count stop.new) }
    ensures no_room { result ≡ Err EvolveFault.NoRoom →
        IsRoomSpent limit (R.meaning rule.now) plane.now generations }
{
    evolve_by(
        alloc,
        &mut Asking::new(rule),
        plane,
        generations,
        stop,
        limit,
    )
}
