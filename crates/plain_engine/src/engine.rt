//! Many generations of a plane, one after another.
ghost use Rattle.std.specs.Prelude.{◌≡◌, ◌≢◌, IfOk, Err};
ghost use Rattle.worlds.specs.Iterate.{iterate};
ghost use Rattle.worlds.specs.Step.{step};
ghost use Rattle.worlds.specs.Stop.{CountsStop};
ghost use Rattle.step_engine.specs.Evolved.{CanEvolve};
ghost use Rattle.counted_engine.specs.Evolved.{nothing_shared};

use counted_engine::{Evolved, Report};
use plain_steps::{Generation, next_generation};
use plane_core::{Next, Plane, Stop};
use std::alloc::Global;
use step_engine::EvolveFault;

const NOTHING_SHARED: Report = Report {
    squares: 0,
    fours: 0,
    base: 0,
};

/// The plane `generations` later, by one step after another.
///
/// The plane's states are below the rule's, and it fits. The stop is asked before each step, and
/// Stopped is answered where it says yes; NoMemory where a growth was refused, which that of a
/// list of more than 2^32 - 1 live cells is. A pattern that a step leaves as it was is not stepped
/// again. Nothing is shared, so `limit`, the number of squares that an engine may hold, is not
/// used, and NoRoom never comes.
pub fn evolve_plain<R: Next, S: Stop>(
    alloc: Global,
    rule: &R,
    plane: &Plane,
    generations: u64,
    stop: &mut S,
    _limit: u32,
) -> Result<Evolved, EvolveFault>
    requires { CanEvolve (R.state_count rule.now) generations plane.now }
    ensures plane { IfOk result (λ evolved.
        evolved.plane ≡ iterate generations (step (R.meaning rule.now)) plane.now) }
    ensures report { IfOk result (λ evolved. evolved.report ≡ nothing_shared) }
    ensures stop { CountsStop result (Err EvolveFault.Stopped)
        (S.yes_count stop.old) (S.yes_count stop.new) }
    ensures room { result ≢ Err EvolveFault.NoRoom }
{
    if generations == 0 {
        return Ok(Evolved {
            plane: plane.copy()?,
            report: NOTHING_SHARED,
        });
    }
    let mut now = Generation::of(alloc, plane)?;
    for _ in 0..generations {
        if stop.poll() {
            return Err(EvolveFault::Stopped);
        }
        match next_generation(alloc, rule, &now)? {
            None => break,
            Some(later) => now = later,
        }
    }
    Ok(Evolved {
        plane: now.plane(alloc)?,
        report: NOTHING_SHARED,
    })
}
