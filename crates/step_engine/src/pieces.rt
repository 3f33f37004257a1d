//! Many generations of a plane in leaps, whose lengths follow what they cost.
//!
//! Each leap is HashLife's (Gosper 1984), by a power of two generations as a rule, since those results
//! are shared by all leaps. Its length begins at an eighth of the pattern's side and is doubled or
//! halved by the squares that it made, as in Golly's hyperspeed, so that no leap is likely to fill the
//! table. A pattern whose leaps make no more squares when they get longer is regular, and goes on
//! 16 times as far: so a way of n generations of such a pattern has few more than log n / 4 leaps.
ghost use Rattle.std.specs.Prelude.{◌≡◌, ◌<◌, ◌≤◌, ◌^◌, IfOk, Err};
ghost use Rattle.worlds.specs.Iterate.{iterate};
ghost use Rattle.worlds.specs.Step.{step};
ghost use Rattle.worlds.specs.Stop.{CountsStop};
ghost use Rattle.step_engine.specs.Evolved.{CanEvolve, IsRoomSpent};
ghost use Rattle.step_engine.specs.Pieces.{IsPieceSpent};

use crate::evolved::EvolveFault;
use crate::kept::Engine;
use crate::pace::{Leap, eased, first, paced, stride};
use plane_core::{Next, Plane, Stop};

// A leap that finds no room is given up where it is no more than such a part of the way.
const MOST_LEAPS: u64 = 4096;

impl<'a, R: Next> Engine<'a, R> {
    /// The plane `generations` later, as `evolve` gives it, also where there is no room for the
    /// way of all of them at once.
    ///
    /// The plane goes in leaps, as long as the squares that they make allow. Where there is no room for
    /// a leap, a shorter one is tried, down to a 4,096th of the way, and at last the whole way at once.
    pub fn evolve_in_pieces<S: Stop>(
        &mut self,
        plane: &Plane,
        generations: u64,
        stop: &mut S,
    ) -> Result<Plane, EvolveFault>
        requires { CanEvolve (R.state_count self.old.rule) generations plane.now }
        ensures plane { IfOk result (λ later.
            later ≡ iterate generations (step (R.meaning self.old.rule)) plane.now) }
        ensures same { self.new ≡ self.old }
        ensures stop { CountsStop result (Err EvolveFault.Stopped)
            (S.yes_count stop.old) (S.yes_count stop.new) }
        ensures no_room { result ≡ Err EvolveFault.NoRoom →
            IsRoomSpent self.old.limit (R.meaning self.old.rule) plane.now generations }
        ensures piece { result ≡ Err EvolveFault.NoRoom →
            IsPieceSpent self.old.limit (R.meaning self.old.rule) plane.now generations }
    {
        match self.by_leaps(plane, generations, stop) {
            Err(EvolveFault::NoRoom) => self.evolve(plane, generations, stop),
            found => found,
        }
    }

    // The plane `generations` later, by leaps.
    fn by_leaps<S: Stop>(
        &mut self,
        plane: &Plane,
        generations: u64,
        stop: &mut S,
    ) -> Result<Plane, EvolveFault>
        requires { CanEvolve (R.state_count self.old.rule) generations plane.now }
        ensures plane { IfOk result (λ later.
            later ≡ iterate generations (step (R.meaning self.old.rule)) plane.now) }
        ensures same { self.new ≡ self.old }
        ensures stop { CountsStop result (Err EvolveFault.Stopped)
            (S.yes_count stop.old) (S.yes_count stop.new) }
        ensures piece { result ≡ Err EvolveFault.NoRoom →
            IsPieceSpent self.old.limit (R.meaning self.old.rule) plane.now generations }
    {
        let least = generations.div_ceil(MOST_LEAPS);
        let mut now = plane.copy()?;
        let mut left = generations;
        let mut length = first(self.pace(), plane);
        let mut last = Leap {
            count: 0,
            made: self.made(),
        };
        while left > 0 {
            let count = stride(length, left, last.count);
            match self.leap(&now, count, stop) {
                Ok(later) => {
                    now = later;
                    left -= count;
                    let leap = Leap {
                        count,
                        made: self.made(),
                    };
                    length = paced(length, least, self.measure(), last, leap);
                    last = leap;
                }
                Err(EvolveFault::NoRoom) if count > least => length = eased(count),
                Err(fault) => return Err(fault),
            }
        }
        self.keep_pace(length);
        Ok(now)
    }
}
