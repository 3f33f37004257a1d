//! New numbers for some of a table's squares.
//!
//! A list by the squares' numbers has a stamp for each square, and those from a base on tell new
//! numbers. Whoever renumbers anew takes a base beyond all stamps, so that they say nothing any
//! more. So the list is cleared only where no such base is left, once in 126 times.
ghost use Rattle.std.specs.Prelude.{◌≡◌, ℕ, ◌<◌, ◌≤◌, None, OnOk, get_or, length};
ghost use Rattle.square_table.specs.Renumbering.{IsWithin, Stamps, known_of, known_range, with_known};

use std::alloc::{AllocError, Global};
use std::marker::Model;

/// New numbers are below it.
pub const RANGE: u32 = 1 << 25;

// The base behind this one has room for its range too.
const LAST_BASE: u32 = u32::MAX - 2 * RANGE;

/// The new numbers of squares.
///
/// Contracts see the stamps by the squares' numbers, and the base.
#[derive(Drop)]
pub struct Renumbering {
    stamps: Vec<u32>,
    base: u32,
}

impl Model for Renumbering {
    ghost Value = { Stamps };

    ghost view = { λ r. record { stamps = r.stamps.items; base = r.base } };

    ghost invariant = { λ r. IsWithin r.stamps.items r.base };
}

// A list of at least so many stamps. Those that it had are the same.
fn widen(stamps: &mut Vec<u32>, count: usize) -> Result<(), AllocError>
    ensures room { OnOk result (count ≤ length stamps.new.items) }
    ensures same { (n : ℕ) → get_or stamps.new.items n 0 ≡ get_or stamps.old.items n 0 }
{
    if stamps.len() < count {
        stamps.resize(count, 0)?;
    }
    Ok(())
}

impl Renumbering {
    /// No square has a new number.
    pub fn new(alloc: Global) -> Renumbering {
        Renumbering {
            stamps: Vec::new(alloc),
            base: RANGE,
        }
    }

    /// Begins anew, for squares with numbers below `count`: none of them has a new number.
    pub fn begin(&mut self, count: usize) -> Result<(), AllocError>
        ensures room { OnOk result (count ≤ length self.new.stamps) }
        ensures none { OnOk result ((n : ℕ) → known_of self.new n ≡ None) }
    {
        if self.base <= LAST_BASE {
            self.base += RANGE;
        } else {
            self.stamps.clear();
            self.base = RANGE;
        }
        widen(&mut self.stamps, count)
    }

    /// The new number of a square, if it has one.
    #[inline(always)]
    pub fn get(&self, number: u32) -> Option<u32>
        requires { number < length self.now.stamps }
        ensures { result ≡ known_of self.now number }
    {
        let stamp = self.stamps[number as usize];
        if stamp >= self.base {
            return Some(stamp - self.base);
        }
        None
    }

    /// Gives a square a new number.
    #[inline(always)]
    pub fn insert(&mut self, number: u32, known: u32)
        requires there { number < length self.old.stamps }
        requires small { known < known_range }
        ensures { self.new ≡ with_known self.old number known }
    {
        self.stamps[number as usize] = self.base + known;
    }
}
