//! The generations at which an intervention acts, one after another.
ghost use Rattle.std.specs.Prelude.{◌≡◌, ◌≤◌, ◌∷◌, IfSome, None, Some, nat_le, if◌then◌else◌};
ghost use Rattle.std.specs.Iterator.{YieldsFirst, item_count};
ghost use Rattle.schedule.specs.Acts.{generations_to};
ghost use Rattle.schedule.specs.Generations.{from_next};

use crate::acts::Acts;
use std::marker::Model;

/// An iterator over the generations at which an intervention acts, rising. Each is made by an
/// addition; no list of them is kept.
///
/// Contracts see the generations that are left.
#[derive(Drop)]
pub struct Generations {
    next: Option<u64>,
    every: u64,
    most: u64,
}

impl Model for Generations {
    ghost use Rattle.std.specs.Prelude.{ℕ, List, ◌≤◌, IfSome};
    ghost use Rattle.schedule.specs.Generations.{from_next};

    ghost Value = { List ℕ };

    ghost view = { λ left. from_next left.every left.most left.next };

    ghost invariant = { λ left. IfSome left.next (λ next. next ≤ left.most) };
}

// The generations from `first` on, each `every` after the one before, up to `most`.
fn from_first(first: u64, every: u64, most: u64) -> Generations
    ensures { result ≡ from_next every most (if nat_le first most then Some first else None) }
{
    let next = if first <= most { Some(first) } else { None };
    Generations { next, every, most }
}

impl Acts {
    /// The generations up to `far` at which it acts, rising.
    pub fn generations_to(&self, far: u64) -> Generations
        ensures { result ≡ generations_to far self.now }
    {
        match *self {
            Acts::Once { generation } => from_first(generation, 0, far.min(generation)),
            Acts::Every { first, every, last } => from_first(first, every, far.min(last)),
        }
    }
}

// The generation that is `every` after another, if that is at most `most`.
fn after(generation: u64, every: u64, most: u64) -> Option<u64>
    requires { generation ≤ most }
    ensures rest { from_next every most (Some generation)
        ≡ generation ∷ from_next every most result }
    ensures within { IfSome result (λ next. next ≤ most) }
{
    match generation.checked_add(every) {
        Some(next) if every > 0 && next <= most => Some(next),
        _ => None,
    }
}

impl Iterator for Generations {
    type Item = u64;

    ghost next_gives = { YieldsFirst (λ left. left) };

    ghost remaining = { item_count (λ left. left) };

    fn next(&mut self) -> Option<u64> {
        let generation = self.next?;
        self.next = after(generation, self.every, self.most);
        Some(generation)
    }
}
