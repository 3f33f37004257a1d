//! How many squares an engine keeps, by what it costs to do without them.
//!
//! A table that lies in the processor's caches is asked several times as fast as one of millions of
//! squares. A pattern that doesn't repeat itself asks for few of the squares that earlier leaps made,
//! so it loses little where all of them are given up; a regular one lives by them. So a table begins
//! small. Once it is full its squares are given up, and what the next leap makes, beside the leap
//! before, shows whether that was cheap: then the table stays small, else the engine keeps as many as
//! it may hold. A table that one leap fills is kept for another as long, since only a leap that began
//! with squares shows what they save.

use crate::pace::Leap;
use plane_core::Plane;

// So many squares lie in the caches.
const FEW: u32 = 1 << 16;

// How often squares are given up before twice as many are kept, since more may be of use by then.
const MANY_TIMES: u32 = 16;

/// How many squares are kept at most.
#[derive(Clone, Copy)]
pub(crate) struct Allowance {
    // How many; 0 before the first leap.
    squares: u32,
    last: Leap,
    // The leap before the squares were given up, until another one shows what that cost.
    before: Option<Leap>,
    // Whether the last leap was that other one, which began without squares, and whether its squares
    // are kept so that the next one shows what they save.
    is_cold: bool,
    is_tried: bool,
    // Whether it was cheap, and how often since more are kept.
    is_cheap: bool,
    times: u32,
}

// How many are kept after a first leap. A pattern that has far more live cells than that leap made
// squares repeats itself, and one of many squares soon fills a small table with those it has.
fn first_squares(plane: &Plane, made: u32, limit: u32) -> u32 {
    let is_alike = plane.population() / 16 >= u128::from(made);
    if is_alike || made > 2 * FEW {
        return limit;
    }
    made.saturating_mul(4).max(FEW).min(limit)
}

// Whether a leap made clearly more squares a generation than the one before, with some to spare. One
// that is far longer is of a regular pattern, and says nothing of that.
fn is_dear(before: Leap, now: Leap, spare: u32) -> bool {
    if now.count / 2 > before.count {
        return true;
    }
    let made = u128::from(now.made);
    let cheap = u128::from(before.made) + u128::from(before.made / 2) + u128::from(spare);
    made.saturating_mul(u128::from(before.count)) > cheap.saturating_mul(u128::from(now.count))
}

// Whether a leap made less than half as many squares a generation as the one before, which began
// without any.
fn is_useful(before: Leap, now: Leap) -> bool {
    let made = u128::from(now.made) * u128::from(before.count);
    2 * made < u128::from(before.made) * u128::from(now.count)
}

impl Allowance {
    /// Of an engine that made no leap yet.
    pub(crate) fn new() -> Allowance {
        Allowance {
            squares: 0,
            last: Leap { count: 0, made: 0 },
            before: None,
            is_cold: false,
            is_tried: false,
            is_cheap: false,
            times: 0,
        }
    }

    // How many are kept.
    fn most(&self, limit: u32) -> u32 {
        if self.squares == 0 {
            limit
        } else {
            self.squares.min(limit)
        }
    }

    /// How many squares the lengths of leaps go by, of an engine that may hold up to a limit.
    pub(crate) fn measure(&self, limit: u32) -> u32 {
        if self.is_cheap {
            self.most(limit)
        } else {
            limit
        }
    }

    /// How many squares the last leap made.
    pub(crate) fn made(&self) -> u32 {
        self.last.made
    }

    /// Whether so many squares are to be given up before a leap of so many generations: as many as the
    /// last one made wouldn't fit twice more.
    pub(crate) fn is_spent(&mut self, squares: u32, count: u64, limit: u32) -> bool {
        let wanted = u64::from(squares) + 2 * u64::from(self.last.made);
        if wanted <= u64::from(self.most(limit)) {
            return false;
        }
        if self.is_cold && count >= self.last.count && wanted <= u64::from(limit) {
            self.is_tried = true;
            return false;
        }
        self.before = Some(self.last);
        true
    }

    /// Notes a leap of a plane.
    pub(crate) fn note(&mut self, plane: &Plane, leap: Leap, limit: u32) {
        if self.squares == 0 {
            self.squares = first_squares(plane, leap.made, limit);
        }
        if self.is_tried && is_useful(self.last, leap) {
            self.squares = limit;
        }
        self.is_tried = false;
        self.is_cold = self.before.is_some();
        if let Some(before) = self.before {
            self.before = None;
            self.learn(before, leap, limit);
        }
        self.last = leap;
    }

    // What a leap shows after squares were given up.
    fn learn(&mut self, before: Leap, leap: Leap, limit: u32) {
        self.is_cheap = !is_dear(before, leap, self.squares / 32);
        if !self.is_cheap {
            self.squares = limit;
            return;
        }
        self.times = self.times.saturating_add(1);
        if self.times >= MANY_TIMES {
            self.times = 0;
            self.squares = self.squares.saturating_mul(2).min(limit);
        }
    }
}
