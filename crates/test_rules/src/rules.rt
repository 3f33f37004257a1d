//! Rules of tables small enough to be followed by hand.
ghost use Rattle.std.specs.Prelude.{◌≡◌, ◌<◌, All};

use worlds::{Around, Next};

// Where `Around` has the neighbours.
const NORTH: usize = 1;

const EAST: usize = 3;

const SOUTH: usize = 5;

const WEST: usize = 7;

/// A cell takes the state that one of the nine places had.
#[derive(Clone, Copy)]
pub struct Copying {
    pub from: usize,
}

impl Next for Copying {
    ghost use Rattle.std.specs.Prelude.{slice_index};
    ghost use Rattle.std.proofs.Common.{arith, inl, inr};
    ghost use Rattle.std.proofs.lemmas.Bool.{cases_lt};
    ghost use Rattle.std.proofs.lemmas.List.{get_or-replicate, get_or_past};
    ghost use Rattle.std.proofs.lemmas.List.Elements.{All-get_or};
    ghost use Rattle.worlds.specs.Step.{nine_zeros};

    ghost state_count = { λ _. 256 };

    ghost meaning = { λ rule states. slice_index states rule.from };

    fn states(&self) -> u16 {
        256
    }

    fn next(&self, around: &Around) -> u8 {
        around.0.get(self.from).copied().unwrap_or(0)
    }

    ghost quiet = { λ rule. elim (cases_lt rule.from 9) [ inl k ↦ get_or-replicate 9 rule.from 0 0 k | inr k ↦ get_or_past nine_zeros rule.from 0 k ] };

    ghost below = { λ rule states h. elim (cases_lt rule.from 9) [ inl k ↦ All-get_or (λ s. s < 256) states rule.from 0 (Prim.omega (arith, k, h.nine)) h.below | inr k ↦ Prim.omega (arith, get_or_past states rule.from 0 (Prim.omega (arith, k, h.nine))) ] };
}

/// The table over two states and the order C, W, E that has the lines 0 1 0 1, 0 0 1 1, 1 0 0 0
/// and 1 1 1 0: a cell becomes live where one of the two lives alone.
#[derive(Clone, Copy)]
pub struct OneOfTwo;

impl Next for OneOfTwo {
    ghost use Rattle.std.specs.Prelude.{slice_index, ◌==◌, if◌then◌else◌, refl};
    ghost use Rattle.std.proofs.Common.{arith};

    ghost state_count = { λ _. 2 };

    ghost meaning = { λ _ states. if slice_index states 7 == slice_index states 3 then 0 else 1 };

    fn states(&self) -> u16 {
        2
    }

    fn next(&self, around: &Around) -> u8 {
        if around.0[WEST] == around.0[EAST] {
            0
        } else {
            1
        }
    }

    ghost quiet = { λ _. refl };

    ghost below = { λ _ states _. Prim.grind arith };
}

/// A live cell stays, and a dead one becomes live where exactly one of its four neighbours lives.
#[derive(Clone, Copy)]
pub struct Star;

impl Next for Star {
    ghost use Rattle.std.specs.Prelude.{slice_index, ◌==◌, ◌+◌, if◌then◌else◌, refl};
    ghost use Rattle.std.proofs.Common.{arith};

    ghost state_count = { λ _. 2 };

    ghost meaning = { λ _ states. if slice_index states 0 == 1 then 1 else (if slice_index states 1 + slice_index states 3 + slice_index states 5 + slice_index states 7 == 1 then 1 else 0) };

    fn states(&self) -> u16 {
        2
    }

    fn next(&self, around: &Around) -> u8 {
        if around.0[0] == 1 {
            return 1;
        }
        let live = u16::from(around.0[NORTH])
            + u16::from(around.0[EAST])
            + u16::from(around.0[SOUTH])
            + u16::from(around.0[WEST]);
        if live == 1 { 1 } else { 0 }
    }

    ghost quiet = { λ _. refl };

    ghost below = { λ _ states _. Prim.grind arith };
}

/// The table over three states in the von Neumann neighbourhood, the same in its four turns, with
/// `var a={1,2}` and the one line `0,a,0,0,0,a`: a dead cell takes the state of its only live neighbour.
#[derive(Clone, Copy)]
pub struct OnlyNeighbour;

impl Next for OnlyNeighbour {
    ghost use Rattle.std.specs.Prelude.{ℕ, ◌<◌, slice_index, ◌==◌, ◌+◌, if◌then◌else◌, refl};
    ghost use Rattle.std.proofs.Common.{arith};
    ghost use Rattle.std.proofs.lemmas.List.Elements.{All-get_or};

    ghost state_count = { λ _. 3 };

    ghost meaning = { λ _ s. if slice_index s 0 == 0 then (if slice_index s 3 + slice_index s 5 + slice_index s 7 == 0 then slice_index s 1 else (if slice_index s 1 + slice_index s 5 + slice_index s 7 == 0 then slice_index s 3 else (if slice_index s 1 + slice_index s 3 + slice_index s 7 == 0 then slice_index s 5 else (if slice_index s 1 + slice_index s 3 + slice_index s 5 == 0 then slice_index s 7 else 0)))) else slice_index s 0 };

    fn states(&self) -> u16 {
        3
    }

    fn next(&self, around: &Around) -> u8 {
        let centre = around.0[0];
        let north = around.0[NORTH];
        let east = around.0[EAST];
        let south = around.0[SOUTH];
        let west = around.0[WEST];
        if centre != 0 {
            return centre;
        }
        if u16::from(east) + u16::from(south) + u16::from(west) == 0 {
            return north;
        }
        if u16::from(north) + u16::from(south) + u16::from(west) == 0 {
            return east;
        }
        if u16::from(north) + u16::from(east) + u16::from(west) == 0 {
            return south;
        }
        if u16::from(north) + u16::from(east) + u16::from(south) == 0 {
            west
        } else {
            0
        }
    }

    ghost quiet = { λ _. refl };

    ghost below = { λ _ states h. let at : (i : ℕ) → i < 9 → slice_index states i < 3 = λ i k. All-get_or (λ s. s < 3) states i 0 (Prim.omega (arith, k, h.nine)) h.below in let c = at 0 (Prim.omega arith) in let n = at 1 (Prim.omega arith) in let e = at 3 (Prim.omega arith) in let s = at 5 (Prim.omega arith) in let w = at 7 (Prim.omega arith) in Prim.grind (arith, c, n, e, s, w) };
}

/// Conway's Life: a cell is born of three live neighbours, and lives on with two or three.
#[derive(Clone, Copy)]
pub struct Life;

impl Next for Life {
    ghost use Rattle.std.specs.Prelude.{slice_index, ◌==◌, ◌+◌, if◌then◌else◌, refl};
    ghost use Rattle.std.proofs.Common.{arith};

    ghost state_count = { λ _. 2 };

    ghost meaning = { λ _ states. if slice_index states 1 + slice_index states 2 + slice_index states 3 + slice_index states 4 + slice_index states 5 + slice_index states 6 + slice_index states 7 + slice_index states 8 == 3 then 1 else (if slice_index states 1 + slice_index states 2 + slice_index states 3 + slice_index states 4 + slice_index states 5 + slice_index states 6 + slice_index states 7 + slice_index states 8 + slice_index states 0 == 3 then 1 else 0) };

    fn states(&self) -> u16 {
        2
    }

    fn next(&self, around: &Around) -> u8 {
        let [c, n, ne, e, se, s, sw, w, nw] = around.0;
        let live = u16::from(n)
            + u16::from(ne)
            + u16::from(e)
            + u16::from(se)
            + u16::from(s)
            + u16::from(sw)
            + u16::from(w)
            + u16::from(nw);
        if live == 3 {
            return 1;
        }
        if live + u16::from(c) == 3 { 1 } else { 0 }
    }

    ghost quiet = { λ _. refl };

    ghost below = { λ _ states _. Prim.grind arith };
}
