//! Generations of a grid, by the answers for the blocks that overlap in it.
ghost use Rattle.std.specs.Prelude.{◌≡◌, ◌+◌, ◌*◌, ◌<◌, ◌≤◌, ℕ, IfSome, IfNone, OnSome, slice_index};
ghost use Rattle.hash_life_laws.specs.Result as life;
ghost use Rattle.bit_blocks.specs.Numbers.{eight_of, sixteen_of};
ghost use Rattle.bit_blocks.specs.Answers.{AreRight, Keeps, KeepsRule, unknown_count};
ghost use Rattle.bit_blocks.specs.Grids.{AreLater, IsStepped};

use crate::answers::Answers;
use crate::grid::Grid;
use worlds::Ask;

// The next generation of so many places of a row from the first on. A place gets the middle of the
// block that it has now together with the places right of it, below it and below to the right: so it
// lies a cell further right and down then. A row's column of two squares is read once, as the right
// one of a block and the left one of the next.
#[inline(always)]
fn row_later<Q: Ask>(
    answers: &mut Answers,
    rule: &mut Q,
    grid: &Grid,
    first: usize,
    count: usize,
    next: &mut Grid,
) -> Option<()>
    requires right { AreRight (Q.meaning rule.old) answers.old }
    requires room { first + count < 56 }
    ensures keeps { Keeps Q.meaning Q.state_count Q.asks rule.old rule.new answers.old answers.new }
    ensures later { OnSome result (AreLater (Q.meaning rule.old)
        grid.now.places next.new.places first (first + count)) }
    ensures none { IfNone result (2 < Q.state_count rule.old) }
    ensures before { (k : ℕ) → k < first →
        slice_index next.new.places k ≡ slice_index next.old.places k }
{
    let mut left = grid.column(first);
    for place in first..first + count {
        let right = grid.column(place + 1);
        let two = answers.one_later(rule, left + 16 * right)?;
        next.put(place, two);
        left = right;
    }
    Some(())
}

// The next generation of as many rows and columns of places, made from one more of each. Places
// outside of these are 0.
fn generation_later<Q: Ask>(
    answers: &mut Answers,
    rule: &mut Q,
    grid: &Grid,
    count: usize,
) -> Option<Grid>
    requires right { AreRight (Q.meaning rule.old) answers.old }
    requires room { count ≤ 7 }
    ensures keeps { Keeps Q.meaning Q.state_count Q.asks rule.old rule.new answers.old answers.new }
    ensures later { IfSome result (λ next.
        IsStepped (Q.meaning rule.old) count grid.now.places next.places) }
    ensures none { IfNone result (2 < Q.state_count rule.old) }
{
    let mut next = Grid::empty();
    for row in 0..count {
        row_later(answers, rule, grid, 8 * row, count, &mut next)?;
    }
    Some(next)
}

/// The square of 8 by 8 cells in the middle of one of 16 by 16 four generations later, by its four
/// blocks nw, ne, sw and se. The square has four quadrants in that order, each by its four blocks.
///
/// `None` says that a cell on the way gets a state above 1, and what was asked until then is kept. The
/// rule is asked four times for each block that comes for the first time, and for no other.
pub fn four_later<Q: Ask>(
    answers: &mut Answers,
    rule: &mut Q,
    blocks: &[[u16; 4]; 4],
) -> Option<[u16; 4]>
    requires right { AreRight (Q.meaning rule.old) answers.old }
    ensures right { AreRight (Q.meaning rule.old) answers.new }
    ensures rule { KeepsRule Q.meaning Q.state_count rule.old rule.new }
    ensures later { IfSome result (λ r.
        eight_of r ≡ life.result (Q.meaning rule.old) 2 4 (sixteen_of blocks.now)) }
    ensures none { IfNone result (2 < Q.state_count rule.old) }
    ensures asks { Q.asks rule.new + 4 * unknown_count answers.new
        ≡ Q.asks rule.old + 4 * unknown_count answers.old }
{
    let first = generation_later(answers, rule, &Grid::of(blocks), 7)?;
    let second = generation_later(answers, rule, &first, 6)?;
    let third = generation_later(answers, rule, &second, 5)?;
    let fourth = generation_later(answers, rule, &third, 4)?;
    Some(fourth.eight())
}
