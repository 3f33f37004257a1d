//! Results of squares of 16 by 16 cells four generations later, by look-ups.
//!
//! Where a table begins with the small squares, those that consist of them have the bits of their cells
//! in the numbers of their quadrants' quadrants, and `bit_blocks` finds the result by these alone.
ghost use Rattle.std.specs.Prelude.{◌≡◌, ◌+◌, None, Ok, Err, IfOk, IfSome, true};
ghost use Rattle.square_table.specs.Squares.{IsNumber};
ghost use Rattle.square_table.specs.Made.{IsFull};
ghost use Rattle.hash_engine.specs.Search.{CanCompute, KeepsFor};
ghost use Rattle.hash_engine.specs.Small.{AreBlocksOf, FindsSixteen, IsSixteen, first_four};

use crate::memo::Memo;
use crate::small::FIRST_FOUR;
use square_table::{SquareTable, TableFault};
use worlds::Ask;

// The block of 4 by 4 cells with a number, if it is one of the small squares.
fn block(number: u32) -> Option<u16>
    ensures { IfSome result (λ block. number ≡ first_four + block) }
{
    let place = number.checked_sub(FIRST_FOUR)?;
    u16::try_from(place).ok()
}

// The four blocks of a square of 8 by 8 cells.
#[tactic(auto, unfolding(square_table::specs::Squares::IsNumber))]
fn eight(table: &SquareTable<'_>, number: u32) -> Option<[u16; 4]>
    requires { IsNumber table.now.rows 3 number }
    ensures { IfSome result (AreBlocksOf table.now.rows number) }
{
    let [nw, ne, sw, se] = table.quadrants(number);
    Some([block(nw)?, block(ne)?, block(sw)?, block(se)?])
}

// Those of each quadrant of a square of 16 by 16 cells.
#[tactic(auto, unfolding(square_table::specs::Squares::IsNumber))]
fn blocks(table: &SquareTable<'_>, number: u32) -> Option<[[u16; 4]; 4]>
    requires { IsNumber table.now.rows 4 number }
    ensures { IfSome result (IsSixteen table.now.rows number) }
{
    let [nw, ne, sw, se] = table.quadrants(number);
    Some([
        eight(table, nw)?,
        eight(table, ne)?,
        eight(table, sw)?,
        eight(table, se)?,
    ])
}

/// The result of a square of 16 by 16 cells four generations later, where all its blocks of 4 by 4
/// cells are small squares and no cell on the way has a state above 1.
#[inline(never)]
pub(crate) fn sixteen<Q: Ask>(
    table: &mut SquareTable<'_>,
    memo: &mut Memo,
    rule: &mut Q,
    number: u32,
) -> Result<Option<u32>, TableFault>
    requires compute { CanCompute (Q.meaning rule.old) (Q.state_count rule.old)
        table.old memo.old 2 4 number }
    requires small { memo.old.has_small ≡ true }
    ensures keeps { KeepsFor Q.meaning Q.state_count rule.old rule.new 2 4 number
        table.old table.new memo.new }
    ensures found { IfOk result (λ made.
        IfSome made (FindsSixteen (Q.meaning rule.old) number table.old table.new)) }
    ensures none { result ≡ Ok None → table.new ≡ table.old }
    ensures full { result ≡ Err TableFault.NoRoom → IsFull table.new }
{
    let Some(blocks) = blocks(table, number) else {
        return Ok(None);
    };
    let Some(middle) = memo.later_by_blocks(rule, blocks) else {
        return Ok(None);
    };
    let [nw, ne, sw, se] = middle;
    let made = table.join_numbers([
        FIRST_FOUR + u32::from(nw),
        FIRST_FOUR + u32::from(ne),
        FIRST_FOUR + u32::from(sw),
        FIRST_FOUR + u32::from(se),
    ])?;
    Ok(Some(made))
}
