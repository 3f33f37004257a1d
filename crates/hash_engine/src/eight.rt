//! Results of squares of 8 by 8 cells, without the squares of 4 by 4 between.
//!
//! A soup has more of those than of all others. Their results are kept in a list of limited length, by
//! their quadrants, and a block that isn't in it is put to the rule again: so the table has none of them.
ghost use Rattle.std.specs.Prelude.{◌≡◌, length, IfOk, OnOk, Err};
ghost use Rattle.square_table.specs.Made.{IsFull};
ghost use Rattle.hash_life_laws.specs.Result as life;
ghost use Rattle.hash_engine.specs.Standing.{StandsFor};
ghost use Rattle.hash_engine.specs.Search.{CanCompute, CanSeekBlock, CanSeekBlocks, FindsBlock, FirstHaveResults, KeepsFor, KeepsForBlock, KeepsForBlocks, sought};

use crate::block::Block;
use crate::memo::Memo;
use crate::parts;
use square_table::{SquareTable, TableFault};
use worlds::Ask;

// The result of a block by the rule. Most are remembered, so that this doesn't stand in the loop.
#[inline(never)]
fn put<Q: Ask>(
    table: &mut SquareTable<'_>,
    memo: &mut Memo,
    rule: &mut Q,
    quadrants: [u32; 4],
) -> Result<u32, TableFault>
    requires { CanSeekBlock (Q.meaning rule.old) (Q.state_count rule.old)
        table.old memo.old 1 quadrants }
    ensures keeps { KeepsForBlock Q.meaning Q.state_count rule.old rule.new 1 quadrants
        table.old table.new memo.new }
    ensures found { IfOk result
        (FindsBlock (Q.meaning rule.old) 1 quadrants table.old table.new) }
    ensures full { result ≡ Err TableFault.NoRoom → IsFull table.new }
{
    let result = parts::later_of(table, rule, quadrants)?;
    memo.keep_block(Block { quadrants, result });
    Ok(result)
}

// The result of a block, for no generation or for one.
#[inline(always)]
fn forward<Q: Ask>(
    table: &mut SquareTable<'_>,
    memo: &mut Memo,
    rule: &mut Q,
    ahead: u64,
    quadrants: [u32; 4],
) -> Result<u32, TableFault>
    requires { CanSeekBlock (Q.meaning rule.old) (Q.state_count rule.old)
        table.old memo.old ahead quadrants }
    ensures keeps { KeepsForBlock Q.meaning Q.state_count rule.old rule.new ahead quadrants
        table.old table.new memo.new }
    ensures found { IfOk result
        (FindsBlock (Q.meaning rule.old) ahead quadrants table.old table.new) }
    ensures full { result ≡ Err TableFault.NoRoom → IsFull table.new }
{
    if ahead == 0 {
        return parts::middle_of(table, quadrants);
    }
    if let Some(known) = memo.recall_block(&quadrants) {
        return Ok(known);
    }
    put(table, memo, rule, quadrants)
}

// The results of several.
#[inline(always)]
fn all_forward<Q: Ask>(
    table: &mut SquareTable<'_>,
    memo: &mut Memo,
    rule: &mut Q,
    ahead: u64,
    blocks: &mut [Block],
) -> Result<(), TableFault>
    requires { CanSeekBlocks (Q.meaning rule.old) (Q.state_count rule.old)
        table.old memo.old ahead blocks.old }
    ensures keeps { KeepsForBlocks Q.meaning Q.state_count rule.old rule.new ahead blocks.old
        table.old table.new memo.new }
    ensures found { OnOk result (FirstHaveResults (Q.meaning rule.old) ahead (length blocks.old)
        blocks.old blocks.new table.old table.new) }
    ensures full { result ≡ Err TableFault.NoRoom → IsFull table.new }
{
    for block in blocks.iter_mut() {
        block.result = forward(table, memo, rule, ahead, block.quadrants)?;
    }
    Ok(())
}

/// The result of a square of 8 by 8 cells.
#[inline(never)]
pub(crate) fn eight<Q: Ask>(
    table: &mut SquareTable<'_>,
    memo: &mut Memo,
    rule: &mut Q,
    ahead: u64,
    number: u32,
) -> Result<u32, TableFault>
    requires { CanCompute (Q.meaning rule.old) (Q.state_count rule.old)
        table.old memo.old 1 ahead number }
    ensures keeps { KeepsFor Q.meaning Q.state_count rule.old rule.new 1 ahead number
        table.old table.new memo.new }
    ensures found { IfOk result (λ r. StandsFor table.new.rows 2 r
        (life.result (Q.meaning rule.old) 1 ahead (sought table.old 1 number))) }
    ensures full { result ≡ Err TableFault.NoRoom → IsFull table.new }
{
    let mut nine = parts::nine_blocks(table, number);
    all_forward(table, memo, rule, 1, &mut nine)?;
    let mut fours = parts::four_blocks(&nine);
    all_forward(table, memo, rule, ahead - 1, &mut fours)?;
    table.join_numbers([
        fours[0].result,
        fours[1].result,
        fours[2].result,
        fours[3].result,
    ])
}
