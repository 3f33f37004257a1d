//! Results of squares.

ghost use Rattle.std.specs.Prelude.{◌≡◌, IfOk, OnOk, Err};
ghost use Rattle.square_table.specs.Made.{IsFull};
ghost use Rattle.hash_engine.specs.Adding.{GrowsOnWay};
ghost use Rattle.hash_engine.specs.Found.{KeepsRule, CanSearch, IsEnd, IsLater};
ghost use Rattle.hash_engine.specs.Memo.{IsRightMemo};
ghost use Rattle.hash_engine.specs.Search.{CanSeek, CanSeekAll, CanCompute, CanPut, KeepsFor, KeepsForAll, FindsFor, FindsForAll, AsksFor, AsksForAll, MakesFor, MakesForAll};

use crate::eight::eight;
use crate::fault::ResultFault;
use crate::memo::{Memo, full};
use crate::parts;
use crate::sixteen::sixteen;
use square_table::{Square, SquareTable, TableFault};
use worlds::{Ask, Stop};

// The result of a square of level 2, by the rule, which isn't asked for it again.
#[tactic(auto, using(crate::proofs::Standing::above, crate::proofs::Standing::within))]
#[inline(never)]
fn put<Q: Ask>(
    table: &mut SquareTable<'_>,
    memo: &mut Memo,
    rule: &mut Q,
    ahead: u64,
    number: u32,
) -> Result<u32, TableFault>
    requires { CanPut (Q.meaning rule.old) (Q.state_count rule.old)
        table.old memo.old ahead number }
    ensures keeps { KeepsFor Q.meaning Q.state_count rule.old rule.new 0 ahead number
        table.old table.new memo.new }
    ensures found { IfOk result (FindsFor (Q.meaning rule.old) 0 ahead number
        table.old memo.old table.new) }
    ensures asks { OnOk result (AsksFor Q.meaning Q.asks 0 ahead number
        rule.old table.old memo.old rule.new table.new memo.new) }
    ensures made { OnOk result (MakesFor (Q.meaning rule.old) 0 ahead number
        table.old memo.old table.new memo.new) }
    ensures full { result ≡ Err TableFault.NoRoom → IsFull table.new }
{
    let made = parts::later(table, rule, number)?;
    memo.remember(table, 0, ahead, number, made)?;
    Ok(made)
}

/// The result of a square of level k + 2, remembered or not. This is for a search that counts: over a
/// memo that `search` never had, each square on the way is made, and none is put to the rule twice.
// Most are remembered, so that the look-up stands in the loop that asks for several, and what it
// leads to doesn't.
#[tactic(auto, using(crate::proofs::Standing::above, crate::proofs::Standing::within))]
#[cycle(forward)]
#[inline(always)]
pub fn forward<Q: Ask, S: Stop>(
    table: &mut SquareTable<'_>,
    memo: &mut Memo,
    rule: &mut Q,
    stop: &mut S,
    k: u8,
    ahead: u64,
    number: u32,
) -> Result<u32, ResultFault>
    requires { CanSeek (Q.meaning rule.old) (Q.state_count rule.old)
        table.old memo.old k ahead number }
    ensures keeps { KeepsFor Q.meaning Q.state_count rule.old rule.new k ahead number
        table.old table.new memo.new }
    ensures end { IsEnd table.new (S.yes_count stop.old) (S.yes_count stop.new) result }
    ensures found { IfOk result (FindsFor (Q.meaning rule.old) k ahead number
        table.old memo.old table.new) }
    ensures asks { OnOk result (AsksFor Q.meaning Q.asks k ahead number
        rule.old table.old memo.old rule.new table.new memo.new) }
    ensures made { OnOk result (MakesFor (Q.meaning rule.old) k ahead number
        table.old memo.old table.new memo.new) }
{
    if ahead == 0 {
        return Ok(parts::middle(table, number)?);
    }
    if let Some(known) = memo.recall(table, k, ahead, number) {
        return Ok(known);
    }
    if stop.poll() {
        return Err(ResultFault::Stopped);
    }
    if k == 0 {
        return Ok(put(table, memo, rule, ahead, number)?);
    }
    let made = compute(table, memo, rule, stop, k, ahead, number)?;
    memo.remember(table, k, ahead, number, made)?;
    Ok(made)
}

// The result of a square of level k + 2 above level 2, which isn't remembered.
#[cycle(forward)]
#[inline(never)]
fn compute<Q: Ask, S: Stop>(
    table: &mut SquareTable<'_>,
    memo: &mut Memo,
    rule: &mut Q,
    stop: &mut S,
    k: u8,
    ahead: u64,
    number: u32,
) -> Result<u32, ResultFault>
    requires { CanCompute (Q.meaning rule.old) (Q.state_count rule.old)
        table.old memo.old k ahead number }
    ensures keeps { KeepsFor Q.meaning Q.state_count rule.old rule.new k ahead number
        table.old table.new memo.new }
    ensures end { IsEnd table.new (S.yes_count stop.old) (S.yes_count stop.new) result }
    ensures found { IfOk result (FindsFor (Q.meaning rule.old) k ahead number
        table.old memo.old table.new) }
    ensures asks { OnOk result (AsksFor Q.meaning Q.asks k ahead number
        rule.old table.old memo.old rule.new table.new memo.new) }
    ensures made { OnOk result (MakesFor (Q.meaning rule.old) k ahead number
        table.old memo.old table.new memo.new) }
{
    if k == 2 && ahead == 4 && memo.is_lean() && memo.has_small() {
        if let Some(made) = sixteen(table, memo, rule, number)? {
            return Ok(made);
        }
    }
    by_parts(table, memo, rule, stop, k, ahead, number)
}

// The same by the results of smaller squares.
#[cycle(forward)]
#[inline(never)]
fn by_parts<Q: Ask, S: Stop>(
    table: &mut SquareTable<'_>,
    memo: &mut Memo,
    rule: &mut Q,
    stop: &mut S,
    k: u8,
    ahead: u64,
    number: u32,
) -> Result<u32, ResultFault>
    requires { CanCompute (Q.meaning rule.old) (Q.state_count rule.old)
        table.old memo.old k ahead number }
    ensures keeps { KeepsFor Q.meaning Q.state_count rule.old rule.new k ahead number
        table.old table.new memo.new }
    ensures end { IsEnd table.new (S.yes_count stop.old) (S.yes_count stop.new) result }
    ensures found { IfOk result (FindsFor (Q.meaning rule.old) k ahead number
        table.old memo.old table.new) }
    ensures asks { OnOk result (AsksFor Q.meaning Q.asks k ahead number
        rule.old table.old memo.old rule.new table.new memo.new) }
    ensures made { OnOk result (MakesFor (Q.meaning rule.old) k ahead number
        table.old memo.old table.new memo.new) }
{
    let is_lean = memo.is_lean();
    if is_lean && k == 1 {
        return Ok(eight(table, memo, rule, ahead, number)?);
    }
    let first = ahead.min(full(k - 1));
    let mut nine = parts::nine(table, number)?;
    all_forward(table, memo, rule, stop, k - 1, first, &mut nine)?;
    if is_lean && first == ahead {
        return Ok(parts::join_middles(table, nine)?);
    }
    let mut fours = parts::fours(table, nine)?;
    all_forward(table, memo, rule, stop, k - 1, ahead - first, &mut fours)?;
    Ok(table.join_numbers(fours)?)
}

// The results in place of squares of level k + 2: most are remembered, and found here without a
// call.
#[inline(always)]
#[cycle(forward)]
fn all_forward<Q: Ask, S: Stop>(
    table: &mut SquareTable<'_>,
    memo: &mut Memo,
    rule: &mut Q,
    stop: &mut S,
    k: u8,
    ahead: u64,
    numbers: &mut [u32],
) -> Result<(), ResultFault>
    requires { CanSeekAll (Q.meaning rule.old) (Q.state_count rule.old)
        table.old memo.old k ahead numbers.old }
    ensures keeps { KeepsForAll Q.meaning Q.state_count rule.old rule.new k ahead numbers.old
        table.old table.new memo.new }
    ensures end { IsEnd table.new (S.yes_count stop.old) (S.yes_count stop.new) result }
    ensures found { OnOk result (FindsForAll (Q.meaning rule.old) k ahead numbers.old
        table.old memo.old table.new numbers.new) }
    ensures asks { OnOk result (AsksForAll Q.meaning Q.asks k ahead numbers.old
        rule.old table.old memo.old rule.new table.new memo.new) }
    ensures made { OnOk result (MakesForAll (Q.meaning rule.old) k ahead numbers.old
        table.old memo.old table.new memo.new) }
{
    for number in numbers.iter_mut() {
        *number = forward(table, memo, rule, stop, k, ahead, *number)?;
    }
    Ok(())
}

/// The result of a square of level k + 2, which is the square in its middle so many generations
/// later, by what is remembered of the table's squares under the rule.
///
/// What is found on the way is remembered, also where the search is refused or stopped. From then on
/// no square is made that isn't needed for what is found.
pub fn search<'a, Q: Ask, S: Stop>(
    table: &mut SquareTable<'a>,
    memo: &mut Memo,
    rule: &mut Q,
    root: Square<'a>,
    generations: u64,
    stop: &mut S,
) -> Result<Square<'a>, ResultFault>
    requires { CanSearch (Q.meaning rule.old) (Q.state_count rule.old) table.old memo.old root }
    ensures grows { GrowsOnWay (Q.meaning rule.old) generations table.old root.entry table.new }
    ensures rule { KeepsRule Q.meaning Q.state_count rule.old rule.new }
    ensures right { IsRightMemo (Q.meaning rule.old) table.new memo.new }
    ensures square { IfOk result
        (IsLater (Q.meaning rule.old) generations table.old root.entry table.new) }
    ensures end { IsEnd table.new (S.yes_count stop.old) (S.yes_count stop.new) result }
{
    memo.turn_to(generations);
    memo.turn_lean();
    let k = root.level() - 2;
    let number = forward(table, memo, rule, stop, k, generations, root.number())?;
    Ok(table.square(k + 1, number)?)
}
