//! Results, and what was put to the rule on the way.
ghost use Rattle.std.specs.Prelude.{IfOk};
ghost use Rattle.hash_engine.specs.Adding.{GrowsOnWay};
ghost use Rattle.hash_engine.specs.Found.{KeepsRule, CanBeAsked, IsEnd};
ghost use Rattle.counted_engine.specs.Found.{Finds, AsksOnceFor};

use crate::counts::count_squares;
use hash_engine::{Memo, ResultFault, forward};
use plane_core::{Ask, Stop};
use square_table::{Square, SquareTable};
use std::alloc::Global;

/// A result.
#[derive(Clone, Copy, Debug)]
pub struct CountedResult<'a> {
    /// The square.
    pub square: Square<'a>,
    /// How many squares of 4 by 4 cells the table has.
    pub fours: u32,
    /// How many of these were put to the rule.
    pub base: u32,
}

/// The result of a square of level k + 2, which is the square in its middle so many generations
/// later.
pub fn result<'a, Q: Ask, S: Stop>(
    alloc: Global,
    table: &mut SquareTable<'a>,
    rule: &mut Q,
    root: Square<'a>,
    generations: u64,
    stop: &mut S,
) -> Result<CountedResult<'a>, ResultFault>
    requires { CanBeAsked (Q.state_count rule.old) table.old root }
    ensures grows { GrowsOnWay (Q.meaning rule.old) generations table.old root.entry table.new }
    ensures rule { KeepsRule Q.meaning Q.state_count rule.old rule.new }
    ensures found { IfOk result
        (Finds (Q.meaning rule.old) generations table.old root.entry table.new) }
    ensures once { IfOk result
        (AsksOnceFor Q.meaning Q.asks rule.old rule.new generations table.old root.entry) }
    ensures end { IsEnd table.new (S.yes_count stop.old) (S.yes_count stop.new) result }
{
    let k = root.level() - 2;
    let mut memo = Memo::nothing(alloc);
    table.forget_notes();
    memo.turn_to(generations);
    let number = forward(table, &mut memo, rule, stop, k, generations, root.number())?;
    let counts = count_squares(table);
    Ok(CountedResult {
        square: table.square(k + 1, number)?,
        fours: counts.fours,
        base: counts.base,
    })
}
