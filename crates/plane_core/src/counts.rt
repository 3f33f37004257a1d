//! How many cells have each state, in one pass over the rows.
//!
//! The square of a row stands in the pattern as often as those that have it as a quadrant do, all
//! together. So the rows are gone over from the root down, each behind all that name it.
ghost use Rattle.std.specs.Prelude.{◌<◌, ◌≤◌, ◌^◌, length, IfOk};
ghost use Rattle.plane_core.specs.Rows.{AreRows, IsNumber, square_in, world_of_rows};
ghost use Rattle.plane_core.specs.Counts.{Gains, HasRoom, row_square};
ghost use Rattle.plane_core.specs.Measured.{AreCountsOf, IsLastCounted};

use crate::part::root_level;
use crate::row::SquareRow;
use std::alloc::{AllocError, Global};

// How many cells of each state are counted, and how often the square of each of the first rows
// stands in what isn't counted yet.
#[derive(Drop)]
struct Tally {
    counts: [u128; 256],
    times: Vec<u128>,
}

// Adds a square that stands so often: its cell, or its row. An empty one is passed over.
fn add_square(rows: &[SquareRow], tally: &mut Tally, level: u8, number: u32, times: u128)
    requires number { IsNumber rows.now level number }
    requires listed { 1 ≤ level → number ≤ length tally.old.times.items }
    requires room { HasRoom rows.now tally.old times (square_in rows.now level number) }
    ensures { Gains rows.now tally.old tally.new times (square_in rows.now level number) }
{
    if number == 0 {
        return;
    }
    if level == 0 {
        tally.counts[number as usize] += times;
    } else {
        tally.times[number as usize - 1] += times;
    }
}

// Adds the quadrants of the row behind those that are left, which stands so often.
fn add_quadrants(rows: &[SquareRow], tally: &mut Tally, times: u128)
    requires rows { AreRows rows.now }
    requires more { length tally.old.times.items < length rows.now }
    requires room { HasRoom rows.now tally.old times
        (row_square rows.now (length tally.old.times.items)) }
    ensures { Gains rows.now tally.old tally.new times
        (row_square rows.now (length tally.old.times.items)) }
{
    let row = rows[tally.times.len()];
    let level = row.level - 1;
    for q in 0..4 {
        add_square(rows, tally, level, row.kids[q], times);
    }
}

/// How many live cells of the pattern that rows stand for have each state.
pub fn counts(alloc: Global, rows: &[SquareRow]) -> Result<[u128; 256], AllocError>
    requires rows { AreRows rows.now }
    requires few { length rows.now < 2 ^ 32 }
    ensures { IfOk result (AreCountsOf (world_of_rows rows.now)) }
{
    let mut tally = Tally {
        counts: [0; 256],
        times: Vec::from_elem(alloc, 0, rows.len())?,
    };
    add_square(rows, &mut tally, root_level(rows), rows.len() as u32, 1);
    while let Some(times) = tally.times.pop() {
        add_quadrants(rows, &mut tally, times);
    }
    Ok(tally.counts)
}

/// The last state that is counted, 0 where none behind it is.
pub fn greatest_counted(counts: &[u128; 256]) -> u8
    ensures { IsLastCounted counts.now result }
{
    let mut state = u8::MAX;
    while state > 0 && counts[state as usize] == 0 {
        state -= 1;
    }
    state
}
