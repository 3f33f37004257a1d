//! How many squares a computation had.
ghost use Rattle.std.specs.Prelude.{◌≡◌, ◌≤◌, ◌<◌, ◌+◌, length};
ghost use Rattle.square_table.specs.Squares.{first_number, AreDistinct};
ghost use Rattle.hash_engine.specs.Asked.{is_four, places_put};
ghost use Rattle.counted_engine.specs.Found.{places_of_four};

use square_table::SquareTable;

// Below it numbers are those of cells.
const FIRST_NUMBER: u32 = 256;

/// How many squares of 4 by 4 cells there are, and how many of these were put to the rule.
#[derive(Clone, Copy, Debug)]
pub(crate) struct Counts {
    pub(crate) fours: u32,
    pub(crate) base: u32,
}

// Whether the square with this number has 4 by 4 cells: its quadrants have quadrants that are
// cells.
fn is_four(table: &SquareTable<'_>, number: u32) -> bool
    requires above { first_number ≤ number }
    requires there { number < first_number + length table.now.rows }
    ensures { result ≡ is_four table.now.rows number }
{
    let quadrant = table.quadrants(number)[0];
    if quadrant < FIRST_NUMBER || quadrant - FIRST_NUMBER >= table.len() {
        return false;
    }
    table.quadrants(quadrant)[0] < FIRST_NUMBER
}

/// Goes through the squares of a table once.
pub(crate) fn count_squares(table: &SquareTable<'_>) -> Counts
    ensures put { result.base ≡ length (places_put table.now) }
    ensures base { result.base ≤ result.fours }
    ensures fours { result.fours ≡ length (places_of_four table.now.rows) }
    ensures few { result.fours ≤ length table.now.rows }
    ensures distinct { AreDistinct table.now.rows }
{
    let mut counts = Counts { fours: 0, base: 0 };
    for place in 0..table.len() {
        if is_four(table, FIRST_NUMBER + place) {
            counts.fours += 1;
            if table.noted(FIRST_NUMBER + place) > 0 {
                counts.base += 1;
            }
        }
    }
    counts
}
