//! The walk that numbers the squares of a pattern in the order in which it completes them.
ghost use Rattle.std.specs.Prelude.{◌≡◌, ◌<◌, ◌≤◌, ◌^◌, [], length, OnOk, IfOk};
ghost use Rattle.plane_core.specs.Rows.{AreRows, IsNumber, number_row, number_square, square_in, root_level, root_of};
ghost use Rattle.plane_core.specs.Walks.{Remembers, Walks};

use crate::part::root_level;
use crate::row::SquareRow;
use indexmap::IndexSet;
use std::alloc::{AllocError, Global};

// Room for at most so many completed rows is made before a walk: of rows of which most stand there
// twice, far fewer are completed.
const ROOM: usize = 1 << 24;

// The rows that are completed, and the number that each row that was seen has among them.
#[derive(Drop)]
struct Walk {
    done: IndexSet<SquareRow>,
    numbers: Vec<Option<u32>>,
}

// The number of a row among those that are completed, of which it becomes the last if it is new. It
// is refused where the number would be 2^32, which is beyond the range of numbers.
fn complete(done: &mut IndexSet<SquareRow>, row: SquareRow) -> Result<u32, AllocError>
    requires { length done.old.keys < 2 ^ 32 }
    ensures rows { OnOk result ((number_row row done.old.keys).rows ≡ done.new.keys) }
    ensures number { IfOk result (λ n. (number_row row done.old.keys).number ≡ n) }
    ensures few { OnOk result (length done.new.keys < 2 ^ 32) }
{
    if row.kids == [0; 4] {
        return Ok(0);
    }
    let Ok((place, _)) = done.insert_full(row) else {
        return Err(AllocError);
    };
    if place >= u32::MAX as usize {
        return Err(AllocError);
    }
    Ok(place as u32 + 1)
}

// Completes a square, and gives its number. A row that was seen is not walked again.
fn walk_square(
    rows: &[SquareRow],
    walk: &mut Walk,
    level: u8,
    number: u32,
) -> Result<u32, AllocError>
    requires rows { AreRows rows.now }
    requires number { IsNumber rows.now level number }
    requires remembers { Remembers rows.now walk.old.done.keys walk.old.numbers.items }
    ensures walks { IfOk result
        (Walks level (square_in rows.now level number) walk.old.done.keys walk.new.done.keys) }
    ensures remembers { OnOk result (Remembers rows.now walk.new.done.keys walk.new.numbers.items) }
{
    if level == 0 {
        return Ok(number);
    }
    if number == 0 {
        return Ok(0);
    }
    let place = number as usize - 1;
    if let Some(known) = walk.numbers[place] {
        return Ok(known);
    }
    let kids = rows[place].kids;
    let nw = walk_square(rows, walk, level - 1, kids[0])?;
    let ne = walk_square(rows, walk, level - 1, kids[1])?;
    let sw = walk_square(rows, walk, level - 1, kids[2])?;
    let se = walk_square(rows, walk, level - 1, kids[3])?;
    let row = SquareRow {
        level,
        kids: [nw, ne, sw, se],
    };
    let known = complete(&mut walk.done, row)?;
    walk.numbers[place] = Some(known);
    Ok(known)
}

// The rows of the distinct squares that aren't empty, in the order in which the walk from the root
// completes them. It is refused from the first row that has no number.
pub fn walked(alloc: Global, rows: &[SquareRow]) -> Result<Vec<SquareRow>, AllocError>
    requires rows { AreRows rows.now }
    requires few { length rows.now < 2 ^ 32 }
    ensures rows { IfOk result (λ done.
        (number_square (root_level rows.now) (root_of rows.now) []).rows ≡ done.items) }
    ensures few { IfOk result (λ done. length done.items < 2 ^ 32) }
{
    let mut walk = Walk {
        done: IndexSet::with_capacity(alloc, rows.len().min(ROOM))?,
        numbers: Vec::from_elem(alloc, None, rows.len())?,
    };
    walk_square(rows, &mut walk, root_level(rows), rows.len() as u32)?;
    walk.done.as_slice().to_vec(alloc)
}
