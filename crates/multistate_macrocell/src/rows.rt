//! The rows of squares that nodes become.
ghost use Rattle.std.specs.Prelude.{◌≡◌, ◌+◌, ◌≤◌, ◌^◌, IfOk};
ghost use Rattle.macrocell_lines.specs.Nodes.{AreNodes, level_of};
ghost use Rattle.plane_core.specs.Rows.{AreRows, IsRow, world_of_rows};
ghost use Rattle.multistate_macrocell.specs.Quadtree.{drawn, world_of_nodes};
ghost use Rattle.multistate_macrocell.specs.Tables.{Adds, CanFollow, square_by, square_of_row};

use macrocell_lines::{Bitmap, Node};
use plane_core::SquareRow;
use std::alloc::{AllocError, Global};

/// The rows that stand for the world of these nodes.
pub(crate) fn rows_of(alloc: Global, nodes: &[Node]) -> Result<Vec<SquareRow>, AllocError>
    requires { AreNodes nodes.now }
    ensures rows { IfOk result (λ rows. AreRows rows.items) }
    ensures world { IfOk result (λ rows. world_of_rows rows.items ≡ world_of_nodes nodes.now) }
{
    let mut rows = Vec::new(alloc);
    let mut numbers = Vec::new(alloc);
    numbers.push(0)?;
    for node in nodes {
        let number = push_node(&mut rows, &numbers, *node)?;
        numbers.push(number)?;
    }
    Ok(rows)
}

// Adds the row of a node, or the rows of a bitmap, and gives the number of the row.
fn push_node(rows: &mut Vec<SquareRow>, numbers: &[u32], node: Node) -> Result<u32, AllocError>
    requires rows { AreRows rows.old.items }
    requires node { CanFollow rows.old.items numbers.now node }
    ensures { IfOk result (λ n. Adds rows.old.items rows.new.items (level_of node) n
        (square_by rows.old.items numbers.now node)) }
{
    match node {
        Node::Cells { nw, ne, sw, se } => {
            let kids = [u32::from(nw), u32::from(ne), u32::from(sw), u32::from(se)];
            push_row(rows, SquareRow { level: 1, kids })
        }
        Node::Square {
            level,
            nw,
            ne,
            sw,
            se,
        } => {
            let kids = [
                numbers[nw as usize],
                numbers[ne as usize],
                numbers[sw as usize],
                numbers[se as usize],
            ];
            push_row(rows, SquareRow { level, kids })
        }
        Node::Bitmap(bitmap) => push_bitmap(rows, bitmap, 3, 0, 0),
    }
}

// Adds the rows of the square of this level of a bitmap's cells, of which the upper left one is at
// this column and this row, and gives its number.
fn push_bitmap(
    rows: &mut Vec<SquareRow>,
    bitmap: Bitmap,
    level: u8,
    x: usize,
    y: usize,
) -> Result<u32, AllocError>
    requires rows { AreRows rows.old.items }
    requires level { level ≤ 3 }
    requires column { x + 2 ^ level ≤ 8 }
    requires row { y + 2 ^ level ≤ 8 }
    ensures { IfOk result (λ n. Adds rows.old.items rows.new.items level n
        (drawn bitmap level x y)) }
{
    if level == 0 {
        return Ok(u32::from(bitmap.is_live(x, y)));
    }
    let half = side(level - 1);
    let nw = push_bitmap(rows, bitmap, level - 1, x, y)?;
    let ne = push_bitmap(rows, bitmap, level - 1, x + half, y)?;
    let sw = push_bitmap(rows, bitmap, level - 1, x, y + half)?;
    let se = push_bitmap(rows, bitmap, level - 1, x + half, y + half)?;
    let kids = [nw, ne, sw, se];
    push_row(rows, SquareRow { level, kids })
}

// The side of a square of this level, of at most that of a bitmap.
fn side(level: u8) -> usize
    requires { level ≤ 3 }
    ensures value { result ≡ 2 ^ level }
    ensures small { result ≤ 8 }
{
    1usize << level
}

// Adds a row, and gives its number.
fn push_row(rows: &mut Vec<SquareRow>, row: SquareRow) -> Result<u32, AllocError>
    requires rows { AreRows rows.old.items }
    requires row { IsRow rows.old.items row }
    ensures { IfOk result (λ n. Adds rows.old.items rows.new.items row.level n
        (square_of_row rows.old.items row)) }
{
    if rows.len() >= u32::MAX as usize {
        return Err(AllocError);
    }
    rows.push(row)?;
    Ok(rows.len() as u32)
}
