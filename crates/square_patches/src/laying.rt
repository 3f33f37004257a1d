//! Patches laid on squares of a table.
ghost use Rattle.std.specs.Prelude.{◌≡◌, ◌-◌, ◌<◌, ◌≤◌, IfOk, Err};
ghost use Rattle.square_tree.specs.Quadtree.{quadtree, quadtree_of_four, HasLevel};
ghost use Rattle.square_table.specs.Squares.{IsNumber, AreNumbers, IsHeld, Grows, level_of};
ghost use Rattle.square_table.specs.Made.{IsFull};
ghost use Rattle.square_patches.specs.Laying.{IsLaidOn, IsLaidAs, AreLaidAs, IsLaidInCorner, IsLaidInMiddle, AreLaidInMiddle};

use square_table::{Square, SquareTable, TableFault};
use square_tree::{Four, Patch, PatchTree};
use std::alloc::Allocator;

// Lays the tree of an equal square on the square of a level with a number.
#[tactic(auto, unfolding(square_table::specs::Squares::IsNumber))]
#[cycle(lay)]
fn lay_tree<B: Allocator>(
    table: &mut SquareTable<'_>,
    level: u8,
    number: u32,
    tree: &PatchTree<B>,
) -> Result<u32, TableFault>
    requires number { IsNumber table.old.rows level number }
    requires level { HasLevel level (quadtree tree.now) }
    ensures grows { Grows table.old table.new }
    ensures notes { table.new.notes ≡ table.old.notes }
    ensures laid { IfOk result
        (IsLaidAs (quadtree tree.now) table.old.rows level number table.new.rows) }
    ensures full { result ≡ Err TableFault.NoRoom → IsFull table.new }
{
    match tree {
        PatchTree::Keep => Ok(number),
        PatchTree::Cell(state) => Ok(u32::from(*state)),
        PatchTree::Quad(four) => {
            let kids = lay_four(table, level, table.quadrants(number), four)?;
            table.join_numbers(kids)
        }
    }
}

// Lays the trees of the quadrants of an equal square on those of a square of the level, by their
// numbers.
#[cycle(lay)]
fn lay_four<B: Allocator>(
    table: &mut SquareTable<'_>,
    level: u8,
    kids: [u32; 4],
    four: &Four<B>,
) -> Result<[u32; 4], TableFault>
    requires kids { AreNumbers table.old.rows (level - 1) kids }
    requires level { HasLevel level (quadtree_of_four four.now) }
    ensures grows { Grows table.old table.new }
    ensures notes { table.new.notes ≡ table.old.notes }
    ensures laid { IfOk result (AreLaidAs (quadtree_of_four four.now)
        table.old.rows (level - 1) kids table.new.rows) }
    ensures full { result ≡ Err TableFault.NoRoom → IsFull table.new }
{
    let below = level - 1;
    let nw = lay_tree(table, below, kids[0], &four.nw)?;
    let ne = lay_tree(table, below, kids[1], &four.ne)?;
    let sw = lay_tree(table, below, kids[2], &four.sw)?;
    let se = lay_tree(table, below, kids[3], &four.se)?;
    Ok([nw, ne, sw, se])
}

// Lays the tree of a smaller square, or of an equal one, in a corner of a square: that of the
// quadrant nw, ne, sw or se.
#[tactic(auto, unfolding(square_table::specs::Squares::IsNumber))]
fn lay_corner<B: Allocator>(
    table: &mut SquareTable<'_>,
    level: u8,
    number: u32,
    corner: usize,
    tree: &PatchTree<B>,
    tree_level: u8,
) -> Result<u32, TableFault>
    requires number { IsNumber table.old.rows level number × (corner < 4) }
    requires levels { HasLevel tree_level (quadtree tree.now) × (tree_level ≤ level) }
    ensures grows { Grows table.old table.new }
    ensures notes { table.new.notes ≡ table.old.notes }
    ensures laid { IfOk result
        (IsLaidInCorner corner tree_level (quadtree tree.now) table.old level number table.new) }
    ensures full { result ≡ Err TableFault.NoRoom → IsFull table.new }
{
    if level == tree_level {
        return lay_tree(table, level, number, tree);
    }
    let mut kids = table.quadrants(number);
    kids[corner] = lay_corner(table, level - 1, kids[corner], corner, tree, tree_level)?;
    table.join_numbers(kids)
}

// Lays the trees of the quadrants of a smaller square, or of an equal one, on those of a square of
// the level, each in the corner where these meet.
fn lay_corners<B: Allocator>(
    table: &mut SquareTable<'_>,
    level: u8,
    kids: [u32; 4],
    four: &Four<B>,
    tree_level: u8,
) -> Result<[u32; 4], TableFault>
    requires kids { AreNumbers table.old.rows (level - 1) kids }
    requires levels { HasLevel tree_level (quadtree_of_four four.now) × (tree_level ≤ level) }
    ensures grows { Grows table.old table.new }
    ensures notes { table.new.notes ≡ table.old.notes }
    ensures laid { IfOk result
        (AreLaidInMiddle tree_level (quadtree_of_four four.now) table.old level kids table.new) }
    ensures full { result ≡ Err TableFault.NoRoom → IsFull table.new }
{
    let below = level - 1;
    let tree_below = tree_level - 1;
    let nw = lay_corner(table, below, kids[0], 3, &four.nw, tree_below)?;
    let ne = lay_corner(table, below, kids[1], 2, &four.ne, tree_below)?;
    let sw = lay_corner(table, below, kids[2], 1, &four.sw, tree_below)?;
    let se = lay_corner(table, below, kids[3], 0, &four.se, tree_below)?;
    Ok([nw, ne, sw, se])
}

// Lays the tree of a smaller square, or of an equal one, round the middle of a square.
#[tactic(auto, unfolding(square_table::specs::Squares::IsNumber))]
fn lay_middle<B: Allocator>(
    table: &mut SquareTable<'_>,
    level: u8,
    number: u32,
    tree: &PatchTree<B>,
    tree_level: u8,
) -> Result<u32, TableFault>
    requires number { IsNumber table.old.rows level number }
    requires levels { HasLevel tree_level (quadtree tree.now) × (tree_level ≤ level) }
    ensures grows { Grows table.old table.new }
    ensures notes { table.new.notes ≡ table.old.notes }
    ensures laid { IfOk result
        (IsLaidInMiddle tree_level (quadtree tree.now) table.old level number table.new) }
    ensures full { result ≡ Err TableFault.NoRoom → IsFull table.new }
{
    match tree {
        PatchTree::Keep => Ok(number),
        PatchTree::Cell(state) => {
            if level == 0 {
                return Ok(u32::from(*state));
            }
            let mut kids = table.quadrants(number);
            kids[3] = lay_corner(table, level - 1, kids[3], 0, tree, tree_level)?;
            table.join_numbers(kids)
        }
        PatchTree::Quad(four) => {
            let kids = lay_corners(table, level, table.quadrants(number), four, tree_level)?;
            table.join_numbers(kids)
        }
    }
}

/// The square that has the states of a patch where that says one, and those of another square, of
/// the same level, elsewhere. Both lie round the cell (0, 0), and the patch is not larger.
///
/// It costs a look-up for each divided square of the patch, and up to four for each level of the
/// square above it. NoRoom where a square isn't there yet and the table holds as many as it may;
/// NoMemory where a growth was refused. The squares that a refused call has made stay.
pub fn lay<'a, B: Allocator>(
    table: &mut SquareTable<'a>,
    square: Square<'a>,
    patch: &Patch<B>,
) -> Result<Square<'a>, TableFault>
    requires held { IsHeld table.old square }
    requires level { patch.now.level ≤ level_of square }
    ensures grows { Grows table.old table.new }
    ensures notes { table.new.notes ≡ table.old.notes }
    ensures laid { IfOk result (IsLaidOn patch.now table.old square.entry table.new) }
    ensures full { result ≡ Err TableFault.NoRoom → IsFull table.new }
{
    let number = lay_middle(
        table,
        square.level(),
        square.number(),
        patch.tree(),
        patch.level(),
    )?;
    Ok(table.square(square.level(), number)?)
}
