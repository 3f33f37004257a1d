//! Patches.
ghost use Rattle.std.specs.Prelude.{◌≡◌, ℕ, ◌<◌, ◌≤◌, ◌^◌, ◌/◌, ◌++◌, pos, ◌+ℤ◌, OnOk, OnErr, IfOk, IsTrue, ◌↔◌};
ghost use Rattle.square_tree.specs.Cells.{SpansSquare, IsHeld, least, blank, state_at, put, overlaid, IsPartlyOverlaid, row_states, window_states};
ghost use Rattle.square_tree.specs.Quadtree.{quadtree};
ghost use Rattle.square_tree.specs.TreeOf.{IsTreeOf};

use crate::tree::{PatchTree, side};
use std::alloc::{AllocError, Allocator};
use std::marker::Model;

/// Which state some cells of a square have; it keeps the others, which is to say nothing of them.
///
/// The square of the level 0 covers (0, 0) alone, and that of a level k above it the places with
/// `-2^(k-1) <= x, y < 2^(k-1)`. Contracts see a finite map from places to states, in which 0 is
/// a state like the others. Memory comes from the allocator that the patch is made with.
#[derive(Drop)]
pub struct Patch<A: Allocator> {
    level: u8,
    tree: PatchTree<A>,
    alloc: A,
}

impl<A: Allocator> Model for Patch<A> {
    ghost use Rattle.std.specs.Prelude.{◌≤◌};
    ghost use Rattle.square_tree.specs.Cells.{Cells, coded_cells};
    ghost use Rattle.square_tree.specs.Quadtree.{quadtree, HasLevel};
    ghost use Rattle.square_tree.specs.Entries.{cells_of_tree};

    ghost Value = { Cells };

    ghost coded = { coded_cells };

    ghost view = { λ p. cells_of_tree p.level (quadtree p.tree) };

    ghost invariant = { λ p. (p.level ≤ 62) × HasLevel p.level (quadtree p.tree) };
}

// How far a square reaches to the west and to the north of (0, 0).
fn reach(level: u8) -> i64
    requires { level ≤ 62 }
    ensures { result ≡ pos (2 ^ level / 2) }
{
    (side(level) / 2) as i64
}

// Which column or row of the square of the level a coordinate is, counted from the north-west.
fn offset(level: u8, coordinate: i64) -> u64
    requires level { level ≤ 62 }
    requires held { SpansSquare level coordinate 1 }
    ensures place { coordinate ≡ (least level +ℤ pos result) }
    ensures inside { result < 2 ^ level }
{
    (coordinate + reach(level)) as u64
}

// Whether a coordinate lies in the square of the level.
fn spans(level: u8, coordinate: i64) -> bool
    requires { level ≤ 62 }
    ensures { IsTrue result ↔ SpansSquare level coordinate 1 }
{
    let reach = reach(level);
    if coordinate < -reach {
        return false;
    }
    coordinate < side(level) as i64 - reach
}

impl<A: Allocator> Patch<A> {
    /// A patch of the level that keeps all its cells.
    pub fn new(alloc: A, level: u8) -> Patch<A>
        requires { level ≤ 62 }
        ensures { result ≡ blank level }
    {
        Patch {
            level,
            tree: PatchTree::Keep,
            alloc,
        }
    }

    /// Whether (x, y) lies in the patch's square.
    pub fn holds(&self, x: i64, y: i64) -> bool
        ensures { IsTrue result ↔ IsHeld self.now.level x y }
    {
        spans(self.level, x) && spans(self.level, y)
    }

    /// The state of the cell at (x, y), which lies in the square; None where the patch keeps it.
    pub fn get(&self, x: i64, y: i64) -> Option<u8>
        requires { IsHeld self.now.level x y }
        ensures { result ≡ state_at self.now x y }
    {
        self.tree
            .get(self.level, offset(self.level, x), offset(self.level, y))
    }

    /// The level of its square.
    pub fn level(&self) -> u8
        ensures { result ≡ self.now.level }
    {
        self.level
    }

    /// What it says, as the tree of its square: for those who go through its quadrants, as a table
    /// of squares does where a patch is laid on one.
    pub fn tree(&self) -> &PatchTree<A>
        ensures { IsTreeOf self.now self.now.level (quadtree result.now) }
    {
        &self.tree
    }

    /// An equal patch with the memory of `alloc`.
    pub fn copy_to<B: Allocator + Clone>(&self, alloc: B) -> Result<Patch<B>, AllocError>
        ensures { IfOk result (λ patch. patch ≡ self.now) }
    {
        Ok(Patch {
            level: self.level,
            tree: self.tree.copy_to(&alloc)?,
            alloc,
        })
    }
}

impl<A: Allocator + Clone> Patch<A> {
    /// Sets the cell at (x, y), which lies in the square; a refused growth changes nothing.
    pub fn set(&mut self, x: i64, y: i64, state: u8) -> Result<(), AllocError>
        requires { IsHeld self.old.level x y }
        ensures ok { OnOk result (self.new ≡ put self.old x y state) }
        ensures err { OnErr result (self.new ≡ self.old) }
    {
        let column = offset(self.level, x);
        let row = offset(self.level, y);
        self.tree.set(&self.alloc, self.level, column, row, state)
    }

    /// Lays another patch, whose level is not greater, on this one, so that the other wins.
    ///
    /// Where a growth is refused, a part of it may have been laid.
    pub fn lay<B: Allocator>(&mut self, other: &Patch<B>) -> Result<(), AllocError>
        requires { other.now.level ≤ self.old.level }
        ensures ok { OnOk result (self.new ≡ overlaid other.now self.old) }
        ensures err { OnErr result (IsPartlyOverlaid other.now self.old self.new) }
    {
        self.tree
            .lay(&self.alloc, self.level, &other.tree, other.level)
    }

    /// The states of the cells of a rectangle in the square, row by row from the top, and 0 where
    /// the patch keeps a cell.
    pub fn window(
        &self,
        left: i64,
        top: i64,
        width: u32,
        height: u32,
    ) -> Result<Vec<u8, A>, AllocError>
        requires columns { SpansSquare self.now.level left width }
        requires rows { SpansSquare self.now.level top height }
        ensures { IfOk result (λ states. states.items ≡ window_states self.now left top width height) }
    {
        let mut states = Vec::new(self.alloc.clone()?);
        for row in 0..height {
            self.push_row(&mut states, left, top + i64::from(row), width)?;
        }
        Ok(states)
    }

    // Adds the states of the row y, from its column `left` on.
    fn push_row(
        &self,
        states: &mut Vec<u8, A>,
        left: i64,
        y: i64,
        width: u32,
    ) -> Result<(), AllocError>
        requires level { self.now.level ≤ 62 }
        requires columns { SpansSquare self.now.level left width }
        requires row { SpansSquare self.now.level y 1 }
        ensures { OnOk result (states.new.items ≡ states.old.items ++ row_states self.now left y width) }
    {
        for column in 0..width {
            states.push(self.get(left + i64::from(column), y).unwrap_or(0))?;
        }
        Ok(())
    }
}
