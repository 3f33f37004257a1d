//! The tree of a patch: a square is divided into its quadrants only where these differ.
ghost use Rattle.std.specs.Prelude.{◌≡◌, ℕ, ◌<◌, ◌≤◌, ◌^◌, ◌-◌, OnOk, OnErr, IfOk};
ghost use Rattle.square_tree.specs.Quadtree.{keep, quad, quadtree, quadtree_of_four, HasLevel, at};
ghost use Rattle.square_tree.specs.Change.{IsSet};

use std::alloc::{AllocError, Allocator};

/// What a square of some level says of its cells.
#[cycle(tree)]
#[derive(Drop)]
pub enum PatchTree<A: Allocator> {
    /// Nothing.
    Keep,
    /// The state of its one cell; the square has the level 0.
    Cell(u8),
    /// What its quadrants say, of which each has one level less.
    Quad(Box<Four<A>, A>),
}

/// The quadrants of a square.
#[cycle(tree)]
#[derive(Drop)]
pub struct Four<A: Allocator> {
    pub nw: PatchTree<A>,
    pub ne: PatchTree<A>,
    pub sw: PatchTree<A>,
    pub se: PatchTree<A>,
}

// The side of a square.
pub(crate) fn side(level: u8) -> u64
    requires { level ≤ 62 }
    ensures value { result ≡ 2 ^ level }
    ensures fits { result ≤ 2 ^ 62 }
{
    1 << level
}

// The side of the quadrants of a square.
pub(crate) fn half(level: u8) -> u64
    requires { (0 < level) × (level ≤ 62) }
    ensures { result ≡ 2 ^ (level - 1) }
{
    1 << (level - 1)
}

impl<A: Allocator> PatchTree<A> {
    // What a square of the level says of the cell in the column and the row, which are counted
    // from its corner in the north-west.
    pub(crate) fn get(&self, level: u8, column: u64, row: u64) -> Option<u8>
        requires level { HasLevel level (quadtree self.now) × (level ≤ 62) }
        requires inside { (column < 2 ^ level) × (row < 2 ^ level) }
        ensures { result ≡ at (quadtree self.now) level column row }
    {
        match self {
            PatchTree::Keep => None,
            PatchTree::Cell(state) => Some(*state),
            PatchTree::Quad(four) => {
                let half = half(level);
                if row < half {
                    if column < half {
                        four.nw.get(level - 1, column, row)
                    } else {
                        four.ne.get(level - 1, column - half, row)
                    }
                } else if column < half {
                    four.sw.get(level - 1, column, row - half)
                } else {
                    four.se.get(level - 1, column - half, row - half)
                }
            }
        }
    }
}

impl<A: Allocator> Four<A> {
    // The quadrants that say nothing.
    pub(crate) fn keeping() -> Four<A>
        ensures { quadtree_of_four result ≡ quad keep keep keep keep }
    {
        Four {
            nw: PatchTree::Keep,
            ne: PatchTree::Keep,
            sw: PatchTree::Keep,
            se: PatchTree::Keep,
        }
    }
}

impl<A: Allocator + Clone> PatchTree<A> {
    // Sets one cell; a refused growth changes nothing.
    #[cycle(set)]
    pub(crate) fn set(
        &mut self,
        alloc: &A,
        level: u8,
        column: u64,
        row: u64,
        state: u8,
    ) -> Result<(), AllocError>
        requires level { HasLevel level (quadtree self.old) × (level ≤ 62) }
        requires inside { (column < 2 ^ level) × (row < 2 ^ level) }
        ensures ok { OnOk result (IsSet level column row state (quadtree self.old) (quadtree self.new)) }
        ensures err { OnErr result (quadtree self.new ≡ quadtree self.old) }
    {
        match self {
            PatchTree::Keep => *self = PatchTree::alone(alloc, level, column, row, state)?,
            PatchTree::Cell(_) => *self = PatchTree::Cell(state),
            PatchTree::Quad(four) => four.set(alloc, level, column, row, state)?,
        }
        Ok(())
    }

    // The tree that says the state of one cell.
    #[cycle(set)]
    fn alone(
        alloc: &A,
        level: u8,
        column: u64,
        row: u64,
        state: u8,
    ) -> Result<PatchTree<A>, AllocError>
        requires level { level ≤ 62 }
        requires inside { (column < 2 ^ level) × (row < 2 ^ level) }
        ensures { IfOk result (λ tree. IsSet level column row state keep (quadtree tree)) }
    {
        if level == 0 {
            return Ok(PatchTree::Cell(state));
        }
        let mut four = Box::new(alloc.clone()?, Four::keeping())?;
        four.set(alloc, level, column, row, state)?;
        Ok(PatchTree::Quad(four))
    }
}

impl<A: Allocator + Clone> Four<A> {
    // Sets one cell of the square that these divide.
    #[cycle(set)]
    fn set(
        &mut self,
        alloc: &A,
        level: u8,
        column: u64,
        row: u64,
        state: u8,
    ) -> Result<(), AllocError>
        requires level { HasLevel level (quadtree_of_four self.old) × (level ≤ 62) }
        requires inside { (column < 2 ^ level) × (row < 2 ^ level) }
        ensures ok { OnOk result (IsSet level column row state
            (quadtree_of_four self.old) (quadtree_of_four self.new)) }
        ensures err { OnErr result (quadtree_of_four self.new ≡ quadtree_of_four self.old) }
    {
        let half = half(level);
        if row < half {
            if column < half {
                self.nw.set(alloc, level - 1, column, row, state)
            } else {
                self.ne.set(alloc, level - 1, column - half, row, state)
            }
        } else if column < half {
            self.sw.set(alloc, level - 1, column, row - half, state)
        } else {
            self.se
                .set(alloc, level - 1, column - half, row - half, state)
        }
    }
}
