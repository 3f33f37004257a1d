//! One tree laid on another.
ghost use Rattle.std.specs.Prelude.{◌≡◌, ◌<◌, ◌≤◌, OnOk, OnErr};
ghost use Rattle.square_tree.specs.Quadtree.{quadtree, quadtree_of_four, HasLevel};
ghost use Rattle.square_tree.specs.Over.{over, IsPartlyOver};
ghost use Rattle.square_tree.specs.Laid.{IsAligned, IsLaid, IsPartlyLaid, IsLaidAround, IsPartlyLaidAround};

use crate::tree::{Four, PatchTree, half, side};
use std::alloc::{AllocError, Allocator};

impl<A: Allocator + Clone> PatchTree<A> {
    // Lays the tree of an equal square on this one, so that the other wins.
    #[cycle(cover)]
    fn cover<B: Allocator>(&mut self, alloc: &A, other: &PatchTree<B>) -> Result<(), AllocError>
        ensures ok { OnOk result (quadtree self.new ≡ over (quadtree other.now) (quadtree self.old)) }
        ensures err { OnErr result (IsPartlyOver (quadtree other.now) (quadtree self.old) (quadtree self.new)) }
    {
        match other {
            PatchTree::Keep => Ok(()),
            PatchTree::Cell(state) => {
                *self = PatchTree::Cell(*state);
                Ok(())
            }
            PatchTree::Quad(others) => match self {
                PatchTree::Quad(four) => four.cover(alloc, others),
                _ => {
                    *self = other.copy_to(alloc)?;
                    Ok(())
                }
            },
        }
    }
}

impl<A: Allocator + Clone> Four<A> {
    // Lays the quadrants of an equal square on these.
    #[cycle(cover)]
    fn cover<B: Allocator>(&mut self, alloc: &A, other: &Four<B>) -> Result<(), AllocError>
        ensures ok { OnOk result
            (quadtree_of_four self.new ≡ over (quadtree_of_four other.now) (quadtree_of_four self.old)) }
        ensures err { OnErr result (IsPartlyOver
            (quadtree_of_four other.now) (quadtree_of_four self.old) (quadtree_of_four self.new)) }
    {
        self.nw.cover(alloc, &other.nw)?;
        self.ne.cover(alloc, &other.ne)?;
        self.sw.cover(alloc, &other.sw)?;
        self.se.cover(alloc, &other.se)
    }
}

impl<A: Allocator + Clone> PatchTree<A> {
    // Lays the tree of a smaller square, whose corner in the north-west lies in the column and the
    // row, on that of a square of the level.
    #[cycle(lay)]
    pub(crate) fn lay_at<B: Allocator>(
        &mut self,
        alloc: &A,
        level: u8,
        column: u64,
        row: u64,
        other: &PatchTree<B>,
        other_level: u8,
    ) -> Result<(), AllocError>
        requires level { HasLevel level (quadtree self.old) × (level ≤ 62) }
        requires other { HasLevel other_level (quadtree other.now) }
        requires place { IsAligned level other_level column × IsAligned level other_level row }
        ensures ok { OnOk result (IsLaid level column row other_level
            (quadtree other.now) (quadtree self.old) (quadtree self.new)) }
        ensures err { OnErr result (IsPartlyLaid level column row other_level
            (quadtree other.now) (quadtree self.old) (quadtree self.new)) }
    {
        if let PatchTree::Keep = other {
            return Ok(());
        }
        if level == other_level {
            return self.cover(alloc, other);
        }
        match self {
            PatchTree::Keep => {
                let mut four = Box::new(alloc.clone()?, Four::keeping())?;
                four.lay_at(alloc, level, column, row, other, other_level)?;
                *self = PatchTree::Quad(four);
                Ok(())
            }
            PatchTree::Cell(_) => unreachable!("a square above another is no cell"),
            PatchTree::Quad(four) => four.lay_at(alloc, level, column, row, other, other_level),
        }
    }
}

impl<A: Allocator + Clone> Four<A> {
    // Lays the tree of a smaller square on the square of the level that these divide.
    #[cycle(lay)]
    fn lay_at<B: Allocator>(
        &mut self,
        alloc: &A,
        level: u8,
        column: u64,
        row: u64,
        other: &PatchTree<B>,
        other_level: u8,
    ) -> Result<(), AllocError>
        requires level { HasLevel level (quadtree_of_four self.old) × (level ≤ 62) }
        requires other { HasLevel other_level (quadtree other.now) × (other_level < level) }
        requires place { IsAligned level other_level column × IsAligned level other_level row }
        ensures ok { OnOk result (IsLaid level column row other_level
            (quadtree other.now) (quadtree_of_four self.old) (quadtree_of_four self.new)) }
        ensures err { OnErr result (IsPartlyLaid level column row other_level
            (quadtree other.now) (quadtree_of_four self.old) (quadtree_of_four self.new)) }
    {
        let half = half(level);
        let below = level - 1;
        if row < half {
            if column < half {
                self.nw
                    .lay_at(alloc, below, column, row, other, other_level)
            } else {
                self.ne
                    .lay_at(alloc, below, column - half, row, other, other_level)
            }
        } else if column < half {
            self.sw
                .lay_at(alloc, below, column, row - half, other, other_level)
        } else {
            self.se.lay_at(alloc, below, column - half, row - half, other, other_level)
        }
    }
}

impl<A: Allocator + Clone> PatchTree<A> {
    // Lays the tree of a square around (0, 0) on that of one that is not smaller.
    pub(crate) fn lay<B: Allocator>(
        &mut self,
        alloc: &A,
        level: u8,
        other: &PatchTree<B>,
        other_level: u8,
    ) -> Result<(), AllocError>
        requires level { HasLevel level (quadtree self.old) × (level ≤ 62) }
        requires other { HasLevel other_level (quadtree other.now) × (other_level ≤ level) }
        ensures ok { OnOk result (IsLaidAround level other_level
            (quadtree other.now) (quadtree self.old) (quadtree self.new)) }
        ensures err { OnErr result (IsPartlyLaidAround level other_level
            (quadtree other.now) (quadtree self.old) (quadtree self.new)) }
    {
        match other {
            PatchTree::Keep => Ok(()),
            PatchTree::Cell(_) => {
                let centre = side(level) / 2;
                self.lay_at(alloc, level, centre, centre, other, other_level)
            }
            PatchTree::Quad(four) => self.lay_quadrants(alloc, level, four, other_level),
        }
    }

    // Lays the quadrants of a square around (0, 0) on the tree of one that is not smaller.
    fn lay_quadrants<B: Allocator>(
        &mut self,
        alloc: &A,
        level: u8,
        other: &Four<B>,
        other_level: u8,
    ) -> Result<(), AllocError>
        requires level { HasLevel level (quadtree self.old) × (level ≤ 62) }
        requires other { HasLevel other_level (quadtree_of_four other.now) × (other_level ≤ level) }
        ensures ok { OnOk result (IsLaidAround level other_level
            (quadtree_of_four other.now) (quadtree self.old) (quadtree self.new)) }
        ensures err { OnErr result (IsPartlyLaidAround level other_level
            (quadtree_of_four other.now) (quadtree self.old) (quadtree self.new)) }
    {
        let centre = half(level);
        let near = centre - half(other_level);
        let below = other_level - 1;
        self.lay_at(alloc, level, near, near, &other.nw, below)?;
        self.lay_at(alloc, level, centre, near, &other.ne, below)?;
        self.lay_at(alloc, level, near, centre, &other.sw, below)?;
        self.lay_at(alloc, level, centre, centre, &other.se, below)
    }
}
