//! The nodes of a quadtree.
ghost use Rattle.std.specs.Prelude.{◌≡◌};
ghost use Rattle.macrocell_lines.specs.Nodes.{level_of};

use crate::bitmap::Bitmap;

/// A square of cells, as a node of the quadtree tells it.
///
/// A square of level k has a side of 2^k cells. Its quadrants are named by the numbers of earlier
/// nodes, counted from 1 in file order, of one level less, and by 0 where they are empty.
#[derive(Clone, Copy, Debug, PartialEq, Eq)]
pub enum Node {
    /// A square of level 1, by the states of its four cells.
    Cells {
        nw: u8,
        ne: u8,
        sw: u8,
        se: u8,
    },
    /// A square of a level from 2 to 62, by the numbers of its quadrants.
    Square {
        level: u8,
        nw: u32,
        ne: u32,
        sw: u32,
        se: u32,
    },
    /// A square of level 3, by its 64 cells of two states.
    Bitmap(Bitmap),
}

impl Node {
    /// The level of the square.
    pub fn level(&self) -> u8
        ensures { result ≡ level_of self.now }
    {
        match self {
            Node::Cells { .. } => 1,
            Node::Square { level, .. } => *level,
            Node::Bitmap(_) => 3,
        }
    }
}
