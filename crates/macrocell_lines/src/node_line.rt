//! Lines that say nodes.
ghost use Rattle.std.specs.Prelude.{◌≡◌, ◌≢◌, ◌<◌, length, IfOk};
ghost use Rattle.macrocell_lines.specs.NodeLines.{check_room, node_of, quartered};
ghost use Rattle.macrocell_lines.specs.Nodes.{Follows};

use crate::bitmap::read_bitmap;
use crate::fault::McFault;
use crate::node::Node;
use crate::numbers::{FiveNumbers, five_numbers};
use crate::quadrants::{leaf_of, square_of};

/// The most nodes that a file may have.
const MOST_NODES: usize = 16_777_216;

/// The highest level that a node may have.
const HIGHEST_LEVEL: u64 = 62;

/// The node that a line of this number says behind these nodes.
///
/// A line that says no node is refused by BadRow, then a level above 62 by TooDeep, then a node
/// beyond 16,777,216 by NoRoom, and then a quadrant that is no earlier node of one level less by
/// BadChild.
pub(crate) fn node_of(line: u64, nodes: &[Node], text: &[u8]) -> Result<Node, McFault>
    ensures node { result ≡ node_of line nodes.now text.now }
    ensures fault { result ≢ Err McFault.NoMemory }
    ensures follows { IfOk result (λ node. Follows nodes.now node) }
    ensures room { IfOk result (λ _. length nodes.now < MOST_NODES) }
{
    match text {
        [b'0'..=b'9', ..] => {
            let said = five_numbers(text).ok_or(McFault::BadRow(line))?;
            quartered(line, nodes, said)
        }
        [b'.' | b'*' | b'$', ..] => {
            let bitmap = read_bitmap(text).ok_or(McFault::BadRow(line))?;
            check_room(nodes)?;
            Ok(Node::Bitmap(bitmap))
        }
        _ => Err(McFault::BadRow(line)),
    }
}

// The node of this level and these quadrants.
fn quartered(line: u64, nodes: &[Node], said: FiveNumbers) -> Result<Node, McFault>
    ensures node { result ≡ quartered line nodes.now said }
    ensures fault { result ≢ Err McFault.NoMemory }
    ensures follows { IfOk result (λ node. Follows nodes.now node) }
    ensures room { IfOk result (λ _. length nodes.now < MOST_NODES) }
{
    match said.level {
        0 => Err(McFault::BadRow(line)),
        1 => {
            let cells = leaf_of(said).ok_or(McFault::BadRow(line))?;
            check_room(nodes)?;
            Ok(cells)
        }
        2..=HIGHEST_LEVEL => {
            check_room(nodes)?;
            square_of(nodes, said.level as u8, said).ok_or(McFault::BadChild(line))
        }
        _ => Err(McFault::TooDeep),
    }
}

// Whether there is room for one more node.
fn check_room(nodes: &[Node]) -> Result<(), McFault>
    ensures checked { result ≡ check_room nodes.now }
    ensures fault { result ≢ Err McFault.NoMemory }
    ensures room { IfOk result (λ _. length nodes.now < MOST_NODES) }
{
    if nodes.len() < MOST_NODES {
        Ok(())
    } else {
        Err(McFault::NoRoom)
    }
}
