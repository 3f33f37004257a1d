//! Squares that a line says by their quadrants.
ghost use Rattle.std.specs.Prelude.{◌≡◌, ◌≤◌, List, length, IfSome, IsTrue};
ghost use Rattle.macrocell_lines.specs.declared.node.Node.{Node};
ghost use Rattle.macrocell_lines.specs.Nodes.{Follows, is_child};
ghost use Rattle.macrocell_lines.specs.Quadrants.{leaf_of, child_of, square_of, state_of};

use crate::node::Node;
use crate::numbers::FiveNumbers;

/// The square of level 1 whose quadrants are these states.
pub(crate) fn leaf_of(said: FiveNumbers) -> Option<Node>
    ensures cells { result ≡ leaf_of said }
    ensures follows { IfSome result (λ node. (nodes : List Node) → Follows nodes node) }
{
    Some(Node::Cells {
        nw: state_of(said.nw)?,
        ne: state_of(said.ne)?,
        sw: state_of(said.sw)?,
        se: state_of(said.se)?,
    })
}

// The number as a state, of which the highest is 255.
fn state_of(number: u64) -> Option<u8>
    ensures { result ≡ state_of number }
{
    match number {
        0..=255 => Some(number as u8),
        _ => None,
    }
}

/// The square of this level whose quadrants are these nodes.
pub(crate) fn square_of(nodes: &[Node], level: u8, said: FiveNumbers) -> Option<Node>
    requires few { length nodes.now ≤ 16777216 }
    requires low { 2 ≤ level }
    requires high { level ≤ 62 }
    ensures square { result ≡ square_of nodes.now level said }
    ensures follows { IfSome result (λ node. Follows nodes.now node) }
{
    Some(Node::Square {
        level,
        nw: child_of(nodes, level, said.nw)?,
        ne: child_of(nodes, level, said.ne)?,
        sw: child_of(nodes, level, said.sw)?,
        se: child_of(nodes, level, said.se)?,
    })
}

// The number as that of a quadrant: 0, or an earlier node of one level less.
fn child_of(nodes: &[Node], level: u8, number: u64) -> Option<u32>
    requires { length nodes.now ≤ 16777216 }
    ensures child { result ≡ child_of nodes.now level number }
    ensures is { IfSome result (λ child. IsTrue (is_child nodes.now level child)) }
{
    if number == 0 {
        return Some(0);
    }
    let node = nodes.get((number - 1) as usize)?;
    if u16::from(node.level()) + 1 == u16::from(level) {
        Some(number as u32)
    } else {
        None
    }
}
