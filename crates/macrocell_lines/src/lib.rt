//! Macrocell texts: the quadtree that a file in Golly's macrocell format says, node by node.
//!
//! `read_macrocell` takes the bytes of a file and gives exactly what they say, the rule's name, the
//! generation and the nodes in file order, or the first fault that they have with its line. A node
//! names its quadrants by their numbers, so a square that many others share is kept once, and
//! nothing is made of its cells.
//!
//! Reading goes over the file once, and keeps about twenty bytes for each node.
#![tactic(auto)]

mod bitmap;
mod fault;
mod heading;
mod laws;
mod macrocell;
mod node;
mod node_line;
mod numbers;
mod pieces;
mod quadrants;
mod read;

pub use bitmap::Bitmap;
pub use fault::McFault;
pub use laws::{bitmaps_show_their_lines, written_says_the_same};
pub use macrocell::Macrocell;
pub use node::Node;
pub use read::read_macrocell;
