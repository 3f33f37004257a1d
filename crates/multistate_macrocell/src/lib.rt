//! Macrocell files: the plane that a quadtree of squares stands for, and the file of a plane.
//!
//! `read_mc` takes the bytes of a file in Golly's macrocell format and gives exactly the pattern
//! that they mean, or the first fault that they have. The nodes become rows of squares without
//! making their cells, so a file of a few lines may stand for a pattern of very many.
//!
//! `write_mc` writes exactly the text that its definition gives for the plane's world.
//!
//! Reading takes time and memory in proportion to the lines of the file, and writing to those that
//! it writes.
#![tactic(auto)]

mod laws;
mod read;
mod rows;
mod write;

pub use laws::{nodes_show_their_root, written_means_the_same};
pub use macrocell_lines::McFault;
pub use plane_core::Loaded;
pub use read::read_mc;
pub use write::write_mc;
