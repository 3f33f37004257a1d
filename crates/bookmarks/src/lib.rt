//! Views of a pattern, and the texts that they show.
//!
//! `render` writes exactly the text that the view's definition gives for the plane's world. For a
//! window it finds the live cells of the rectangle by one walk, and reads them off a patch; any
//! other view takes one pass over the live cells, or over the distinct squares, and one over the
//! text.
#![tactic(auto)]

mod counts;
mod pattern;
mod text;
mod view;
mod window;

pub use text::render;
pub use view::View;
