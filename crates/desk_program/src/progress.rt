//! How far a settling is, as a line on standard error.
//!
//! A `Screen` is shared by two threads. The one that edits tells it by `begin` that a reply takes
//! computing, and by `end` that it is known. The other, in `watch`, sleeps until a settling begins,
//! and once a second looks at the board that the first publishes to by `Glimpses`, and writes a line
//! over the one before. `end` clears the line, so nothing of it stays where the reply is written behind it. A
//! settling of less than a second shows nothing.
//!
//! The text of the line is proved. That the line is written, when, and that it is cleared is only
//! tested. The thread that edits waits at most for one line that is being written; a look at the
//! board waits for nobody and takes no memory.

mod glimpses;
mod line;
mod opening;
mod screen;
mod stage;
mod watching;

pub use glimpses::Glimpses;
pub use line::Line;
pub use opening::empty_board;
pub use screen::Screen;
pub use watching::watch;
