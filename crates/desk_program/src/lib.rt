//! What the program `desk` does, over any outputs and devices.
//!
//! `start` reads the words, opens a table of entries, a pool of workers over it and a desk, and
//! answers the script, in that order, so that of several faults the first in that order is told. How
//! it ends is an `Ending`, and each ending has one status and one text, which are proved. Where
//! progress is shown, a thread more looks at a board that the run publishes to; what is written to
//! the outputs is proved as it is without. Memory is
//! taken for the words, the table and the pool, and then as the desk says; each worker keeps squares
//! of its own.
#![tactic(auto)]

mod devices;
mod ending;
mod program;
mod progress;
mod shown;
mod typed;

pub use desk_server::RunFault;
pub use desk_words::{OptionFault, given_words};
pub use devices::Devices;
pub use ending::{Ending, report, tell};
pub use program::{Terminals, start};
pub use progress::Line;
pub use typed::greeting;
