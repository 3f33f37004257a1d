//! The events of a desk as definitions, and the law that whatever happens a desk is right.
//!
//! A desk is a document, the entry of each number of a job that was given, and what stands for each
//! need: nothing, the number of the job that is out for it, or the value that is known. Round it
//! are the jobs that are queued, those that workers took, and the answers that weren't collected.
//! Edits are asked, jobs are issued, cancelled, taken, worked, dropped and lost, answers come late,
//! again or never, and a step that was computed before is entered once more. The law says of every
//! list of these, in any order: what is known is what starting over gives for the present document.
//!
//! Here is no table of entries, no thread and no code but the names of marks and needs. The crates
//! above show that their calls are events of this law.
#![tactic(auto)]

mod laws;
mod mark;
mod need;
mod touched;

pub use laws::{
    answers_that_are_late, calls_are_events, many_events, whatever_happens_the_desk_is_right,
};
pub use mark::Mark;
pub use need::Need;
pub use touched::Touched;
