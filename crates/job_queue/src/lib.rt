//! The queue of jobs: one sender, and from one to eight takers in threads of their own.
//!
//! It is a bounded channel of 16 jobs under a rule that every step keeps. A job's slip is its number
//! with its place's index. Each slip stands in the queue and in the lists of what the takers took
//! together as often as in the list of what was sent, whose numbers rise. So no job is taken twice,
//! none under another's place, and none is swallowed by a take. Every job is of the table that the
//! queue was made for. Takers may come back to the sender; once all have, it settles: what they took
//! is, together with what waits still, what was sent, each job once.
//!
//! An offer and a take cost a few steps on one slot. A take that finds nothing sleeps.
#![tactic(auto)]

mod queue;
mod rule;
mod sender;
mod taker;

pub use queue::job_queue;
pub use rule::{Naming, Slip};
pub use sender::JobSender;
pub use taker::JobTaker;
