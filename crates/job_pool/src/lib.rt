//! A post whose jobs are worked in threads of their own.
//!
//! `pool` starts a worker for each gate, 1 to 8, and calls a body once on a post and an input. What
//! the post takes goes to whichever worker takes it first; the worker works it with the entry's own
//! stop, so that who raises the entry's flag stops it, and sends the answer back through a bounded
//! channel of 32, in which every answer is of the table. When the body returns, the ends of the post
//! are closed and the workers are joined: each goes on until there are no jobs, and drops what
//! nobody waits for.
//!
//! Steps and views go through a queue each, of 16 jobs, and bells call the workers: the first worker
//! has one, and all others have another. The first alone is called for a step, unless another step
//! is out or it may be at a view: so its engine has the squares of the line, which another worker
//! would have to make anew. The others are called for views, and the first too where each of them
//! may have a job. Who has just worked a step of many cells looks for the next one a while before it
//! listens; else a worker that hears a call looks for a view first, unless the call is for a step.
//!
//! A worker keeps an engine, with its squares and their results, from one job to the next as long
//! as the rule stays the same, so so many workers may keep so many times as many squares.
//! Nothing is claimed of the order of answers, of fairness, or that an answer comes.
#![tactic(auto)]

mod answer_rule;
mod answers;
mod bells;
mod crew;
mod fault;
mod inbox;
mod lanes;
mod outbox;
mod post;
mod sent;
mod worker;

pub use crew::pool;
pub use fault::{NoPool, PoolFault};
pub use job_queue::{JobSender, JobTaker, Slip, job_queue};
pub use post::PoolPost;
