//! The rule of the queue, and what its steps tell.

use crossbeam_channel::protocol::{Join, Lesson, Outcome, Protocol, Split};
use revision_jobs::{Entries, Job};
use std::collections::LinkedList;
use std::marker::{Brand, PhantomData};

/// What names a job: its number, and the index of its place.
#[derive(Clone, Copy, Debug, PartialEq, Eq)]
pub struct Slip {
    pub number: u32,
    pub index: usize,
}

/// What an end knows: whether it sends, the slips that it sent and took, the table of its jobs, for
/// how many takers it stands, and at the sender how many are out. It stands in proofs alone; no
/// value of it is made.
pub struct EndView {
    pub sends: bool,
    pub sent: LinkedList<Slip>,
    pub taken: LinkedList<Slip>,
    pub table: Option<Entries>,
    pub part: u64,
    pub out: u64,
}

/// The rule: what was sent is what the takers took and what the queue holds.
pub struct Balanced;

impl Protocol<Job, EndView> for Balanced {
    ghost use Rattle.job_queue.specs.Balance.{IsBalanced, first_view};

    ghost holds = { IsBalanced };

    ghost first = { first_view };
}

/// Picks the table that the ends of a queue are of, when it is made.
pub trait Naming {
    ghost use Rattle.revision_jobs.specs.declared.entries.Entries.{Entries};

    ghost table: { Entries };
}

impl Naming for Brand {
    ghost use Rattle.job_queue.specs.Tables.{no_table};

    ghost table = { no_table };
}

/// The first split, at which the table gets its name.
pub struct NamesTable<K> {
    of: PhantomData<K>,
}

impl<K: Naming> Split<EndView> for NamesTable<K> {
    ghost use Rattle.job_queue.specs.Balance.{spent_view, with_table};

    ghost left = { with_table K.table };

    ghost right = { λ _. spent_view };
}

/// The split that makes another taker.
pub struct MakesTaker;

impl Split<EndView> for MakesTaker {
    ghost use Rattle.job_queue.specs.Balance.{lending, lent};

    ghost left = { lending };

    ghost right = { lent };
}

/// The join by which a taker comes back to the sender.
pub struct TakesBack;

impl Join<EndView> for TakesBack {
    ghost use Rattle.job_queue.specs.Balance.{spent_view, with_back};

    ghost both = { with_back };

    ghost spent = { spent_view };
}

/// A send puts the job's slip behind what was sent.
pub struct Sends;

impl Outcome<Job, EndView> for Sends {
    ghost use Rattle.std.specs.Prelude.{◌≡◌};
    ghost use Rattle.job_queue.specs.Balance.{with_sent};

    ghost then = { λ v job w. w ≡ with_sent v job };
}

// What the queue holds is among what was sent.
impl Lesson<Job, EndView> for Sends {
    ghost use Rattle.std.specs.Prelude.{map};
    ghost use Rattle.job_queue.specs.Slips.{AreAmong, slip_of};

    ghost fact = { λ v jobs. AreAmong (map slip_of jobs) v.sent };
}

/// A take puts the job's slip behind what this end took.
pub struct Takes;

impl Outcome<Job, EndView> for Takes {
    ghost use Rattle.job_queue.specs.Balance.{IsTaking};

    ghost then = { IsTaking };
}

impl Lesson<Job, EndView> for Takes {
    ghost use Rattle.std.specs.Prelude.{⊤};

    ghost fact = { λ _ _. ⊤ };
}

/// What the sender learns when all takers came back: what was sent is what they took and what the
/// queue holds.
pub struct Settles;

impl Lesson<Job, EndView> for Settles {
    ghost use Rattle.job_queue.specs.Ends.{AddsUp};

    ghost fact = { λ v _. AddsUp v.sent v.taken };
}
