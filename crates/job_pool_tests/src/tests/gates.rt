//! Gates of workers.

use super::TURNS;
use revision_jobs::Gate;
use std::sync::atomic::{AtomicBool, AtomicU64, Ordering};
use std::thread;

/// Whether a flag is raised within so many turns.
pub(super) fn is_raised(flag: &AtomicBool) -> bool {
    for _ in 0..TURNS {
        if flag.load(Ordering::SeqCst) {
            return true;
        }
        thread::yield_now();
    }
    false
}

/// Holds job 0 up until job 1 has begun, and notes whether it did in time.
#[derive(Drop)]
pub(super) struct Meeting<'a> {
    pub(super) begun: &'a AtomicBool,
    pub(super) met: &'a AtomicBool,
}

impl<'a> Gate for Meeting<'a> {
    fn begin(&mut self, number: u32) {
        if number == 1 {
            self.begun.store(true, Ordering::SeqCst);
        }
        if number == 0 && is_raised(self.begun) {
            self.met.store(true, Ordering::SeqCst);
        }
    }

    fn end(&mut self, _number: u32) {}
}

/// Holds each job up until so many have begun, and counts those for which so many did in time.
#[derive(Drop)]
pub(super) struct Gathering<'a> {
    pub(super) wanted: u64,
    pub(super) begun: &'a AtomicU64,
    pub(super) met: &'a AtomicU64,
}

impl<'a> Gathering<'a> {
    fn are_there(&self) -> bool {
        for _ in 0..TURNS {
            if self.begun.load(Ordering::SeqCst) >= self.wanted {
                return true;
            }
            thread::yield_now();
        }
        false
    }
}

impl<'a> Gate for Gathering<'a> {
    fn begin(&mut self, _number: u32) {
        self.begun.fetch_add(1, Ordering::SeqCst);
        if self.are_there() {
            self.met.fetch_add(1, Ordering::SeqCst);
        }
    }

    fn end(&mut self, _number: u32) {}
}

/// Holds each job up until the flag is raised.
#[derive(Drop)]
pub(super) struct Waiting<'a> {
    pub(super) flag: &'a AtomicBool,
}

impl<'a> Gate for Waiting<'a> {
    fn begin(&mut self, _number: u32) {
        let _raised = is_raised(self.flag);
    }

    fn end(&mut self, _number: u32) {}
}

/// Counts the jobs that ended.
#[derive(Drop)]
pub(super) struct Counting<'a> {
    pub(super) ended: &'a AtomicU64,
}

impl<'a> Gate for Counting<'a> {
    fn begin(&mut self, _number: u32) {}

    fn end(&mut self, _number: u32) {
        self.ended.fetch_add(1, Ordering::SeqCst);
    }
}
