//! What the two threads share.

use super::stage::{Settling, Stage};
use std::sync::{Condvar, Mutex, MutexGuard, Wait};
use std::time::{Clock, Duration, Instant};

/// How long a settling shows nothing, and how long a line stands.
pub(crate) fn one_second() -> Duration {
    Duration::from_secs(1)
}

/// Where the line stands. Whoever writes there holds its lock, so that no line comes behind a reply.
#[derive(Drop)]
pub struct Screen {
    stage: Mutex<Stage>,
    changed: Condvar,
}

impl Screen {
    /// A screen with no line.
    pub fn new() -> Screen {
        Screen {
            stage: Mutex::new(Stage::Idle),
            changed: Condvar::new(),
        }
    }

    /// A settling begins. Where the clock says no time, it is not shown.
    pub fn begin<R: Wait + Clock>(&self, rt: &R) {
        if let Ok(since) = Instant::now(rt) {
            *self.stage.lock(rt) = Stage::Settling(Settling {
                since,
                is_shown: false,
                published: None,
            });
            self.changed.notify_all();
        }
    }

    /// It ends: the line is cleared.
    pub fn end<R: Wait + Eprint>(&self, rt: &R) {
        let mut stage = self.stage.lock(rt);
        if stage.is_shown() {
            // Where standard error takes nothing, no line stands there.
            let _ = eprint!(rt; "\r\x1b[K");
        }
        *stage = Stage::Idle;
    }

    /// Lets `watch` end.
    pub fn close<R: Wait>(&self, rt: &R) {
        *self.stage.lock(rt) = Stage::Over;
        self.changed.notify_all();
    }

    // Whether a settling goes on whose desk wasn't published for a while. It counts as published then.
    pub(crate) fn is_due<R: Wait + Clock>(&self, rt: &R) -> bool {
        let mut stage = self.stage.lock(rt);
        let Stage::Settling(settling) = *stage else {
            return false;
        };
        if settling.was_published_lately(rt) {
            return false;
        }
        let Ok(now) = Instant::now(rt) else {
            return false;
        };
        *stage = Stage::Settling(Settling {
            published: Some(now),
            ..settling
        });
        true
    }

    // Waits until something is computed, or nothing will be.
    pub(crate) fn wait_for_work<R: Wait>(&self, rt: &R) -> MutexGuard<'_, Stage> {
        self.changed
            .wait_while(rt, self.stage.lock(rt), |stage| stage.is_idle())
    }

    // Waits a second, or until nothing is computed any more.
    pub(crate) fn wait_a_second<'a, R: Wait + Clock>(
        &'a self,
        rt: &R,
        stage: MutexGuard<'a, Stage>,
    ) -> MutexGuard<'a, Stage> {
        self.changed
            .wait_timeout_while(rt, stage, one_second(), |stage| stage.is_settling())
            .0
    }
}
