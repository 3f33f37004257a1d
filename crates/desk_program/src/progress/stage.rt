//! Where the thread that edits is.

use std::time::{Clock, Duration, Instant};

/// Where the thread that edits is.
#[derive(Clone, Copy)]
pub(crate) enum Stage {
    /// It computes nothing.
    Idle,
    /// It computes for a reply.
    Settling(Settling),
    /// It has ended.
    Over,
}

/// Since when it computes, whether a line stands on standard error, and when the desk was published
/// last since then.
#[derive(Clone, Copy)]
pub(crate) struct Settling {
    pub(crate) since: Instant,
    pub(crate) is_shown: bool,
    pub(crate) published: Option<Instant>,
}

impl Settling {
    // Whether it was less than half a second ago.
    pub(crate) fn was_published_lately<R: Clock>(&self, rt: &R) -> bool {
        let Some(published) = self.published else {
            return false;
        };
        match published.elapsed(rt) {
            Ok(passed) => passed < Duration::from_millis(500),
            Err(_) => false,
        }
    }
}

impl Stage {
    pub(crate) fn is_idle(&self) -> bool {
        matches!(self, Stage::Idle)
    }

    pub(crate) fn is_settling(&self) -> bool {
        matches!(self, Stage::Settling(_))
    }

    pub(crate) fn is_over(&self) -> bool {
        matches!(self, Stage::Over)
    }

    pub(crate) fn is_shown(&self) -> bool {
        match self {
            Stage::Settling(settling) => settling.is_shown,
            _ => false,
        }
    }
}
