//! The stop of an entry, and how often stops saw a flag raised.
ghost use Rattle.std.specs.Prelude.{◌≡◌, ◌+◌};

use crate::count::Count;
use plane_core::Stop;
use std::marker::Model;
use std::sync::atomic::{AtomicBool, Ordering};

/// A stop that reads the flag of an entry. Contracts see how often it said yes, which is how often
/// it saw the flag raised.
#[derive(Drop)]
pub struct EntryStop<'a> {
    flag: &'a AtomicBool,
    yes: Seen,
}

impl<'a> Model for EntryStop<'a> {
    ghost use Rattle.std.specs.Prelude.{ℕ};

    ghost Value = { ℕ };

    ghost view = { λ stop. stop.yes };
}

impl<'a> EntryStop<'a> {
    pub(crate) fn new(flag: &'a AtomicBool) -> EntryStop<'a>
        ensures { result ≡ 0 }
    {
        EntryStop {
            flag,
            yes: Seen::none(),
        }
    }

    /// How often it saw its flag raised.
    pub(crate) fn into_seen(self) -> Seen
        ensures { result ≡ self.entry }
    {
        let EntryStop { flag: _, yes } = self;
        yes
    }
}

impl<'a> Stop for EntryStop<'a> {
    ghost yes_count = { λ stop. stop };

    fn poll(&mut self) -> bool {
        let raised = self.flag.load(Ordering::SeqCst);
        if raised {
            self.yes.raise();
        }
        raised
    }
}

/// How often flags were seen raised, for clauses alone. It rises nowhere but in a stop that has
/// just read its flag as raised: what else holds one can only give it once more, or add what another
/// saw.
#[derive(Drop)]
pub(crate) struct Seen {
    times: Count,
}

impl Model for Seen {
    ghost use Rattle.std.specs.Prelude.{ℕ};

    ghost Value = { ℕ };

    ghost view = { λ seen. seen.times };
}

impl Seen {
    pub(crate) fn none() -> Seen
        ensures { result ≡ 0 }
    {
        Seen {
            times: Count::zero(),
        }
    }

    // Private to this file, where `poll` alone calls it.
    fn raise(&mut self)
        ensures { self.new ≡ self.old + 1 }
    {
        self.times.raise();
    }

    /// What another saw is counted here from now on.
    pub(crate) fn add(&mut self, more: Seen)
        ensures { self.new ≡ self.old + more }
    {
        self.times.add(more.times);
    }

    /// The same once more.
    pub(crate) fn again(&self) -> Seen
        ensures { result ≡ self.now }
    {
        Seen {
            times: self.times.again(),
        }
    }
}
