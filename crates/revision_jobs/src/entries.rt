//! The table of entries, and places in it.
ghost use Rattle.std.specs.Prelude.{◌≡◌, ◌↔◌, IfOk, IsTrue};
ghost use Rattle.revision_jobs.specs.Entries.{IsOf, entry_of, index_of};
ghost use Rattle.revision_jobs.specs.Value.{CanBeWorked};

use crate::entry::Entry;
use crate::stop::EntryStop;
use boxcar::tag::Tag;
use boxcar::{Keeps, Pushed};
use std::alloc::{AllocError, Global};
use std::sync::Wait;
use std::sync::atomic::{AtomicBool, Ordering};

/// An entry, with the flag that asks whoever works it to stop.
pub struct Slot {
    entry: Entry,
    stop: AtomicBool,
}

// Written out, as a derived one is proved again in each crate above.
impl Drop for Slot {
    fn drop(self) {
        let Slot { entry: _, stop: _ } = self;
    }
}

/// Every entry of a table can be worked.
pub struct Workable;

impl Keeps<Slot> for Workable {
    ghost use Rattle.revision_jobs.specs.Value.{CanBeWorked};

    ghost holds = { λ _ _ slot. CanBeWorked slot.entry };
}

/// A table of entries. It only grows, and threads that share it push and read without a lock.
pub struct Entries {
    slots: boxcar::Vec<Slot, Global, Workable>,
}

// Written out, as a derived one is proved again in each crate above.
impl Drop for Entries {
    fn drop(self) {
        let Entries { slots: _ } = self;
    }
}

/// Where an entry stands in a table. It shows that entry for good.
pub struct Place {
    token: Pushed<Slot, Global, Workable>,
}

// Written out, as a derived one is proved again in each crate above.
impl Drop for Place {
    fn drop(self) {
        let Place { token: _ } = self;
    }
}

impl Entries {
    /// A table without entries.
    pub fn new(alloc: Global) -> Result<Entries, AllocError> {
        Ok(Entries {
            slots: boxcar::Vec::with_rule(alloc, Tag::empty())?,
        })
    }

    /// Stores an entry that can be worked. Where a growth is refused the entry is given up. It may
    /// wait for another thread that pushes.
    pub fn push(&self, rt: &impl Wait, entry: Entry) -> Result<Place, AllocError>
        requires { CanBeWorked entry }
        ensures own { IfOk result (λ place. IsOf self.now place) }
        ensures entry { IfOk result (λ place. entry_of place ≡ entry) }
    {
        let slot = Slot {
            entry,
            stop: AtomicBool::new(false),
        };
        match self.slots.push_shown(rt, slot) {
            Ok(token) => Ok(Place { token }),
            Err(_) => Err(AllocError),
        }
    }

    fn slot<'a>(&'a self, place: &Place) -> &'a Slot
        requires { IsOf self.now place.now }
        ensures entry { result.now.entry ≡ entry_of place.now }
        ensures workable { CanBeWorked result.now.entry }
    {
        let Some(slot) = self.slots.get_seen(place.token.index(), &place.token) else {
            unreachable!()
        };
        slot
    }

    /// The entry at a place of this table.
    pub fn at<'a>(&'a self, place: &Place) -> &'a Entry
        requires { IsOf self.now place.now }
        ensures entry { result.now ≡ entry_of place.now }
        ensures workable { CanBeWorked result.now }
    {
        &self.slot(place).entry
    }

    /// Raises the flag that asks whoever works the entry to stop.
    pub fn raise(&self, place: &Place)
        requires { IsOf self.now place.now }
    {
        self.slot(place).stop.store(true, Ordering::SeqCst);
    }

    /// A stop that reads the entry's flag. It has said no yes so far.
    pub fn stop<'a>(&'a self, place: &Place) -> EntryStop<'a>
        requires { IsOf self.now place.now }
        ensures { result ≡ 0 }
    {
        EntryStop::new(&self.slot(place).stop)
    }

    /// Whether two places of this table are one. Then they show equal entries.
    pub fn same(&self, a: &Place, b: &Place) -> bool
        requires { IsOf self.now a.now × IsOf self.now b.now }
        ensures index { IsTrue result ↔ (index_of a.now ≡ index_of b.now) }
        ensures entry { IsTrue result → entry_of a.now ≡ entry_of b.now }
    {
        if a.token.index() != b.token.index() {
            return false;
        }
        self.slots.agrees(&a.token, &b.token);
        true
    }
}

impl Place {
    /// The same place once more.
    pub fn share(&self) -> Place
        ensures { result ≡ self.now }
    {
        Place {
            token: self.token.again(),
        }
    }
}
