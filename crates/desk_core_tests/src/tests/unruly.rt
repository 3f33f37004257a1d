//! A post that loses, repeats, delays and reorders answers, as a list says.
ghost use Rattle.std.specs.Prelude.{◌≡◌, IfSome};
ghost use Rattle.revision_jobs.specs.Posted.{IsOwnAnswer};

use desk_core::{Entries, Job, NoGate, Post, Received, Sent, work};
use revision_jobs::{PostRecord, Worked};
use std::alloc::Global;
use std::marker::Model;

/// What the post does where it is asked for an answer.
#[derive(Clone, Copy, Debug)]
pub(super) enum Deed {
    /// It gives none.
    Waits,
    /// It answers the job in its first place, or else the one in its second.
    First,
    /// It answers the job in its second place, or else the one in its first.
    Second,
    /// It loses the answer that `First` would give.
    Loses,
    /// It gives once more the answer that it gave last.
    Again,
}

/// A post that holds two jobs, and does what its list says, from its front on. Behind the list it
/// answers what it holds.
#[derive(Drop)]
pub(super) struct Unruly<'a> {
    entries: &'a Entries,
    first: Option<Job>,
    second: Option<Job>,
    last: Option<Worked>,
    deeds: &'static [Deed],
    floor: u64,
    history: PostRecord,
    squares: u32,
    alloc: Global,
}

impl<'a> Model for Unruly<'a> {
    ghost use Rattle.std.specs.Coded.{codes};
    ghost use Rattle.std.specs.Prelude.{IfSome, None, false};
    ghost use Rattle.worlds.specs.World.{coded_world};
    ghost use Rattle.revision_jobs.specs.Inline.{IsHeldOf};
    ghost use Rattle.revision_jobs.specs.Posted.{IsOwnAnswer, PostView};

    ghost Value = { PostView };

    ghost coded = { Prim.hlevel (codes, coded_world) };

    ghost view = { λ u. record {
      table = u.entries.now;
      limit = u.squares;
      floor = u.floor;
      answers = u.history.answers;
      is_prompt = false;
      held = None;
      asked = u.history.asked;
      stops = u.history.stops;
      is_over = u.history.is_over;
    } };

    ghost invariant = { λ u. IsHeldOf u.entries.now u.first × IsHeldOf u.entries.now u.second
        × IfSome u.last (IsOwnAnswer u.entries.now u.squares) };
}

impl<'a> Unruly<'a> {
    /// A post without jobs.
    pub(super) fn new(
        alloc: Global,
        entries: &'a Entries,
        squares: u32,
        deeds: &'static [Deed],
    ) -> Unruly<'a>
        ensures { (result.table ≡ entries.now) × (result.floor ≡ 0) }
    {
        Unruly {
            entries,
            first: None,
            second: None,
            last: None,
            deeds,
            floor: 0,
            history: PostRecord::none(),
            squares,
            alloc,
        }
    }

    // The next of the list.
    fn deed(&mut self) -> Deed
        ensures { self.new ≡ self.old }
    {
        match self.deeds.split_first() {
            Some((deed, rest)) => {
                self.deeds = rest;
                *deed
            }
            None => Deed::First,
        }
    }

    // The answer to the job in its first place, or in its second, as is asked for, or else to the
    // other.
    fn answers(&mut self, is_first: bool) -> Option<Worked>
        ensures kept { self.new ≡ self.old }
        ensures own { IfSome result (IsOwnAnswer self.old.table self.old.limit) }
    {
        let taken = if self.second.is_none() || (is_first && self.first.is_some()) {
            self.first.take()
        } else {
            self.second.take()
        };
        let job = taken?;
        let mut stop = self.entries.stop(&job.place);
        let answer = work(
            self.alloc,
            job,
            self.entries,
            &mut NoGate,
            &mut stop,
            self.squares,
        );
        Some(Worked::by(answer, stop))
    }

    fn does(&mut self, deed: Deed) -> Option<Worked>
        ensures kept { self.new ≡ self.old }
        ensures own { IfSome result (IsOwnAnswer self.old.table self.old.limit) }
    {
        match deed {
            Deed::Waits => None,
            Deed::First => self.answers(true),
            Deed::Second => self.answers(false),
            Deed::Loses => {
                let _lost = self.answers(true);
                None
            }
            Deed::Again => self.last.take(),
        }
    }
}

impl<'a> Post for Unruly<'a> {
    ghost view = { λ post. post };

    fn send(&mut self, job: Job) -> Sent {
        let floor = u64::from(job.number) + 1;
        let sent = if self.first.is_none() {
            self.first = Some(job);
            Sent::Taken
        } else if self.second.is_none() {
            self.second = Some(job);
            Sent::Taken
        } else {
            Sent::Full(job)
        };
        if let Sent::Taken = sent {
            self.floor = floor;
        }
        self.history.note_sent(&sent);
        sent
    }

    fn receive(&mut self) -> Received {
        let deed = self.deed();
        let Some(worked) = self.does(deed) else {
            self.history.note_received(&Received::Nothing);
            return Received::Nothing;
        };
        self.last = worked.again().ok();
        self.history.note_worked(worked)
    }

    fn try_receive(&mut self) -> Received {
        self.receive()
    }

    fn floor(&self) -> u64 {
        self.floor
    }
}
