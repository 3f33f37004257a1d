//! Posts that aren't prompt: they swallow jobs, close, answer twice, or answer the last job first.
ghost use Rattle.std.specs.Prelude.{◌≡◌, ◌≤◌};

use desk_server::{Entries, InlinePost, Post};
use revision_jobs::{Job, NoGate, PostRecord, Received, Sent, Worked, work};
use std::alloc::Global;
use std::marker::Model;

// Takes every job and answers none. It has ended, or there is no answer now.
#[derive(Drop)]
pub struct Swallows<'a> {
    pub entries: &'a Entries,
    pub floor: u64,
    pub ended: bool,
    pub history: PostRecord,
}

impl<'a> Post for Swallows<'a> {
    ghost use Rattle.std.specs.Prelude.{None, false};

    ghost view = { λ post. record {
      table = post.entries.now;
      limit = 0;
      floor = post.floor;
      answers = post.history.answers;
      is_prompt = false;
      held = None;
      asked = post.history.asked;
      stops = post.history.stops;
      is_over = post.history.is_over;
    } };

    fn send(&mut self, job: Job) -> Sent {
        self.floor = u64::from(job.number) + 1;
        self.history.note_sent(&Sent::Taken);
        Sent::Taken
    }

    fn receive(&mut self) -> Received {
        let received = if self.ended {
            Received::Ended
        } else {
            Received::Nothing
        };
        self.history.note_received(&received);
        received
    }

    fn try_receive(&mut self) -> Received {
        self.receive()
    }

    fn floor(&self) -> u64 {
        self.floor
    }
}

// Takes so many jobs more, and then is closed.
#[derive(Drop)]
pub struct Closes<'a> {
    pub inner: InlinePost<'a>,
    pub left: u32,
    pub history: PostRecord,
}

impl<'a> Post for Closes<'a> {
    ghost use Rattle.std.specs.Prelude.{None, false};

    ghost view = { λ post. record {
      table = post.inner.table;
      limit = post.inner.limit;
      floor = post.inner.floor;
      answers = post.history.answers;
      is_prompt = false;
      held = None;
      asked = post.history.asked;
      stops = post.inner.stops;
      is_over = post.history.is_over;
    } };

    fn send(&mut self, job: Job) -> Sent {
        if self.left == 0 {
            let sent = Sent::Closed(job);
            self.history.note_sent(&sent);
            return sent;
        }
        let sent = self.inner.send(job);
        self.history.note_sent(&sent);
        if let Sent::Taken = sent {
            self.left -= 1;
        }
        sent
    }

    fn receive(&mut self) -> Received {
        let received = self.inner.receive();
        self.history.note_received(&received);
        received
    }

    fn try_receive(&mut self) -> Received {
        self.receive()
    }

    fn floor(&self) -> u64 {
        self.inner.floor()
    }
}

// Gives each answer twice.
#[derive(Drop)]
pub struct Repeats<'a> {
    entries: &'a Entries,
    floor: u64,
    held: Option<Job>,
    again: Option<Worked>,
    history: PostRecord,
    squares: u32,
    alloc: Global,
}

impl<'a> Model for Repeats<'a> {
    ghost use Rattle.std.specs.Coded.{codes};
    ghost use Rattle.std.specs.Prelude.{IfSome, None, false};
    ghost use Rattle.worlds.specs.World.{coded_world};
    ghost use Rattle.revision_jobs.specs.Inline.{IsHeldOf};
    ghost use Rattle.revision_jobs.specs.Posted.{IsOwnAnswer, PostView};

    ghost Value = { PostView };

    ghost coded = { Prim.hlevel (codes, coded_world) };

    ghost view = { λ post. record {
      table = post.entries.now;
      limit = post.squares;
      floor = post.floor;
      answers = post.history.answers;
      is_prompt = false;
      held = None;
      asked = post.history.asked;
      stops = post.history.stops;
      is_over = post.history.is_over;
    } };

    ghost invariant = { λ post. IsHeldOf post.entries.now post.held
        × IfSome post.again (IsOwnAnswer post.entries.now post.squares) };
}

impl<'a> Repeats<'a> {
    // A post without jobs.
    pub fn new(alloc: Global, entries: &'a Entries, squares: u32) -> Repeats<'a>
        ensures { (result.table ≡ entries.now) × (result.floor ≡ 0) }
    {
        Repeats {
            entries,
            floor: 0,
            held: None,
            again: None,
            history: PostRecord::none(),
            squares,
            alloc,
        }
    }
}

impl<'a> Post for Repeats<'a> {
    ghost view = { λ post. post };

    fn send(&mut self, job: Job) -> Sent {
        let sent = if self.held.is_some() {
            Sent::Full(job)
        } else {
            self.floor = u64::from(job.number) + 1;
            self.held = Some(job);
            Sent::Taken
        };
        self.history.note_sent(&sent);
        sent
    }

    fn receive(&mut self) -> Received {
        if let Some(worked) = self.again.take() {
            return self.history.note_worked(worked);
        }
        let Some(job) = self.held.take() else {
            self.history.note_received(&Received::Nothing);
            return Received::Nothing;
        };
        let mut stop = self.entries.stop(&job.place);
        let answer = work(
            self.alloc,
            job,
            self.entries,
            &mut NoGate,
            &mut stop,
            self.squares,
        );
        let worked = Worked::by(answer, stop);
        self.again = worked.again().ok();
        self.history.note_worked(worked)
    }

    fn try_receive(&mut self) -> Received {
        self.receive()
    }

    fn floor(&self) -> u64 {
        self.floor
    }
}

// Holds two jobs, and answers the one that came last first.
#[derive(Drop)]
pub struct Reverses<'a> {
    pub first: InlinePost<'a>,
    pub last: InlinePost<'a>,
    pub floor: u64,
    pub history: PostRecord,
    ghost same: { (last.table ≡ first.table) × (last.limit ≡ first.limit) },
    ghost below: { (first.floor ≤ floor) × (last.floor ≤ floor) },
}

impl<'a> Post for Reverses<'a> {
    ghost use Rattle.std.specs.Prelude.{◌+◌, None, false};

    ghost view = { λ post. record {
      table = post.first.table;
      limit = post.first.limit;
      floor = post.floor;
      answers = post.history.answers;
      is_prompt = false;
      held = None;
      asked = post.history.asked;
      stops = post.first.stops + post.last.stops;
      is_over = post.history.is_over;
    } };

    fn send(&mut self, job: Job) -> Sent {
        let floor = u64::from(job.number) + 1;
        let sent = match self.first.send(job) {
            Sent::Full(job) => self.last.send(job),
            sent => sent,
        };
        self.history.note_sent(&sent);
        if let Sent::Taken = sent {
            self.floor = floor;
        }
        sent
    }

    fn receive(&mut self) -> Received {
        let received = match self.last.receive() {
            Received::Nothing => self.first.receive(),
            received => received,
        };
        self.history.note_received(&received);
        received
    }

    fn try_receive(&mut self) -> Received {
        self.receive()
    }

    fn floor(&self) -> u64 {
        self.floor
    }
}
