//! Posts that lose jobs, or take none.
ghost use Rattle.std.specs.Prelude.{◌≡◌};

use desk_core::{Entries, Job, Post, Received, Sent};
use revision_jobs::PostRecord;

/// A post that takes every job and never answers one.
#[derive(Drop)]
pub(super) struct LosingPost<'a> {
    entries: &'a Entries,
    floor: u64,
    history: PostRecord,
}

impl<'a> LosingPost<'a> {
    pub(super) fn new(entries: &'a Entries) -> LosingPost<'a>
        ensures { (result.entries.now ≡ entries.now) × (result.floor ≡ 0) }
    {
        LosingPost {
            entries,
            floor: 0,
            history: PostRecord::none(),
        }
    }
}

impl<'a> Post for LosingPost<'a> {
    ghost use Rattle.std.specs.Prelude.{None, false};

    ghost view = { λ post. record {
      table = post.entries.now;
      limit = 0;
      floor = post.floor;
      answers = post.history.answers;
      is_prompt = false;
      held = None;
      asked = post.history.asked;
      stops = post.history.stops;
      is_over = post.history.is_over;
    } };

    fn send(&mut self, job: Job) -> Sent {
        self.floor = u64::from(job.number) + 1;
        self.history.note_sent(&Sent::Taken);
        Sent::Taken
    }

    fn receive(&mut self) -> Received {
        self.history.note_received(&Received::Nothing);
        Received::Nothing
    }

    fn try_receive(&mut self) -> Received {
        self.receive()
    }

    fn floor(&self) -> u64 {
        self.floor
    }
}

/// A post that takes no job: it is closed, or holds as many as it may.
#[derive(Drop)]
pub(super) struct RefusingPost<'a> {
    entries: &'a Entries,
    is_closed: bool,
    history: PostRecord,
}

impl<'a> RefusingPost<'a> {
    pub(super) fn new(entries: &'a Entries, is_closed: bool) -> RefusingPost<'a>
        ensures { result.entries.now ≡ entries.now }
    {
        RefusingPost {
            entries,
            is_closed,
            history: PostRecord::none(),
        }
    }
}

impl<'a> Post for RefusingPost<'a> {
    ghost use Rattle.std.specs.Prelude.{None, false};

    ghost view = { λ post. record {
      table = post.entries.now;
      limit = 0;
      floor = 0;
      answers = post.history.answers;
      is_prompt = false;
      held = None;
      asked = post.history.asked;
      stops = post.history.stops;
      is_over = post.history.is_over;
    } };

    fn send(&mut self, job: Job) -> Sent {
        let sent = if self.is_closed {
            Sent::Closed(job)
        } else {
            Sent::Full(job)
        };
        self.history.note_sent(&sent);
        sent
    }

    fn receive(&mut self) -> Received {
        self.history.note_received(&Received::Nothing);
        Received::Nothing
    }

    fn try_receive(&mut self) -> Received {
        self.receive()
    }

    fn floor(&self) -> u64 {
        0
    }
}
