//! A post without threads.
ghost use Rattle.std.specs.Prelude.{◌≡◌};
ghost use Rattle.revision_jobs.specs.Inline.{new_inline};

use crate::answer::Job;
use crate::entries::Entries;
use crate::gate::NoGate;
use crate::post::{Post, Received, Sent};
use crate::post_record::PostRecord;
use crate::worked::Worked;
use crate::worker::work;
use std::alloc::Global;
use std::marker::Model;

/// A prompt post, which works the job that it holds in the caller's thread, when its answer is
/// asked for. So its answer is always there already.
///
/// Contracts see it as a post.
#[derive(Drop)]
pub struct InlinePost<'a> {
    entries: &'a Entries,
    floor: u64,
    held: Option<Job>,
    history: PostRecord,
    squares: u32,
    alloc: Global,
}

impl<'a> Model for InlinePost<'a> {
    ghost use Rattle.std.specs.Coded.{codes};
    ghost use Rattle.worlds.specs.World.{coded_world};
    ghost use Rattle.revision_jobs.specs.Posted.{PostView};

    ghost Value = { PostView };

    ghost coded = { Prim.hlevel (codes, coded_world) };

    ghost use Rattle.revision_jobs.specs.Inline.{IsHeldOf, inline_view};

    ghost view = { λ p. inline_view p.entries.now p.squares p.floor p.held p.history };

    ghost invariant = { λ p. IsHeldOf p.entries.now p.held };
}

impl<'a> InlinePost<'a> {
    /// A post that holds no job and gave no answer. A step may keep at most `squares` squares, and
    /// never more than 16,777,216.
    pub fn new(alloc: Global, entries: &'a Entries, squares: u32) -> InlinePost<'a>
        ensures { result ≡ new_inline entries.now squares }
    {
        InlinePost {
            entries,
            floor: 0,
            held: None,
            history: PostRecord::none(),
            squares,
            alloc,
        }
    }
}

impl<'a> Post for InlinePost<'a> {
    ghost view = { λ post. post };

    fn send(&mut self, job: Job) -> Sent {
        let sent = if self.held.is_some() {
            Sent::Full(job)
        } else {
            self.floor = u64::from(job.number) + 1;
            self.held = Some(job);
            Sent::Taken
        };
        self.history.note_sent(&sent);
        sent
    }

    fn receive(&mut self) -> Received {
        let Some(job) = self.held.take() else {
            self.history.note_received(&Received::Nothing);
            return Received::Nothing;
        };
        let mut stop = self.entries.stop(&job.place);
        let answer = work(
            self.alloc,
            job,
            self.entries,
            &mut NoGate,
            &mut stop,
            self.squares,
        );
        self.history.note_worked(Worked::by(answer, stop))
    }

    fn try_receive(&mut self) -> Received {
        self.receive()
    }

    fn floor(&self) -> u64 {
        self.floor
    }
}
