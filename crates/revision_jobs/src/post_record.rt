//! What a post was asked and what it said.
ghost use Rattle.std.specs.Prelude.{◌≡◌};
ghost use Rattle.revision_jobs.specs.declared.post.Received.TheVariants as received;
ghost use Rattle.revision_jobs.specs.Posted.{NotesReceived, history_received, history_sent};
ghost use Rattle.revision_jobs.specs.Posted.{no_history};

use crate::answers::Answers;
use crate::count::Count;
use crate::post::{Received, Sent};
use crate::stop::Seen;
use crate::worked::Worked;
use std::marker::Model;
use std::snapshot::Snapshot;

/// What a post was asked and what it said so far, as clauses see it: the answers that it gave, how
/// often it was asked to send or to receive, how often a flag was seen raised for its answers, and
/// whether it said Closed or Ended. It takes no bytes and no memory, and nothing can be read from
/// it. Each post notes here what it says.
pub struct PostRecord {
    answers: Answers,
    asked: Count,
    stops: Seen,
    over: Snapshot<bool>,
}

// Written out, as a derived one is proved again in each crate above.
impl Drop for PostRecord {
    fn drop(self) {
        let PostRecord {
            answers: _,
            asked: _,
            stops: _,
            over: _,
        } = self;
    }
}

impl Model for PostRecord {
    ghost use Rattle.std.specs.Coded.{codes};
    ghost use Rattle.worlds.specs.World.{coded_world};
    ghost use Rattle.revision_jobs.specs.Posted.{PostHistory};

    ghost Value = { PostHistory };

    ghost coded = { Prim.hlevel (codes, coded_world) };

    ghost view = { λ h. record {
      answers = h.answers;
      asked = h.asked;
      stops = h.stops;
      is_over = h.over.value;
    } };
}

impl PostRecord {
    /// That of a post that wasn't asked yet.
    pub fn none() -> PostRecord
        ensures { result ≡ no_history }
    {
        PostRecord {
            answers: Answers::none(),
            asked: Count::zero(),
            stops: Seen::none(),
            over: Snapshot::of(&false),
        }
    }

    /// Notes what the post said when it was asked to take a job.
    pub fn note_sent(&mut self, sent: &Sent)
        ensures { self.new ≡ history_sent self.old sent.now }
    {
        self.asked.raise();
        if let Sent::Closed(_) = sent {
            self.over = Snapshot::of(&true);
        }
    }

    /// Notes what the post said when it was asked for an answer, but no flag that was seen raised:
    /// a post notes the answers that it had worked by `note_worked`.
    pub fn note_received(&mut self, received: &Received)
        ensures { self.new ≡ history_received self.old received.now }
    {
        self.asked.raise();
        match received {
            Received::Answer(answer) => self.answers.push(answer),
            Received::Nothing => {}
            Received::Ended => self.over = Snapshot::of(&true),
        }
    }

    /// Notes an answer that the post gives, and whether a flag was seen raised for it.
    pub fn note_worked(&mut self, worked: Worked) -> Received
        ensures given { result ≡ received.Answer worked }
        ensures noted { NotesReceived self.old self.new result }
    {
        let (answer, seen) = worked.into_parts();
        self.stops.add(seen);
        let received = Received::Answer(answer);
        self.note_received(&received);
        received
    }
}
