//! The answers that a post gave.
ghost use Rattle.std.specs.Prelude.{◌≡◌, ◌++◌, ◌∷◌, []};

use crate::answer::Answer;
use crate::past::Past;
use std::marker::Model;
use std::mem;
use std::snapshot::Snapshot;

/// The answers that a post gave so far, the latest last, as clauses see them. It takes no bytes and
/// no memory, and no answer can be read from it.
#[derive(Drop)]
pub(crate) struct Answers {
    past: Snapshot<Past>,
}

impl Model for Answers {
    ghost use Rattle.std.specs.Coded.{codes};
    ghost use Rattle.std.specs.Prelude.{List};
    ghost use Rattle.worlds.specs.World.{coded_world};
    ghost use Rattle.revision_jobs.specs.Answer.{JobResult};

    ghost Value = { List JobResult };

    ghost coded = { Prim.hlevel (codes, coded_world) };

    ghost use Rattle.revision_jobs.specs.Past.{list_of};

    ghost view = { λ answers. list_of answers.past.value };
}

impl Answers {
    /// No answers.
    pub(crate) fn none() -> Answers
        ensures { result ≡ [] }
    {
        Answers {
            past: Snapshot::of(&Past::Nothing),
        }
    }

    /// Notes one more answer.
    pub(crate) fn push(&mut self, answer: &Answer)
        ensures { self.new ≡ self.old ++ answer.now ∷ [] }
    {
        let before = mem::replace(&mut self.past, Snapshot::of(&Past::Nothing));
        self.past = Snapshot::of(&Past::Then(before, Snapshot::of(answer)));
    }
}
