//! Answers with what their stops saw.
ghost use Rattle.std.specs.Prelude.{◌≡◌, Err, IfOk};
ghost use Rattle.worlds.specs.Stop.{CountsStop};

use crate::answer::Answer;
use crate::stop::{EntryStop, Seen};
use std::alloc::AllocError;
use std::marker::Model;
use step_engine::EvolveFault;

/// An answer, with the evidence that it was stopped: it says that its job was stopped exactly where
/// an `EntryStop` saw a flag raised for it. A post that gives it notes both in its `PostRecord`.
/// The evidence takes no bytes. Contracts see the answer.
pub struct Worked {
    answer: Answer,
    seen: Seen,
}

// Written out, as a derived one is proved again in each crate above.
impl Drop for Worked {
    fn drop(self) {
        let Worked { answer: _, seen: _ } = self;
    }
}

impl Model for Worked {
    ghost use Rattle.std.specs.Coded.{codes};
    ghost use Rattle.std.specs.Prelude.{Err};
    ghost use Rattle.step_engine.specs.declared.evolved.EvolveFault.{EvolveFault};
    ghost use Rattle.worlds.specs.Stop.{CountsStop};
    ghost use Rattle.worlds.specs.World.{coded_world};
    ghost use Rattle.revision_jobs.specs.Answer.{JobResult};

    ghost Value = { JobResult };

    ghost coded = { Prim.hlevel (codes, coded_world) };

    ghost view = { λ worked. worked.answer };

    ghost invariant = { λ worked.
        CountsStop worked.answer.outcome (Err EvolveFault.Stopped) 0 worked.seen };
}

impl Worked {
    /// An answer with the stop by which its job was worked.
    pub fn by(answer: Answer, stop: EntryStop<'_>) -> Worked
        requires { CountsStop answer.outcome (Err EvolveFault.Stopped) 0 stop }
        ensures { result ≡ answer }
    {
        Worked {
            answer,
            seen: stop.into_seen(),
        }
    }

    /// The answer.
    pub fn answer(&self) -> &Answer
        ensures { result.now ≡ self.now }
    {
        &self.answer
    }

    /// The answer, and how often a flag was seen raised for it.
    pub(crate) fn into_parts(self) -> (Answer, Seen)
        ensures answer { result.0 ≡ self }
        ensures seen { CountsStop self.outcome (Err EvolveFault.Stopped) 0 result.1 }
    {
        let Worked { answer, seen } = self;
        (answer, seen)
    }

    /// The same answer once more, with the same evidence. It takes no memory, and is refused only
    /// where no more owners of a pattern or a text can be counted.
    pub fn again(&self) -> Result<Worked, AllocError>
        ensures { IfOk result (λ worked. worked ≡ self.now) }
    {
        Ok(Worked {
            answer: self.answer.again()?,
            seen: self.seen.again(),
        })
    }
}
