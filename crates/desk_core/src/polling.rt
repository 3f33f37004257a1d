//! Polling a post: what has come is collected, and what is needed next is sent.
ghost use Rattle.desk_core.specs.Calls.{GoesByCalls};
ghost use Rattle.desk_core.specs.Polling.{IsCauseOf, Polls, PollsPromptly};
ghost use Rattle.desk_core.specs.Progress.{CollectsOn};
ghost use Rattle.desk_core.specs.Settling.{HoldsAllOut, KeepsWhatIsKnown, Serves, ServesOn};
ghost use Rattle.desk_core.specs.Settling.{TellsCause};

use crate::cause::Cause;
use crate::desk::Desk;
use crate::feeding::feed_on;
use crate::issue::IssueFault;
use crate::progress::Progress;
use revision_jobs::{Post, Received};
use std::sync::Wait;

/// How many answers are collected at most by one poll.
const MOST_ANSWERS: u32 = 64;

/// What a poll found.
#[derive(Clone, Copy, Debug, PartialEq, Eq)]
pub struct Polled {
    /// How many bookmarks are pending.
    pub pending: u32,
    /// The first cause that was met, if one was: a job that gave up, or none could be issued.
    pub cause: Option<Cause>,
}

/// Collects the answers that have come, at most 64. Then, unless one of them is a cause to stop, it
/// issues and sends what is needed next, as `feed` does. It waits for no answer.
///
/// What was known stays so, a job that is out was out before or was sent, and document and table
/// are the same (`KeepsWhatIsKnown`); the post serves the desk still (`ServesOn`). The cause is that of an
/// answer that came, or of the issue that was refused (`TellsCause`). Answers are collected until
/// the post has none, or 64, and jobs sent until nothing is needed, an issue is refused or one
/// isn't taken (`Polls`). All of this is a list of calls on the desk: the cause is the first that
/// they met, and behind it nothing was issued (`GoesByCalls`).
///
/// Over a prompt post that holds whatever is out, as one without threads does, each poll works the
/// one job that it holds, and no other; and unless a cause is told, the post holds a job again or
/// nothing is pending (`PollsPromptly`). So how many jobs are worked depends on how often it is
/// polled, and not on time.
pub fn poll<P: Post>(rt: &impl Wait, desk: &mut Desk<'_>, post: &mut P) -> Polled
    requires { Serves desk.old (P.view post.old) }
    ensures keeps { KeepsWhatIsKnown desk.old desk.new (P.view post.new) }
    ensures post { ServesOn (P.view post.old) (P.view post.new) desk.old desk.new }
    ensures cause { TellsCause (P.view post.old) (P.view post.new) desk.old desk.new result.cause }
    ensures calls { GoesByCalls (P.view post.old) (P.view post.new) desk.old desk.new result.cause }
    ensures polls { Polls (P.view post.old) (P.view post.new) desk.old desk.new result }
    ensures prompt { HoldsAllOut desk.old (P.view post.old) →
        PollsPromptly (P.view post.old) (P.view post.new) result }
{
    if let Some(cause) = collect_all(desk, post) {
        return Polled {
            pending: desk.pending(),
            cause: Some(cause),
        };
    }
    let cause = cause_of(feed_on(rt, desk, post).refused);
    Polled {
        pending: desk.pending(),
        cause,
    }
}

// The cause that a refused issue is, if one was refused.
fn cause_of(refused: Option<IssueFault>) -> Option<Cause>
    ensures { IsCauseOf refused result }
{
    match refused {
        Some(fault) => Some(Cause::of_issue(fault)),
        None => None,
    }
}

// Collects the answers that have come, and gives the first cause that one of them is.
fn collect_all<P: Post>(desk: &mut Desk<'_>, post: &mut P) -> Option<Cause>
    requires { Serves desk.old (P.view post.old) }
    ensures { CollectsOn (P.view post.old) (P.view post.new) desk.old desk.new result }
{
    let mut progress = Progress::begun();
    for _ in 0..MOST_ANSWERS {
        match post.try_receive() {
            Received::Answer(answer) => progress.collect(desk, answer),
            Received::Nothing => return progress.cause,
            Received::Ended => return progress.cause,
        }
    }
    progress.cause
}
