//! Feeding a post with jobs.
ghost use Rattle.desk_core.specs.Feed.{FeedsAll};
ghost use Rattle.desk_core.specs.Progress.{FeedsOn};
ghost use Rattle.desk_core.specs.Settling.{Serves, ServesOn};

use crate::desk::Desk;
use crate::issue::IssueFault;
use revision_jobs::{Post, Sent};
use std::sync::Wait;

/// How many jobs were taken, and why no more could be issued, if that ended it.
#[derive(Drop)]
pub(crate) struct Fed {
    pub(crate) taken: u32,
    pub(crate) refused: Option<IssueFault>,
}

/// Issues jobs for what isn't known and sends them, until nothing is to be computed next, none can
/// be issued, or the post doesn't take one, which is cancelled. How many it took. Nothing is
/// received, so whatever was known or out stays so, and all of it is a list of calls on the desk
/// (`Feeds`); the post serves the desk still (`ServesOn`). It may wait where the post's send does.
///
/// Over a prompt post that holds whatever is out, unless an issue is refused, the post holds a job
/// then, or nothing is pending.
pub fn feed<P: Post>(rt: &impl Wait, desk: &mut Desk<'_>, post: &mut P) -> u32
    requires { Serves desk.old (P.view post.old) }
    ensures feeds { FeedsAll (P.view post.old) (P.view post.new) desk.old desk.new result }
    ensures post { ServesOn (P.view post.old) (P.view post.new) desk.old desk.new }
{
    feed_on(rt, desk, post).taken
}

/// Feeds the post as `feed` does, and tells too why no more jobs could be issued.
pub(crate) fn feed_on<P: Post>(rt: &impl Wait, desk: &mut Desk<'_>, post: &mut P) -> Fed
    requires { Serves desk.old (P.view post.old) }
    ensures { FeedsOn (P.view post.old) (P.view post.new) desk.old desk.new
        result.taken result.refused }
{
    let mut taken = 0;
    loop {
        let job = match desk.issue(rt) {
            Ok(Some(job)) => job,
            Ok(None) => return Fed {
                taken,
                refused: None,
            },
            Err(fault) => return Fed {
                taken,
                refused: Some(fault),
            },
        };
        let number = job.number;
        match post.send(job) {
            Sent::Taken => taken += 1,
            _ => {
                desk.cancel(number);
                return Fed {
                    taken,
                    refused: None,
                };
            }
        }
    }
}
