//! Settling: issuing, sending and collecting until every bookmark is current.
ghost use Rattle.std.specs.Prelude.{◌≡◌, ◌≤◌, ◌*◌};
ghost use Rattle.desk_core.specs.Looks.{LooksOn};
ghost use Rattle.desk_core.specs.Settling.{EndsOver, HasCause, HoldsAllOut, Serves, ServesOn};
ghost use Rattle.desk_core.specs.Settling.{IsEnding, Settles, rows_of};

use crate::cause::Cause;
use crate::desk::Desk;
use crate::looking::{Onlooker, Unwatched};
use crate::progress::Progress;
use revision_jobs::Post;
use std::sync::Wait;

/// How settling ended.
#[derive(Clone, Copy, Debug, PartialEq, Eq)]
pub enum Settling {
    /// Every bookmark is current.
    Settled,
    /// So many bookmarks are pending, at least one, for the cause that stopped the settling, if one
    /// did.
    Unsettled { pending: u32, cause: Option<Cause> },
}

/// Issues jobs for what isn't known, sends them and collects their answers, until every bookmark is
/// current, the turns are spent, the post is closed or ended, or there is a cause to stop: a job
/// gave up, or none can be issued. Then it only collects what is out. A turn is one send or one
/// receive, and gives at most one number. It may wait where the post does.
///
/// What was known stays so, a job that is out was out before or was sent, and document and table
/// are the same (`Settles`); the post serves the desk still (`ServesOn`). Settled says that nothing
/// is pending. Unsettled tells how many bookmarks are, and the cause, which an answer that came
/// meanwhile gives, or an issue that was refused meanwhile; without one the post said Closed or
/// Ended, or it was asked in every turn. All of this is a list of calls on the desk, which collected
/// each answer that came meanwhile: the cause is the first that they met, and behind it nothing was
/// issued (`EndsOver`).
///
/// Over a prompt post that holds whatever is out, four turns for each mark and bookmark are always
/// enough: it settles, or tells a cause. So are 1,000,000.
pub fn settle<P: Post>(rt: &impl Wait, desk: &mut Desk<'_>, post: &mut P, turns: u32) -> Settling
    requires { Serves desk.old (P.view post.old) }
    ensures settles { Settles desk.old desk.new turns (P.view post.new) }
    ensures post { ServesOn (P.view post.old) (P.view post.new) desk.old desk.new }
    ensures ends { EndsOver turns (P.view post.old) (P.view post.new) desk.old desk.new result }
    ensures caused { HoldsAllOut desk.old (P.view post.old) → 4 * rows_of desk.old ≤ turns →
        HasCause result }
{
    settle_seen(rt, desk, post, turns, &mut Unwatched)
}

/// Settles as `settle` does, while somebody looks on: at the desk as it begins, and once more after
/// each answer that it collected. Each desk that is looked at has the document.
pub fn settle_seen<P: Post, O: Onlooker>(
    rt: &impl Wait,
    desk: &mut Desk<'_>,
    post: &mut P,
    turns: u32,
    onlooker: &mut O,
) -> Settling
    requires { Serves desk.old (P.view post.old) }
    ensures settles { Settles desk.old desk.new turns (P.view post.new) }
    ensures post { ServesOn (P.view post.old) (P.view post.new) desk.old desk.new }
    ensures ends { EndsOver turns (P.view post.old) (P.view post.new) desk.old desk.new result }
    ensures caused { HoldsAllOut desk.old (P.view post.old) → 4 * rows_of desk.old ≤ turns →
        HasCause result }
    ensures looked { LooksOn O.sees (P.view post.old) (P.view post.new) desk.old
        onlooker.old onlooker.new }
{
    let Progress { unsent, cause } = Progress::run(rt, desk, post, turns, onlooker);
    unsent.cancel(desk);
    ending(desk.pending(), cause)
}

// How a settling ends that leaves so many bookmarks pending.
fn ending(pending: u32, cause: Option<Cause>) -> Settling
    ensures { IsEnding pending cause result }
{
    match pending {
        0 => Settling::Settled,
        pending => Settling::Unsettled { pending, cause },
    }
}
