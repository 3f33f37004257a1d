//! Who looks on while a script is answered.
ghost use Rattle.desk_server.specs.Watch.{PublishedOrCounted};

use desk_core::{Desk, Onlooker};

/// Lets the desk be looked at, or passes it over and counts that.
pub(crate) fn note<O: Onlooker>(onlooker: &mut O, desk: &Desk<'_>, missed: &mut u64)
    ensures { PublishedOrCounted O.sees missed.old missed.new onlooker.old desk.now onlooker.new }
{
    if !onlooker.look(desk) {
        *missed = missed.saturating_add(1);
    }
}
