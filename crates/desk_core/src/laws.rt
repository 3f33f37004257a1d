//! Laws of the definitions, each the contract of a function that does nothing.
ghost use Rattle.desk_core.specs.Run.{AreOfLaw, ShowsOnlyScratch};

/// Whatever calls are made on a desk, one after another, with answers of its table that are late,
/// lost or repeated: a bookmark is shown with the text that starting over gives for the present
/// document, or as pending.
///
/// What `edit`, `issue`, `collect` and `cancel` say of the desk before and after names the event
/// that each of them is, and that it may happen there. `settle`, `settle_seen`, `poll` and `feed`
/// name the calls that they consist of, which are such calls by `calls_are_of_law`. So whatever a
/// program does with a desk is such a list of calls.
pub fn calls_show_only_scratch()
    ensures { ShowsOnlyScratch }
{}

/// Calls that lead from one desk to another, as a settling, a poll or a feeding names them, are calls
/// of which `calls_show_only_scratch` speaks.
pub fn calls_are_of_law()
    ensures { AreOfLaw }
{}
