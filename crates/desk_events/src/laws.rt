//! Laws of the definitions, each the contract of a function that does nothing.
ghost use Rattle.desk_events.specs.Example.{AnswerOfOld, KeptAnswer, LateAnswer, ManyEvents};
ghost use Rattle.desk_events.specs.Law.{CallsAreEvents, ShowsOnlyScratch, StaysRight};

/// Whatever happens to a desk and to whoever works its jobs, in whatever order, with jobs and
/// answers that are lost, late or repeated: what the desk knows and expects is right, and a
/// bookmark is current with the text that starting over gives for the present document, or pending.
pub fn whatever_happens_the_desk_is_right()
    ensures right { StaysRight }
    ensures shown { ShowsOnlyScratch }
{}

/// Whatever calls are made on a desk that was opened, one after another, with answers that have the
/// value of their number's entry or none: some list of events leads to the desk that they leave.
pub fn calls_are_events()
    ensures { CallsAreEvents }
{}

/// Worked lists of events, to which the law applies. A step is under way from the start to a
/// bookmark. Its answer is collected after an intervention was inserted between the two: it changes
/// nothing, and the bookmark is pending, also where the intervention was removed again. Or after
/// another bookmark was added there: it counts, the view of the first bookmark becomes current, and
/// the answer changes nothing when it comes again.
pub fn answers_that_are_late()
    ensures late { LateAnswer }
    ensures old { AnswerOfOld }
    ensures kept { KeptAnswer }
{}

/// A longer worked list of events, to which the law applies. An answer comes twice, and one of the
/// two is lost. What it gave goes with an edit, and is recalled when the edit was undone; it stays
/// with an edit that isn't felt. A job is cancelled, lost and issued anew, and a bookmark becomes
/// current. It stays so when a branch begins, where an intervention acts again and again.
pub fn many_events()
    ensures { ManyEvents }
{}
