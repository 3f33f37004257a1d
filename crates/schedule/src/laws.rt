//! Laws of branches and repeating interventions, each the contract of a function that does nothing.
ghost use Rattle.schedule.specs.Laws.{WithoutBranches, StartArrives, BranchBegins, BranchSteps};
ghost use Rattle.schedule.specs.Laws.{BranchUndisturbed, ArrivalDependsOnItsLine};
ghost use Rattle.schedule.specs.Laws.{ArrivalDependsOnWorlds, NewBranchKeepsArrivals};
ghost use Rattle.schedule.specs.Laws.{RemovedBranchKeepsArrivals, ReachIsGreatest};
ghost use Rattle.schedule.specs.Laws.{RepeatsAreProgressions, MarksAreCounted};
ghost use Rattle.schedule.specs.Laws.{RepeatIsItsSingles, ArrivalWithinReach};

/// Without branches what arrives at a generation, what leaves it and what a bookmark shows are
/// those of one line of history, with each intervention at its generations.
pub fn without_branches()
    ensures { WithoutBranches }
{}

/// The start arrives at generation 0 of branch 0.
pub fn start_arrives()
    ensures { StartArrives }
{}

/// At its fork a branch has what its parent has after that generation's interventions.
pub fn branch_begins()
    ensures { BranchBegins }
{}

/// Each generation of a branch is a step from what the one before leaves.
pub fn branch_steps()
    ensures { BranchSteps }
{}

/// Where nothing acts within a gap of a branch, its end is that many steps from its beginning.
pub fn branch_undisturbed()
    ensures { BranchUndisturbed }
{}

/// The reach of a branch is the greatest of its fork, its bookmarks' generations and the forks out
/// of it.
pub fn reach_is_greatest()
    ensures { ReachIsGreatest }
{}

/// What arrives depends on interventions of its own line back to the start alone.
pub fn arrival_depends_on_its_line()
    ensures { ArrivalDependsOnItsLine }
{}

/// Other interventions that give each generation the same world change no arrival.
pub fn arrival_depends_on_worlds()
    ensures { ArrivalDependsOnWorlds }
{}

/// Other interventions that give each generation that its branch reaches the same world change no
/// arrival there.
pub fn arrival_within_reach()
    ensures { ArrivalWithinReach }
{}

/// A new branch leaves what arrives in the others.
pub fn new_branch_keeps_arrivals()
    ensures { NewBranchKeepsArrivals }
{}

/// A branch that isn't in use can be removed without a change of what arrives in the others.
pub fn removed_branch_keeps_arrivals()
    ensures { RemovedBranchKeepsArrivals }
{}

/// A repeating intervention acts at `first + i * every` for each i from 0, up to the last, and
/// nowhere else.
pub fn repeats_are_progressions()
    ensures { RepeatsAreProgressions }
{}

/// The marks that a repeating intervention makes are counted by a division.
pub fn marks_are_counted()
    ensures { MarksAreCounted }
{}

/// A repeating intervention has the arrivals of the list of single ones at its generations, laid in
/// its place among the ids.
pub fn repeat_is_its_singles()
    ensures { RepeatIsItsSingles }
{}
