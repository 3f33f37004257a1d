//! Laws of the definitions, each the contract of a function that does nothing.
ghost use Rattle.worlds.specs.Laws.{SameStatesSameWorld, StateAfterLay, StateAfterStep, EmptyStaysEmpty, StateAfterMoving, StepCommutesWithMoving, SpreadsOneCell, StepsAdd, DependsOnTheNear, ArrivalDependsOnThePast, ArrivalUndisturbed};

/// Two worlds with the same state everywhere are one.
pub fn same_states_same_world()
    ensures { SameStatesSameWorld }
{}

/// A cell that is laid has the state of its last mention, and any other keeps its own.
pub fn state_after_lay()
    ensures { StateAfterLay }
{}

/// Each state after a step is the next of the nine states at and around the place.
pub fn state_after_step()
    ensures { StateAfterStep }
{}

/// An empty world stays empty.
pub fn empty_stays_empty()
    ensures { EmptyStaysEmpty }
{}

/// Each state of a moved world is that of the place it came from.
pub fn state_after_moving()
    ensures { StateAfterMoving }
{}

/// A step commutes with moving the world.
pub fn step_commutes_with_moving()
    ensures { StepCommutesWithMoving }
{}

/// After a generation a cell is live only where one was live at it or beside it.
pub fn spreads_one_cell()
    ensures { SpreadsOneCell }
{}

/// `m + n` steps are `n` steps and then `m`.
pub fn steps_add()
    ensures { StepsAdd }
{}

/// After `n` steps a cell depends on the cells at most `n` away.
pub fn depends_on_the_near()
    ensures { DependsOnTheNear }
{}

/// What arrives at a generation depends on what was laid before it alone.
pub fn arrival_depends_on_the_past()
    ensures { ArrivalDependsOnThePast }
{}

/// With nothing laid, what arrives is that many steps from the start.
pub fn arrival_undisturbed()
    ensures { ArrivalUndisturbed }
{}
