//! Laws of the definitions, each the contract of a function that does nothing.
ghost use Rattle.step_engine.specs.Evolved.{EachWayIsThere};

/// What is made on a way is a list of squares, for each rule, world and number of generations. So a
/// promise of every list that has all of them, as that of `NoRoom`, speaks of a list.
pub fn each_way_is_there()
    ensures { EachWayIsThere }
{}
