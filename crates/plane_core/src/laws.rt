//! Laws of the definitions, each the contract of a function that does nothing.
ghost use Rattle.plane_core.specs.Laws.{EmptyWorldHasOneRow, WorldsHaveOneListOfRows, WorldsHaveRows};

/// Each world in the range of planes, with states below 256, has rows that a plane can be made of.
pub fn worlds_have_rows()
    ensures { WorldsHaveRows }
{}

/// A world has one list of rows.
pub fn worlds_have_one_list_of_rows()
    ensures { WorldsHaveOneListOfRows }
{}

/// The rows of the empty world are one, of the empty square of level 1.
pub fn empty_world_has_one_row()
    ensures { EmptyWorldHasOneRow }
{}
