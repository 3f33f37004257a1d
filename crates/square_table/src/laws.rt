//! Laws of the definitions, each the contract of a function that does nothing.
ghost use Rattle.square_table.specs.Centred.{CentredTellsWorld};
ghost use Rattle.square_table.specs.Squares.{NumbersTellSquares};

/// In one table two squares have one number exactly where they have one level and the same cells.
pub fn numbers_tell_squares()
    ensures { NumbersTellSquares }
{}

/// A square round the cell (0, 0), outside which no cell is live, is that of one world.
#[tactic(auto, using(crate::proofs::Shared::Centring::one_world))]
pub fn centred_tells_world()
    ensures { CentredTellsWorld }
{}
