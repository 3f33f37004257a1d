//! Laws of the definitions, each the contract of a function that does nothing.
ghost use Rattle.multistate_macrocell.specs.Laws.{NodesShowTheirRoot, WrittenMeansTheSame};

/// What is written means the world, the name and the generation that were written.
pub fn written_means_the_same()
    ensures { WrittenMeansTheSame }
{}

/// Each cell of the world of nodes is that of the quadrant of its root that holds it, and so on
/// down to one cell.
pub fn nodes_show_their_root()
    ensures { NodesShowTheirRoot }
{}
