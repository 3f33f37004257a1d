//! Laws of the definitions, each the contract of a function that does nothing.
ghost use Rattle.multistate_rle.specs.Laws.{WrittenMeansTheSame};

/// What is written means the world, the name and the generation that were written.
pub fn written_means_the_same()
    ensures { WrittenMeansTheSame }
{}
