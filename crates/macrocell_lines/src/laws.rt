//! Laws of the definitions, each the contract of a function that does nothing.
ghost use Rattle.macrocell_lines.specs.Laws.{BitmapsShowTheirLines, WrittenSaysTheSame};

/// What is written says the name, the generation and the nodes that were written.
pub fn written_says_the_same()
    ensures { WrittenSaysTheSame }
{}

/// A cell of a bitmap is live exactly where its line has a `*`.
pub fn bitmaps_show_their_lines()
    ensures { BitmapsShowTheirLines }
{}
