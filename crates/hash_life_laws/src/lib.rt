//! HashLife as a function of squares, and the law that it is single steps.
//!
//! The result of a square of level k + 2 is the square of half its side in its middle, any number of
//! generations later up to 2^k: nine results of the squares that overlap in it, and four results of
//! the squares that those make (R. Wm. Gosper, Exploiting Regularities in Large Cellular Spaces,
//! Physica 10D, 1984). An engine that remembers the result of each distinct square rests on this
//! law, and has to show only that it computes the function.
#![tactic(auto)]

ghost use Rattle.hash_life_laws.specs.Result.{ResultIsSteps};
ghost use Rattle.hash_life_laws.specs.Puts.{PutsWhatStands};

/// The result of a square of the plane is the square in its middle so many single steps later.
pub fn result_is_steps()
    ensures { ResultIsSteps }
{}

/// On the way to the result of a square of the plane only squares of 4 by 4 cells that stand in the
/// plane at an earlier generation are put to the rule.
pub fn puts_what_stands()
    ensures { PutsWhatStands }
{}
