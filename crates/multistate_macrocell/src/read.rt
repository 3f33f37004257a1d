//! Reading a macrocell file.
ghost use Rattle.std.specs.Prelude.{◌≡◌, Err};
ghost use Rattle.basics.specs.Results.{Gives};
ghost use Rattle.multistate_macrocell.specs.Pattern.{MayWant, pattern_of};

use crate::rows::rows_of;
use basics::Listing;
use macrocell_lines::{McFault, read_macrocell};
use plane_core::{Loaded, Plane};
use std::alloc::Global;

/// Reads a pattern in macrocell text, as Golly writes it.
///
/// The first line begins with `[M2]`, else the text is refused by NoM2. Blank lines and comments
/// are passed over; `#R` gives the rule's name, which BoundedGrid refuses where it has a colon, and
/// `#G` the generation; a line that begins with `#FRAME` is refused by Timeline. Any other line is
/// a node, or refused by BadRow: a square by its level and its quadrants nw, ne, sw and se, or one
/// of 8 by 8 cells in `.`, `*` and `$`. The last node is the root, with the cell (0, 0) in its
/// middle. A level above 62 is refused by TooDeep, a node beyond 16,777,216 by NoRoom, and a
/// quadrant that is no earlier node of one level less by BadChild. The first faulty line is
/// answered. NoMemory comes only out of memory, and then at no line behind a fault.
pub fn read_mc(alloc: Global, text: &[u8]) -> Result<Loaded, McFault>
    ensures pattern { Gives McFault.NoMemory result (pattern_of text.now) }
    ensures no_memory { result ≡ Err McFault.NoMemory → MayWant text.now }
{
    let said = read_macrocell(alloc, text)?;
    let rows = rows_of(alloc, said.nodes())?;
    Ok(Loaded {
        plane: Plane::from_squares(alloc, &rows)?,
        rule_name: Listing::from_vec(said.rule_name().to_vec(alloc)?),
        generation: said.generation(),
    })
}
