//! The plain search for the first row that matches, one row after another.
ghost use Rattle.std.specs.Prelude.{◌≡◌};
ghost use Rattle.table_symmetry.specs.Expanded as meaning;

use crate::expansion::Expanded;
use table_lines::StateSet;

/// The result of the first row that has these states at its places.
pub fn first_match(rows: &[Expanded], inputs: &[u8]) -> Option<u8>
    ensures { result ≡ meaning.first_match rows.now inputs.now }
{
    for row in rows {
        if all_have(row.inputs.as_slice(), inputs) {
            return Some(row.result);
        }
    }
    None
}

// Whether each set has the state at its place.
fn all_have(sets: &[StateSet], inputs: &[u8]) -> bool
    ensures { result ≡ meaning.all_have sets.now inputs.now }
{
    let [set, sets @ ..] = sets else {
        return inputs.is_empty();
    };
    let [state, inputs @ ..] = inputs else {
        return false;
    };
    set.has(*state) && all_have(sets, inputs)
}
