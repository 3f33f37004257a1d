//! Reading a table, whose limits are looked at after its lines.
ghost use Rattle.std.specs.Prelude.{◌≡◌, Err, IfOk, IsOk, IsTrue, MatchResult, length};
ghost use Rattle.rule_file.specs.Results.{Gives, GivesBy};
ghost use Rattle.worlds.specs.Step.{nine_zeros};
ghost use Rattle.table_symmetry.specs.Expanded as meaning;
ghost use Rattle.table_symmetry.specs.Grown.{ExpandTo, IsTooLong};
ghost use Rattle.table_symmetry.specs.NextState.{inputs_of};
ghost use Rattle.table_symmetry.specs.Rows.{AreExpanded};
ghost use Rattle.table_symmetry.specs.Rule.{is_sound};
ghost use Rattle.table_symmetry.specs.TableLines.{head_in, table_of, within_limits};

use crate::expansion::{Expanded, expand};
use crate::lookup::{input_count, picked};
use crate::matching::first_match;
use crate::sound_table::SoundTable;
use crate::table::TableRule;
use plane_core::Around;
use rule_file::{RuleFault, RuleText};
use std::alloc::Global;
use table_lines::{Neighborhood, TableLines, read_lines};

/// Reads the lines of a section as those of a table.
///
/// The first faulty line is answered (see `read_lines`); after all lines come TooManyTransitions
/// and NotQuiescent. NoMemory comes only where memory ran out, and never where the descriptors
/// have a fault.
pub fn read_table(alloc: Global, text: &RuleText) -> Result<TableRule, RuleFault>
    ensures table { Gives result (table_of text.now.section.lines) }
    ensures sound { IfOk result (λ table. IsTrue (is_sound table)) }
    ensures no_memory { result ≡ Err RuleFault.NoMemory → IsOk (head_in text.now.section.lines) }
{
    let (table, rows) = read_expanded(alloc, text)?;
    Ok(TableRule::new(alloc, table, &rows)?)
}

/// The same table without a look-up, with its expanded transitions, which reading it lists anyway.
pub fn read_expanded(
    alloc: Global,
    text: &RuleText,
) -> Result<(SoundTable, Vec<Expanded>), RuleFault>
    ensures table { GivesBy (λ found. found.0) result (table_of text.now.section.lines) }
    ensures rows { IfOk result (λ found. AreExpanded found.0 found.1.items) }
    ensures no_memory { result ≡ Err RuleFault.NoMemory → IsOk (head_in text.now.section.lines) }
{
    let lines = read_lines(alloc, text)?;
    finish(alloc, lines)
}

// The table of these lines, with its expanded transitions, unless they are too many or it isn't
// quiescent.
fn finish(alloc: Global, lines: TableLines) -> Result<(SoundTable, Vec<Expanded>), RuleFault>
    ensures table { GivesBy (λ found. found.0) result (within_limits lines) }
    ensures rows { IfOk result (λ found. AreExpanded found.0 found.1.items) }
{
    let rows = rows_of(alloc, &lines)?;
    if zeros_become(lines.neighborhood(), &rows).unwrap_or(0) != 0 {
        return Err(RuleFault::NotQuiescent);
    }
    Ok((SoundTable::new(alloc, lines), rows))
}

// What a table expands to, unless it is too much.
fn rows_of(alloc: Global, lines: &TableLines) -> Result<Vec<Expanded>, RuleFault>
    ensures { MatchResult result
        (λ rows. ExpandTo lines.now.symmetry lines.now.transitions rows.items)
        (λ fault. IsTooLong fault (length (meaning.expanded lines.now))) }
{
    expand(alloc, lines.symmetry(), lines.transitions())
}

// What rows give for a cell of state 0 among such cells.
fn zeros_become(neighborhood: Neighborhood, rows: &[Expanded]) -> Option<u8>
    ensures { result ≡ meaning.first_match rows.now (inputs_of neighborhood nine_zeros) }
{
    let picked = picked(neighborhood, &Around([0; 9]));
    first_match(rows, &picked[..input_count(neighborhood)])
}
