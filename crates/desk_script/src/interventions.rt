//! Commands that are edits of interventions.
ghost use Rattle.std.specs.Prelude.{◌≡◌, IfOk};
ghost use Rattle.script_lines.specs.Words.{words};
ghost use Rattle.std.specs.Option.{option_map};
ghost use Rattle.desk_script.specs.Command.{acting_of, at_of, change_of, drop_of, every_of};
ghost use Rattle.desk_script.specs.Command.{inserted, once_of, repeated_of};

use crate::cells::read_cells_set;
use crate::words::{count, one_count};
use schedule::{Acts, CellSet, Edit, Listing};
use script_lines::next_word;
use std::alloc::{AllocError, Global};

// What words say of an intervention: when it acts, and the cells that it sets.
#[derive(Drop)]
struct Acting {
    acts: Acts,
    cells: Listing<CellSet>,
}

/// An intervention is inserted into a branch.
pub(crate) fn read_at(alloc: Global, branch: u64, rest: &[u8]) -> Result<Option<Edit>, AllocError>
    ensures { IfOk result (λ edit. edit ≡ at_of branch (words rest.now)) }
{
    Ok(inserted(branch, read_once(alloc, rest)?))
}

/// One that repeats is inserted into a branch.
pub(crate) fn read_every(
    alloc: Global,
    branch: u64,
    rest: &[u8],
) -> Result<Option<Edit>, AllocError>
    ensures { IfOk result (λ edit. edit ≡ every_of branch (words rest.now)) }
{
    Ok(inserted(branch, read_repeated(alloc, rest)?))
}

// The edit that inserts what words say into a branch, if they say it.
fn inserted(branch: u64, acting: Option<Acting>) -> Option<Edit>
    ensures { result ≡ option_map (inserted branch) acting }
{
    let Acting { acts, cells } = acting?;
    Some(Edit::Insert {
        branch,
        acts,
        cells,
    })
}

/// An intervention is changed.
pub(crate) fn read_change(alloc: Global, rest: &[u8]) -> Result<Option<Edit>, AllocError>
    ensures { IfOk result (λ edit. edit ≡ change_of (words rest.now)) }
{
    let Some((id, rest)) = next_word(rest) else {
        return Ok(None);
    };
    let Some(id) = count(id) else {
        return Ok(None);
    };
    match read_acting(alloc, rest)? {
        Some(Acting { acts, cells }) => Ok(Some(Edit::Change { id, acts, cells })),
        None => Ok(None),
    }
}

// It acts once or repeats, as the first word says.
fn read_acting(alloc: Global, rest: &[u8]) -> Result<Option<Acting>, AllocError>
    ensures { IfOk result (λ acting. acting ≡ acting_of (words rest.now)) }
{
    match next_word(rest) {
        Some((word, behind)) if word == b"every".as_slice() => read_repeated(alloc, behind),
        _ => read_once(alloc, rest),
    }
}

// It acts once: a generation, and cells.
fn read_once(alloc: Global, rest: &[u8]) -> Result<Option<Acting>, AllocError>
    ensures { IfOk result (λ acting. acting ≡ once_of (words rest.now)) }
{
    let Some((generation, rest)) = next_word(rest) else {
        return Ok(None);
    };
    let Some(generation) = count(generation) else {
        return Ok(None);
    };
    match read_cells_set(alloc, rest)? {
        Some(cells) => Ok(Some(Acting {
            acts: Acts::once(generation),
            cells,
        })),
        None => Ok(None),
    }
}

// It repeats: a distance, a first and a last generation, and cells.
fn read_repeated(alloc: Global, rest: &[u8]) -> Result<Option<Acting>, AllocError>
    ensures { IfOk result (λ acting. acting ≡ repeated_of (words rest.now)) }
{
    let Some((every, rest)) = next_word(rest) else {
        return Ok(None);
    };
    let Some((first, rest)) = next_word(rest) else {
        return Ok(None);
    };
    let Some((last, rest)) = next_word(rest) else {
        return Ok(None);
    };
    let (Some(every), Some(first), Some(last)) = (count(every), count(first), count(last)) else {
        return Ok(None);
    };
    match read_cells_set(alloc, rest)? {
        Some(cells) => Ok(Some(Acting {
            acts: Acts::every(first, every, last),
            cells,
        })),
        None => Ok(None),
    }
}

/// An intervention is removed.
pub(crate) fn read_drop(rest: &[u8]) -> Option<Edit>
    ensures { result ≡ drop_of (words rest.now) }
{
    let id = one_count(rest)?;
    Some(Edit::RemoveIntervention { id })
}
