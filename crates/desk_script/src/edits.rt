//! Commands that are edits.
ghost use Rattle.std.specs.Prelude.{◌≡◌, IfOk};
ghost use Rattle.script_lines.specs.Words.{words};
ghost use Rattle.desk_script.specs.Command.{edit_by, further_edit_by, edit_in_branch, set_of};
ghost use Rattle.desk_script.specs.Command.{on_of, mark_of, move_of, unmark_of, branch_of};
ghost use Rattle.desk_script.specs.Command.{unbranch_of};

use crate::cells::some_cells;
use crate::interventions::{read_at, read_change, read_drop, read_every};
use crate::view::read_view;
use crate::words::{count, one_count};
use schedule::Edit;
use script_lines::next_word;
use std::alloc::{AllocError, Global};

/// The edit of a first word and those behind it, if they name one. It is in branch 0 where no branch
/// is named.
pub(crate) fn read_edit(alloc: Global, word: &[u8], rest: &[u8]) -> Result<Option<Edit>, AllocError>
    ensures { IfOk result (λ edit. edit ≡ edit_by word.now (words rest.now)) }
{
    if word == b"set".as_slice() {
        read_set(alloc, rest)
    } else if word == b"on".as_slice() {
        read_on(alloc, rest)
    } else if word == b"change".as_slice() {
        read_change(alloc, rest)
    } else if word == b"drop".as_slice() {
        Ok(read_drop(rest))
    } else {
        read_further_edit(alloc, word, rest)
    }
}

// The edit of any other first word and those behind it, if they name one.
fn read_further_edit(alloc: Global, word: &[u8], rest: &[u8]) -> Result<Option<Edit>, AllocError>
    ensures { IfOk result (λ edit. edit ≡ further_edit_by word.now (words rest.now)) }
{
    if word == b"move".as_slice() {
        Ok(read_move(rest))
    } else if word == b"unmark".as_slice() {
        Ok(read_unmark(rest))
    } else if word == b"branch".as_slice() {
        Ok(read_branch(rest))
    } else if word == b"unbranch".as_slice() {
        Ok(read_unbranch(rest))
    } else {
        read_in_branch(alloc, 0, word, rest)
    }
}

// Cells of the start are set.
fn read_set(alloc: Global, rest: &[u8]) -> Result<Option<Edit>, AllocError>
    ensures { IfOk result (λ edit. edit ≡ set_of (words rest.now)) }
{
    match some_cells(alloc, rest)? {
        Some(cells) => Ok(Some(Edit::SetCells { cells })),
        None => Ok(None),
    }
}

// An edit in the branch that the first word names.
fn read_on(alloc: Global, rest: &[u8]) -> Result<Option<Edit>, AllocError>
    ensures { IfOk result (λ edit. edit ≡ on_of (words rest.now)) }
{
    let Some((branch, rest)) = next_word(rest) else {
        return Ok(None);
    };
    let Some(branch) = count(branch) else {
        return Ok(None);
    };
    let Some((word, rest)) = next_word(rest) else {
        return Ok(None);
    };
    read_in_branch(alloc, branch, word, rest)
}

// The edit in a branch of a word and those behind it, if they name one.
fn read_in_branch(
    alloc: Global,
    branch: u64,
    word: &[u8],
    rest: &[u8],
) -> Result<Option<Edit>, AllocError>
    ensures { IfOk result (λ edit. edit ≡ edit_in_branch branch word.now (words rest.now)) }
{
    if word == b"at".as_slice() {
        read_at(alloc, branch, rest)
    } else if word == b"every".as_slice() {
        read_every(alloc, branch, rest)
    } else if word == b"mark".as_slice() {
        Ok(read_mark(branch, rest))
    } else {
        Ok(None)
    }
}

// A bookmark is added to a branch.
fn read_mark(branch: u64, rest: &[u8]) -> Option<Edit>
    ensures { result ≡ mark_of branch (words rest.now) }
{
    let (generation, rest) = next_word(rest)?;
    let generation = count(generation)?;
    let view = read_view(rest)?;
    Some(Edit::AddBookmark {
        branch,
        generation,
        view,
    })
}

// A bookmark is moved.
fn read_move(rest: &[u8]) -> Option<Edit>
    ensures { result ≡ move_of (words rest.now) }
{
    let (id, rest) = next_word(rest)?;
    let id = count(id)?;
    let generation = one_count(rest)?;
    Some(Edit::MoveBookmark { id, generation })
}

// A bookmark is removed.
fn read_unmark(rest: &[u8]) -> Option<Edit>
    ensures { result ≡ unmark_of (words rest.now) }
{
    let id = one_count(rest)?;
    Some(Edit::RemoveBookmark { id })
}

// A branch is added.
fn read_branch(rest: &[u8]) -> Option<Edit>
    ensures { result ≡ branch_of (words rest.now) }
{
    let (parent, rest) = next_word(rest)?;
    let parent = count(parent)?;
    let generation = one_count(rest)?;
    Some(Edit::AddBranch { parent, generation })
}

// A branch is removed.
fn read_unbranch(rest: &[u8]) -> Option<Edit>
    ensures { result ≡ unbranch_of (words rest.now) }
{
    let branch = one_count(rest)?;
    Some(Edit::RemoveBranch { branch })
}
