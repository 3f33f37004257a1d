//! Cells among the words of a line.
ghost use Rattle.std.specs.Prelude.{◌≡◌, IfOk};
ghost use Rattle.std.specs.Option.{option_map};
ghost use Rattle.script_lines.specs.Words.{words};
ghost use Rattle.desk_script.specs.Command.{cells_said, some_cells, cells_set};
ghost use Rattle.desk_script.specs.Cells.{NextCell};

use schedule::{CellSet, Listing};
use script_lines::{next_word, signed, unsigned};
use std::alloc::{AllocError, Global};

/// What stands where a cell's words may begin.
#[derive(Clone, Copy, Debug)]
pub enum CellFound<'a> {
    End,
    Bad,
    Cell(CellSet, &'a [u8]),
}

// The next cell, and the words behind it.
fn next_cell(bytes: &[u8]) -> CellFound<'_>
    ensures { NextCell bytes.now result }
{
    let Some((x, rest)) = next_word(bytes) else {
        return CellFound::End;
    };
    let Some((y, rest)) = next_word(rest) else {
        return CellFound::Bad;
    };
    let Some((state, rest)) = next_word(rest) else {
        return CellFound::Bad;
    };
    let Some(x) = signed(x) else {
        return CellFound::Bad;
    };
    let Some(y) = signed(y) else {
        return CellFound::Bad;
    };
    let Some(state) = unsigned(state, u16::MAX as u64) else {
        return CellFound::Bad;
    };
    let cell = CellSet {
        x,
        y,
        state: state as u16,
    };
    CellFound::Cell(cell, rest)
}

// The cells that the words name, or None where they name something else.
fn read_cells(alloc: Global, bytes: &[u8]) -> Result<Option<Vec<CellSet>>, AllocError>
    ensures { IfOk result (λ cells.
        option_map (λ v. v.items) cells ≡ cells_said (words bytes.now)) }
{
    let mut cells = Vec::new(alloc);
    let mut rest = bytes;
    loop {
        match next_cell(rest) {
            CellFound::End => return Ok(Some(cells)),
            CellFound::Bad => return Ok(None),
            CellFound::Cell(cell, behind) => {
                cells.push(cell)?;
                rest = behind;
            }
        }
    }
}

/// The cells that the words name, one or more, or None where they name something else.
pub(crate) fn some_cells(
    alloc: Global,
    bytes: &[u8],
) -> Result<Option<Listing<CellSet>>, AllocError>
    ensures { IfOk result (λ cells. cells ≡ some_cells (cells_said (words bytes.now))) }
{
    match read_cells(alloc, bytes)? {
        None => Ok(None),
        Some(cells) => {
            if cells.is_empty() {
                return Ok(None);
            }
            Ok(Some(Listing::from_vec(cells)))
        }
    }
}

/// The cells behind the word `set`.
pub(crate) fn read_cells_set(
    alloc: Global,
    bytes: &[u8],
) -> Result<Option<Listing<CellSet>>, AllocError>
    ensures { IfOk result (λ cells. cells ≡ cells_set (words bytes.now)) }
{
    let Some((word, rest)) = next_word(bytes) else {
        return Ok(None);
    };
    if word == b"set".as_slice() {
        some_cells(alloc, rest)
    } else {
        Ok(None)
    }
}
