//! Writing a macrocell file.
ghost use Rattle.std.specs.Prelude.{◌≡◌, ◌∷◌, ◌++◌, [], IfOk, OnOk, decimal};
ghost use Rattle.multistate_macrocell.specs.Lines.{heading_text, row_line};
ghost use Rattle.multistate_macrocell.specs.PatternText.{macrocell_text, nodes_of};
ghost use Rattle.macrocell_lines.specs.WrittenText.{written_text};

use itoa::Buffer;
use plane_core::{Plane, SquareRow};
use std::alloc::{AllocError, Global};

/// The text of the plane's pattern at a generation, under a rule of this name.
///
/// Behind the lines of the name and the generation stands a line for each of the plane's rows of
/// squares, in their order, by its level and its quadrants nw, ne, sw and se. So the empty pattern is
/// the one line `1 0 0 0 0`. A text of more than 16,777,216 nodes is beyond what `read_mc` takes.
pub fn write_mc(
    alloc: Global,
    plane: &Plane,
    name: &[u8],
    generation: u64,
) -> Result<Vec<u8>, AllocError>
    ensures { IfOk result (λ text.
        text.items ≡ macrocell_text plane.now name.now generation) }
{
    let rows = plane.squares()?;
    text_of(alloc, &rows, name, generation)
}

// The text of rows.
fn text_of(
    alloc: Global,
    rows: &[SquareRow],
    name: &[u8],
    generation: u64,
) -> Result<Vec<u8>, AllocError>
    ensures { IfOk result (λ text. text.items
        ≡ written_text name.now generation (nodes_of rows.now)) }
{
    let mut text = heading(alloc, name, generation)?;
    for row in rows {
        push_row(&mut text, row)?;
    }
    Ok(text)
}

// The lines before the rows.
fn heading(alloc: Global, name: &[u8], generation: u64) -> Result<Vec<u8>, AllocError>
    ensures { IfOk result (λ text. text.items ≡ heading_text name.now generation) }
{
    let mut text = Vec::new(alloc);
    text.extend_from_slice(b"[M2] (experiment desk)\n#R ")?;
    text.extend_from_slice(name)?;
    text.extend_from_slice(b"\n#G ")?;
    push_number(&mut text, generation)?;
    text.extend_from_slice(b"\n")?;
    Ok(text)
}

// Adds the line of a row.
fn push_row(text: &mut Vec<u8>, row: &SquareRow) -> Result<(), AllocError>
    ensures { OnOk result (text.new.items ≡ text.old.items ++ (row_line row.now ++ 10 ∷ [])) }
{
    let kids = row.kids;
    push_number(text, u64::from(row.level))?;
    push_quadrant(text, kids[0])?;
    push_quadrant(text, kids[1])?;
    push_quadrant(text, kids[2])?;
    push_quadrant(text, kids[3])?;
    text.extend_from_slice(b"\n")
}

// Adds a space and the number of a quadrant.
fn push_quadrant(text: &mut Vec<u8>, number: u32) -> Result<(), AllocError>
    ensures { OnOk result (text.new.items ≡ text.old.items ++ 32 ∷ decimal number) }
{
    text.extend_from_slice(b" ")?;
    push_number(text, u64::from(number))
}

// Adds the number.
fn push_number(text: &mut Vec<u8>, number: u64) -> Result<(), AllocError>
    ensures { OnOk result (text.new.items ≡ text.old.items ++ decimal number) }
{
    text.extend_from_slice(Buffer::new().format(number).as_bytes())
}
