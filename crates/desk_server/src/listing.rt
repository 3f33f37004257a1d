//! What a document has, listed.
ghost use Rattle.std.specs.Prelude.{◌≡◌, ◌+◌, OnOk, OnErr, flat_map};
ghost use Rattle.script_lines.specs.Faults.{Wrote};
ghost use Rattle.dependency_book.specs.ShownRows.{shown_rows};
ghost use Rattle.desk_server.specs.Listed.{bookmark_line, branch_line, intervention_line};
ghost use Rattle.desk_server.specs.Listed.{known_words, listed_text};
ghost use Rattle.desk_server.specs.Told.{has_text, row_line};

use crate::parts::tell_parts;
use desk_core::Desk;
use desk_script::Part;
use schedule::{Acts, Bookmark, Branch, Intervention, View};
use script_lines::{CountedWriter, Failed};
use std::io::Write;
use std::sync::ledger::Ledger;

// Writes the line of a branch.
fn tell_branch<W: Write, L: Ledger>(
    writer: &mut CountedWriter<W, L>,
    branch: &Branch,
) -> Result<(), Failed>
    ensures bytes { Wrote writer.old.contents writer.new.contents result (branch_line branch.now) }
    ensures worked { OnOk result (writer.new.failures ≡ writer.old.failures) }
    ensures failed { OnErr result (writer.new.failures ≡ writer.old.failures + 1) }
{
    tell_parts(
        writer,
        &[
            Part::Text(b"branch "),
            Part::Number(branch.id),
            Part::Text(b" of "),
            Part::Number(branch.parent),
            Part::Text(b" at "),
            Part::Number(branch.fork),
            Part::Text(b"\n"),
        ],
    )
}

// Writes the line of an intervention.
fn tell_intervention<W: Write, L: Ledger>(
    writer: &mut CountedWriter<W, L>,
    intervention: &Intervention,
) -> Result<(), Failed>
    ensures bytes { Wrote writer.old.contents writer.new.contents result
        (intervention_line intervention.now) }
    ensures worked { OnOk result (writer.new.failures ≡ writer.old.failures) }
    ensures failed { OnErr result (writer.new.failures ≡ writer.old.failures + 1) }
{
    let head = Part::Text(b"intervention ");
    let id = Part::Number(intervention.id);
    let on = Part::Text(b" on ");
    let branch = Part::Number(intervention.branch);
    let cells = Part::Text(b" cells ");
    let count = Part::Number(intervention.cells.as_slice().len() as u64);
    let end = Part::Text(b"\n");
    match intervention.acts {
        Acts::Once { generation } => {
            let (at, generation) = (Part::Text(b" at "), Part::Number(generation));
            tell_parts(
                writer,
                &[head, id, on, branch, at, generation, cells, count, end],
            )
        }
        Acts::Every { first, every, last } => {
            let (word, space) = (Part::Text(b" every "), Part::Text(b" "));
            let (every, first, last) = (
                Part::Number(every),
                Part::Number(first),
                Part::Number(last),
            );
            tell_parts(
                writer,
                &[
                    head, id, on, branch, word, every, space, first, space, last, cells, count, end,
                ],
            )
        }
    }
}

// The words that say whether a text is known.
fn known_words(is_known: bool) -> &'static [u8]
    ensures { result.now ≡ known_words is_known }
{
    if is_known {
        b" current\n"
    } else {
        b" pending\n"
    }
}

// Writes the line of a bookmark, which says whether its text is known.
fn tell_bookmark<W: Write, L: Ledger>(
    writer: &mut CountedWriter<W, L>,
    bookmark: &Bookmark,
    is_known: bool,
) -> Result<(), Failed>
    ensures bytes { Wrote writer.old.contents writer.new.contents result
        (bookmark_line bookmark.now is_known) }
    ensures worked { OnOk result (writer.new.failures ≡ writer.old.failures) }
    ensures failed { OnErr result (writer.new.failures ≡ writer.old.failures + 1) }
{
    let head = Part::Text(b"bookmark ");
    let id = Part::Number(bookmark.id);
    let on = Part::Text(b" on ");
    let branch = Part::Number(bookmark.branch);
    let at = Part::Text(b" at ");
    let generation = Part::Number(bookmark.generation);
    let space = Part::Text(b" ");
    let known = Part::Text(known_words(is_known));
    let name = match bookmark.view {
        View::Counts => Part::Text(b"counts"),
        View::Rle => Part::Text(b"rle"),
        View::Macrocell => Part::Text(b"mc"),
        View::Window {
            left,
            top,
            width,
            height,
        } => {
            let word = Part::Text(b"window ");
            let (left, top) = (Part::Signed(left), Part::Signed(top));
            let (width, height) = (
                Part::Number(u64::from(width)),
                Part::Number(u64::from(height)),
            );
            return tell_parts(
                writer,
                &[
                    head, id, on, branch, at, generation, space, word, left, space, top, space,
                    width, space, height, known,
                ],
            );
        }
    };
    tell_parts(
        writer,
        &[head, id, on, branch, at, generation, space, name, known],
    )
}

// Writes a line for each branch.
fn tell_branches<W: Write, L: Ledger>(
    writer: &mut CountedWriter<W, L>,
    branches: &[Branch],
) -> Result<(), Failed>
    ensures bytes { Wrote writer.old.contents writer.new.contents result
        (flat_map branch_line branches.now) }
    ensures worked { OnOk result (writer.new.failures ≡ writer.old.failures) }
    ensures failed { OnErr result (writer.new.failures ≡ writer.old.failures + 1) }
{
    for branch in branches {
        tell_branch(writer, branch)?;
    }
    Ok(())
}

// Writes a line for each intervention.
fn tell_interventions<W: Write, L: Ledger>(
    writer: &mut CountedWriter<W, L>,
    interventions: &[Intervention],
) -> Result<(), Failed>
    ensures bytes { Wrote writer.old.contents writer.new.contents result
        (flat_map intervention_line interventions.now) }
    ensures worked { OnOk result (writer.new.failures ≡ writer.old.failures) }
    ensures failed { OnErr result (writer.new.failures ≡ writer.old.failures + 1) }
{
    for intervention in interventions {
        tell_intervention(writer, intervention)?;
    }
    Ok(())
}

// Writes a line for each bookmark.
fn tell_bookmarks<W: Write, L: Ledger>(
    writer: &mut CountedWriter<W, L>,
    desk: &Desk<'_>,
) -> Result<(), Failed>
    ensures bytes { Wrote writer.old.contents writer.new.contents result
        (flat_map row_line (shown_rows desk.now)) }
    ensures worked { OnOk result (writer.new.failures ≡ writer.old.failures) }
    ensures failed { OnErr result (writer.new.failures ≡ writer.old.failures + 1) }
{
    for (bookmark, text) in desk.rows() {
        tell_bookmark(writer, &bookmark, text.is_some())?;
    }
    Ok(())
}

/// Writes a line for each branch, intervention and bookmark of the desk's document, by rising ids,
/// and then how many these are. A bookmark's line says whether its text is known.
pub(crate) fn tell_list<W: Write, L: Ledger>(
    writer: &mut CountedWriter<W, L>,
    desk: &Desk<'_>,
) -> Result<(), Failed>
    ensures bytes { Wrote writer.old.contents writer.new.contents result
        (listed_text desk.now.plan (has_text desk.now)) }
    ensures worked { OnOk result (writer.new.failures ≡ writer.old.failures) }
    ensures failed { OnErr result (writer.new.failures ≡ writer.old.failures + 1) }
{
    let document = desk.document();
    let (branches, interventions) = (document.branches(), document.interventions());
    let lines = branches.len() + interventions.len() + document.bookmarks().len();
    tell_branches(writer, branches)?;
    tell_interventions(writer, interventions)?;
    tell_bookmarks(writer, desk)?;
    let (word, end) = (Part::Text(b"listed "), Part::Text(b"\n"));
    tell_parts(writer, &[word, Part::Number(lines as u64), end])
}
