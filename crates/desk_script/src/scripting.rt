//! A document as a script that makes it anew.
//!
//! Each branch, bookmark and intervention gets its own id again: for an id that none has any more
//! one is added and removed.
ghost use Rattle.std.specs.Prelude.{◌≡◌, ◌++◌, IfOk, OnOk, flat_map, codes, decimal};
ghost use Rattle.replay_laws.specs.Replay.{add_all, ids_between};
ghost use Rattle.replay_laws.specs.Replay.{add_bookmark, add_branch, add_intervention};
ghost use Rattle.replay_laws.specs.Replay.{skip_bookmark, skip_branch, skip_intervention};
ghost use Rattle.schedule.specs.Ids.{bookmark_id, branch_id, intervention_id};
ghost use Rattle.desk_script.specs.Scripted.{acts_words, view_words, cell_words, edit_line};
ghost use Rattle.desk_script.specs.Scripted.{edit_lines, rule_lines, script_text, skip_lines};
ghost use Rattle.desk_script.specs.Scripted.{start_lines};

use crate::part::{Part, push_parts};
use crate::rule_text::RuleText;
use multistate_macrocell::write_mc;
use schedule::{Acts, Bookmark, Branch, CellSet, Document, Intervention, Listing, View};
use std::alloc::{AllocError, Global};

// Adds the lines that take the rule.
fn push_rule(script: &mut Vec<u8>, rule: &RuleText) -> Result<(), AllocError>
    ensures { OnOk result (script.new.items ≡ script.old.items ++ rule_lines rule.now) }
{
    let Some(text) = rule.bytes() else {
        return Ok(());
    };
    push_parts(
        script,
        &[
            Part::Text(b"rule\n"),
            Part::Text(text),
            Part::Text(b"end\n"),
        ],
    )
}

// Adds the lines that take the start.
fn push_start(alloc: Global, script: &mut Vec<u8>, document: &Document) -> Result<(), AllocError>
    ensures { OnOk result (script.new.items ≡ script.old.items ++ start_lines document.now) }
{
    let text = write_mc(alloc, document.start(), document.rule().name(), 0)?;
    push_parts(
        script,
        &[
            Part::Text(b"start mc\n"),
            Part::Text(&text),
            Part::Text(b"end\n"),
        ],
    )
}

// Adds these two lines for each id between two: one that adds what gets it, and one that removes
// that.
fn push_skipped<'a>(
    script: &mut Vec<u8>,
    adds: &'a [u8],
    removes: &'a [u8],
    last: u64,
    id: u64,
) -> Result<(), AllocError>
    ensures { OnOk result (script.new.items ≡ script.old.items
        ++ flat_map (skip_lines adds.now removes.now) (ids_between last id)) }
{
    for skipped in last.saturating_add(1)..id {
        push_parts(
            script,
            &[
                Part::Text(adds),
                Part::Text(removes),
                Part::Number(skipped),
                Part::Text(b"\n"),
            ],
        )?;
    }
    Ok(())
}

// Adds the line that adds a branch.
fn push_branch(script: &mut Vec<u8>, branch: &Branch) -> Result<(), AllocError>
    ensures { OnOk result
        (script.new.items ≡ script.old.items ++ edit_line (add_branch branch.now)) }
{
    push_parts(
        script,
        &[
            Part::Text(b"branch "),
            Part::Number(branch.parent),
            Part::Text(b" "),
            Part::Number(branch.fork),
            Part::Text(b"\n"),
        ],
    )
}

// Adds a view, in the words that `mark` takes.
fn push_view(script: &mut Vec<u8>, view: &View) -> Result<(), AllocError>
    ensures { OnOk result (script.new.items ≡ script.old.items ++ view_words view.now) }
{
    match *view {
        View::Counts => push_parts(script, &[Part::Text(b"counts")]),
        View::Rle => push_parts(script, &[Part::Text(b"rle")]),
        View::Macrocell => push_parts(script, &[Part::Text(b"mc")]),
        View::Window {
            left,
            top,
            width,
            height,
        } => push_parts(
            script,
            &[
                Part::Text(b"window "),
                Part::Signed(left),
                Part::Text(b" "),
                Part::Signed(top),
                Part::Text(b" "),
                Part::Number(u64::from(width)),
                Part::Text(b" "),
                Part::Number(u64::from(height)),
            ],
        ),
    }
}

// Adds the line that adds a bookmark.
fn push_bookmark(script: &mut Vec<u8>, bookmark: &Bookmark) -> Result<(), AllocError>
    ensures { OnOk result
        (script.new.items ≡ script.old.items ++ edit_line (add_bookmark bookmark.now)) }
{
    push_parts(
        script,
        &[
            Part::Text(b"on "),
            Part::Number(bookmark.branch),
            Part::Text(b" mark "),
            Part::Number(bookmark.generation),
            Part::Text(b" "),
        ],
    )?;
    push_view(script, &bookmark.view)?;
    push_parts(script, &[Part::Text(b"\n")])
}

// Adds when an intervention acts.
fn push_acts(script: &mut Vec<u8>, acts: &Acts) -> Result<(), AllocError>
    ensures { OnOk result (script.new.items ≡ script.old.items ++ acts_words acts.now) }
{
    match *acts {
        Acts::Once { generation } => push_parts(
            script,
            &[Part::Text(b" at "), Part::Number(generation)],
        ),
        Acts::Every { first, every, last } => push_parts(
            script,
            &[
                Part::Text(b" every "),
                Part::Number(every),
                Part::Text(b" "),
                Part::Number(first),
                Part::Text(b" "),
                Part::Number(last),
            ],
        ),
    }
}

// Adds a cell and its state.
fn push_cell(script: &mut Vec<u8>, cell: &CellSet) -> Result<(), AllocError>
    ensures { OnOk result (script.new.items ≡ script.old.items ++ cell_words cell.now) }
{
    push_parts(
        script,
        &[
            Part::Text(b" "),
            Part::Signed(cell.x),
            Part::Text(b" "),
            Part::Signed(cell.y),
            Part::Text(b" "),
            Part::Number(u64::from(cell.state)),
        ],
    )
}

// Adds cells and their states.
fn push_cells(script: &mut Vec<u8>, cells: &[CellSet]) -> Result<(), AllocError>
    ensures { OnOk result (script.new.items ≡ script.old.items ++ flat_map cell_words cells.now) }
{
    for cell in cells {
        push_cell(script, cell)?;
    }
    Ok(())
}

// Adds the line that inserts an intervention.
fn push_intervention(script: &mut Vec<u8>, intervention: &Intervention) -> Result<(), AllocError>
    ensures { OnOk result
        (script.new.items ≡ script.old.items ++ edit_line (add_intervention intervention.now)) }
{
    push_parts(
        script,
        &[Part::Text(b"on "), Part::Number(intervention.branch)],
    )?;
    push_acts(script, &intervention.acts)?;
    push_parts(script, &[Part::Text(b" set")])?;
    push_cells(script, intervention.cells.as_slice())?;
    push_parts(script, &[Part::Text(b"\n")])
}

// Adds the lines that add the branches.
fn push_branches(script: &mut Vec<u8>, branches: &[Branch]) -> Result<(), AllocError>
    ensures { OnOk result (script.new.items ≡ script.old.items
        ++ edit_lines (add_all branch_id skip_branch add_branch 0 branches.now)) }
{
    let mut last = 0;
    for branch in branches {
        push_skipped(script, b"branch 0 0\n", b"unbranch ", last, branch.id)?;
        push_branch(script, branch)?;
        last = branch.id;
    }
    Ok(())
}

// Adds those that add the bookmarks.
fn push_bookmarks(script: &mut Vec<u8>, bookmarks: &[Bookmark]) -> Result<(), AllocError>
    ensures { OnOk result (script.new.items ≡ script.old.items
        ++ edit_lines (add_all bookmark_id skip_bookmark add_bookmark 0 bookmarks.now)) }
{
    let mut last = 0;
    for bookmark in bookmarks {
        push_skipped(
            script,
            b"on 0 mark 0 counts\n",
            b"unmark ",
            last,
            bookmark.id,
        )?;
        push_bookmark(script, bookmark)?;
        last = bookmark.id;
    }
    Ok(())
}

// Adds those that insert the interventions.
fn push_interventions(
    script: &mut Vec<u8>,
    interventions: &[Intervention],
) -> Result<(), AllocError>
    ensures { OnOk result (script.new.items ≡ script.old.items ++ edit_lines
        (add_all intervention_id skip_intervention add_intervention 0 interventions.now)) }
{
    let mut last = 0;
    for intervention in interventions {
        push_skipped(
            script,
            b"on 0 at 0 set 0 0 0\n",
            b"drop ",
            last,
            intervention.id,
        )?;
        push_intervention(script, intervention)?;
        last = intervention.id;
    }
    Ok(())
}

/// The script that makes the document anew whose rule has this text.
pub fn script_of(
    alloc: Global,
    document: &Document,
    rule: &RuleText,
) -> Result<Listing<u8>, AllocError>
    ensures { IfOk result (λ script. script ≡ script_text rule.now document.now) }
{
    let mut script = Vec::new(alloc);
    push_rule(&mut script, rule)?;
    push_start(alloc, &mut script, document)?;
    push_branches(&mut script, document.branches())?;
    push_bookmarks(&mut script, document.bookmarks())?;
    push_interventions(&mut script, document.interventions())?;
    Ok(Listing::from_vec(script))
}
