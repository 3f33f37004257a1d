//! Cells laid on a pattern: only the squares that hold one of them are made anew.
//!
//! They come as spans, of which a text has far fewer than cells. Each square passes the spans that
//! touch it on to its quadrants, as runs of the one list that holds them all, so that nothing is
//! copied and those that lie together share the rows of the squares around them. A row that was made
//! shortly before is found again by its kids, so most squares that repeat are made once.
ghost use Rattle.std.specs.Prelude.{◌≡◌, ◌↔◌, ℕ, ◌-◌, ◌<◌, ◌≤◌, ◌^◌, [], ◌∷◌, ◌++◌, length, take, get_or, All, IfOk, OnOk, IsTrue, pos, ◌+ℤ◌};
ghost use Rattle.plane_core.specs.declared.span.Span.{Span};
ghost use Rattle.plane_core.specs.Rows.{AreRows, IsRow, world_of_rows};
ghost use Rattle.plane_core.specs.Part.{IsOnPlane, IsPart};
ghost use Rattle.plane_core.specs.Spans.{CanBeDrawn, Holds, drawn};
ghost use Rattle.plane_core.specs.Laid.{AddsTouching, AreLaidStates, AreThoseIn, IsLaid, IsMade, IsNamed, LiesIn, RootHolds, Touches, quadrant_of, spans_of_runs, square_of};

use crate::part::{Part, Spot, root_level, side, spans};
use crate::raise::{push_row, quadrants, raise};
use crate::row::SquareRow;
use crate::span::Span;
use crate::walk::walked;
use std::alloc::{AllocError, Global};

// So many spans are drawn at a time, which a processor's caches hold while they are passed down.
const BATCH: usize = 1 << 16;

// Rows that stand there twice are looked for only where there are more rows than this: the walk that
// finds them would cost more than the rows do.
const MANY: usize = 1 << 24;

// At most so many rows are kept in mind, to be found again.
const MOST_HINTS: usize = 1 << 16;

// The column behind the last cell of a span.
pub fn end_of(span: &Span) -> i64
    requires { CanBeDrawn span.now }
    ensures { result ≡ span.now.x +ℤ pos span.now.count }
{
    span.x + i64::from(span.count)
}

// The column behind the last of a square.
fn right_of(part: Part) -> i64
    requires { IsOnPlane part }
    ensures { result ≡ part.corner.x +ℤ pos (2 ^ part.level) }
{
    part.corner.x + side(part.level) as i64
}

// Whether the square holds a cell of the span.
fn touches(part: Part, span: &Span) -> bool
    requires part { IsOnPlane part }
    requires span { CanBeDrawn span.now }
    ensures { IsTrue result ↔ Touches part span.now }
{
    if !spans(part.corner.y, side(part.level), span.y) {
        return false;
    }
    if span.x >= right_of(part) {
        return false;
    }
    part.corner.x < end_of(span)
}

// How many of the spans from the first on touch the square, or how many don't.
fn run_length(part: Part, spans: &[Span], is_near: bool) -> usize
    requires square { IsOnPlane part }
    requires spans { All CanBeDrawn spans.now }
    requires some { 0 < length spans.now }
    requires first { (d : Span) → IsTrue is_near ↔ Touches part (get_or spans.now 0 d) }
    ensures within { (1 ≤ result) × (result ≤ length spans.now) }
    ensures same { All (λ s. IsTrue is_near ↔ Touches part s) (take result spans.now) }
{
    let mut count = 1;
    while count < spans.len() && touches(part, &spans[count]) == is_near {
        count += 1;
    }
    count
}

// Puts those of a run's spans that touch the square on a list.
fn add_touching<'s>(
    part: Part,
    run: &'s [Span],
    found: &mut Vec<&'s [Span]>,
) -> Result<(), AllocError>
    requires square { IsOnPlane part }
    requires spans { All CanBeDrawn run.now }
    ensures { OnOk result (AddsTouching part run.now found.old.items found.new.items) }
{
    let mut rest = run;
    while let Some(first) = rest.first() {
        let is_near = touches(part, first);
        let (here, more) = rest.split_at(run_length(part, rest, is_near));
        if is_near {
            found.push(here)?;
        }
        rest = more;
    }
    Ok(())
}

// The spans that touch the square. Those that follow one another stay together.
fn touching<'s>(
    alloc: Global,
    part: Part,
    runs: &[&'s [Span]],
) -> Result<Vec<&'s [Span]>, AllocError>
    requires square { IsOnPlane part }
    requires spans { All CanBeDrawn (spans_of_runs runs.now) }
    ensures { IfOk result (λ found.
        AreThoseIn part (spans_of_runs runs.now) (spans_of_runs found.items)) }
{
    let mut found = Vec::new(alloc);
    for run in runs {
        add_touching(part, run, &mut found)?;
    }
    Ok(found)
}

// Whether the span has a cell there.
fn holds(span: &Span, spot: Spot) -> bool
    requires { CanBeDrawn span.now }
    ensures { IsTrue result ↔ Holds span.now spot.x spot.y }
{
    if spot.y != span.y {
        return false;
    }
    spans(span.x, u64::from(span.count), spot.x)
}

// The state of a cell after the span is drawn.
fn drawn_state(state: u32, span: &Span, spot: Spot) -> u32
    requires { CanBeDrawn span.now }
    ensures inside { Holds span.now spot.x spot.y → result ≡ span.now.state }
    ensures outside { (Holds span.now spot.x spot.y → ⊥) → result ≡ state }
{
    if holds(span, spot) {
        u32::from(span.state)
    } else {
        state
    }
}

// The states of a square of level 1 after the span is drawn.
fn drawn_states(states: [u32; 4], part: Part, span: &Span) -> [u32; 4]
    requires square { IsOnPlane part × (part.level ≡ 1) }
    requires states { (q : ℕ) → q < 4 → get_or states q 0 < 256 }
    requires span { CanBeDrawn span.now }
    ensures { AreLaidStates part (span.now ∷ []) states result }
{
    [
        drawn_state(states[0], span, part.quadrant_corner(0)),
        drawn_state(states[1], span, part.quadrant_corner(1)),
        drawn_state(states[2], span, part.quadrant_corner(2)),
        drawn_state(states[3], span, part.quadrant_corner(3)),
    ]
}

// The same of spans that are drawn in turn.
fn laid_states(states: [u32; 4], part: Part, spans: &[Span]) -> [u32; 4]
    requires square { IsOnPlane part × (part.level ≡ 1) }
    requires states { (q : ℕ) → q < 4 → get_or states q 0 < 256 }
    requires spans { All CanBeDrawn spans.now }
    ensures { AreLaidStates part spans.now states result }
{
    let mut laid = states;
    for span in spans {
        let next = drawn_states(laid, part, span);
        laid = next;
    }
    laid
}

// The same of runs of spans.
fn laid_runs(states: [u32; 4], part: Part, runs: &[&[Span]]) -> [u32; 4]
    requires square { IsOnPlane part × (part.level ≡ 1) }
    requires states { (q : ℕ) → q < 4 → get_or states q 0 < 256 }
    requires spans { All CanBeDrawn (spans_of_runs runs.now) }
    ensures { AreLaidStates part (spans_of_runs runs.now) states result }
{
    let mut laid = states;
    for run in runs {
        let next = laid_states(laid, part, run);
        laid = next;
    }
    laid
}

// Whether the kids are the same.
fn are_same(a: &[u32; 4], b: &[u32; 4]) -> bool
    ensures { IsTrue result ↔ (a.now ≡ b.now) }
{
    a[0] == b[0] && a[1] == b[1] && a[2] == b[2] && a[3] == b[3]
}

// Whether a number is that of this row.
fn is_number_of(rows: &[SquareRow], number: u32, row: &SquareRow) -> bool
    ensures { IsTrue result → IsNamed rows.now number row.now }
{
    if number == 0 || number as usize > rows.len() {
        return false;
    }
    let there = &rows[number as usize - 1];
    there.level == row.level && are_same(&there.kids, &row.kids)
}

// Which of so many hints, a power of two, is that of a row with these kids.
fn slot(kids: &[u32; 4], count: usize) -> usize {
    let nw = u64::from(kids[0]).wrapping_mul(0x9e37_79b9_7f4a_7c15);
    let ne = u64::from(kids[1]).wrapping_mul(0xd1b5_4a32_d192_ed03);
    let sw = u64::from(kids[2]).wrapping_mul(0xbf58_476d_1ce4_e5b9);
    let se = u64::from(kids[3]).wrapping_mul(0x94d0_49bb_1331_11eb);
    let mix = nw.wrapping_add(ne).wrapping_add(sw).wrapping_add(se);
    (mix >> 32) as usize & count.wrapping_sub(1)
}

// The number of the square of a row: 0 if it is empty, that of an equal row where a hint names one, and
// else that of the row, which is added. A hint is the number of a row that was added shortly before.
pub fn made(rows: &mut Vec<SquareRow>, hints: &mut [u32], row: SquareRow) -> Result<u32, AllocError>
    requires rows { AreRows rows.old.items × (length rows.old.items < 2 ^ 32) }
    requires row { IsRow rows.old.items row }
    ensures { IfOk result (λ n. IsMade rows.old.items rows.new.items row.level n
        (square_of rows.old.items (row.level - 1) row.kids)) }
{
    if are_same(&row.kids, &[0; 4]) {
        return Ok(0);
    }
    let slot = slot(&row.kids, hints.len());
    if slot < hints.len() && is_number_of(rows, hints[slot], &row) {
        return Ok(hints[slot]);
    }
    let number = push_row(rows, row)?;
    if slot < hints.len() {
        hints[slot] = number;
    }
    Ok(number)
}

// Draws spans on a square of level 1, and gives the number of what it becomes.
fn lay_block(
    rows: &mut Vec<SquareRow>,
    hints: &mut [u32],
    part: Part,
    runs: &[&[Span]],
) -> Result<u32, AllocError>
    requires square { IsPart rows.old.items part × (part.level ≡ 1) }
    requires few { length rows.old.items < 2 ^ 32 }
    requires spans { All CanBeDrawn (spans_of_runs runs.now) }
    ensures { IfOk result (λ n. IsLaid rows.old.items rows.new.items part n (spans_of_runs runs.now)) }
{
    let states = quadrants(rows, 1, part.number);
    let row = SquareRow {
        level: 1,
        kids: laid_runs(states, part, runs),
    };
    made(rows, hints, row)
}

// Draws spans on the square, and gives the number of what it becomes. The blocks of a square of level
// 2 are so few that a list for each would cost more than to try all its spans.
fn lay_in(
    alloc: Global,
    rows: &mut Vec<SquareRow>,
    hints: &mut [u32],
    part: Part,
    runs: &[&[Span]],
) -> Result<u32, AllocError>
    requires square { IsPart rows.old.items part × (1 ≤ part.level) }
    requires few { length rows.old.items < 2 ^ 32 }
    requires spans { All CanBeDrawn (spans_of_runs runs.now) }
    ensures { IfOk result (λ n. IsLaid rows.old.items rows.new.items part n (spans_of_runs runs.now)) }
{
    if part.level == 1 {
        return lay_block(rows, hints, part, runs);
    }
    let own = touching(alloc, part, runs)?;
    if own.is_empty() {
        return Ok(part.number);
    }
    let nw = lay_in(alloc, rows, hints, part.quadrant(rows, 0), &own)?;
    let ne = lay_in(alloc, rows, hints, part.quadrant(rows, 1), &own)?;
    let sw = lay_in(alloc, rows, hints, part.quadrant(rows, 2), &own)?;
    let se = lay_in(alloc, rows, hints, part.quadrant(rows, 3), &own)?;
    let row = SquareRow {
        level: part.level,
        kids: [nw, ne, sw, se],
    };
    made(rows, hints, row)
}

// Whether all cells of the span lie in the square.
fn is_in(part: Part, span: &Span) -> bool
    requires part { IsOnPlane part }
    requires span { CanBeDrawn span.now }
    ensures { IsTrue result ↔ LiesIn part span.now }
{
    if !spans(part.corner.y, side(part.level), span.y) {
        return false;
    }
    if span.x < part.corner.x {
        return false;
    }
    end_of(span) <= right_of(part)
}

// Whether the cells of each span lie in the square.
pub fn are_in(part: Part, spans: &[Span]) -> bool
    requires part { IsOnPlane part }
    requires spans { All CanBeDrawn spans.now }
    ensures { IsTrue result → All (LiesIn part) spans.now }
{
    for span in spans {
        if !is_in(part, span) {
            return false;
        }
    }
    true
}

// Raises the root until its square holds the spans.
fn raise_around(rows: &mut Vec<SquareRow>, spans: &[Span]) -> Result<(), AllocError>
    requires rows { AreRows rows.old.items × (length rows.old.items < 2 ^ 32) }
    requires spans { All CanBeDrawn spans.now }
    ensures rows { OnOk result (AreRows rows.new.items × (length rows.new.items < 2 ^ 32)) }
    ensures world { OnOk result (world_of_rows rows.new.items ≡ world_of_rows rows.old.items) }
    ensures holds { OnOk result (RootHolds rows.new.items spans.now) }
{
    while root_level(rows) < 62 {
        if are_in(Part::root(rows), spans) {
            return Ok(());
        }
        raise(rows)?;
    }
    Ok(())
}

// Makes the rows stand for the world after the spans are drawn in turn. The root comes last, also
// where its row was there before.
fn lay_batch(
    alloc: Global,
    rows: &mut Vec<SquareRow>,
    hints: &mut [u32],
    spans: &[Span],
) -> Result<(), AllocError>
    requires rows { AreRows rows.old.items × (length rows.old.items < 2 ^ 32) }
    requires spans { All CanBeDrawn spans.now }
    ensures rows { OnOk result (AreRows rows.new.items × (length rows.new.items < 2 ^ 32)) }
    ensures world { OnOk result
        (world_of_rows rows.new.items ≡ drawn spans.now (world_of_rows rows.old.items)) }
{
    raise_around(rows, spans)?;
    let root = Part::root(rows);
    let number = lay_in(alloc, rows, hints, root, &[spans])?;
    let row = SquareRow {
        level: root.level,
        kids: quadrants(rows, root.level, number),
    };
    push_row(rows, row)?;
    Ok(())
}

// Drops rows that stand there twice or that the root doesn't reach, where there are more than `most`.
// How many there may be the next time: at least twice as many as are left, so that all walks together
// take little more than the last.
fn thinned(alloc: Global, rows: &mut Vec<SquareRow>, most: usize) -> Result<usize, AllocError>
    requires rows { AreRows rows.old.items × (length rows.old.items < 2 ^ 32) }
    ensures rows { OnOk result (AreRows rows.new.items × (length rows.new.items < 2 ^ 32)) }
    ensures world { OnOk result (world_of_rows rows.new.items ≡ world_of_rows rows.old.items) }
{
    if rows.len() <= most {
        return Ok(most);
    }
    *rows = walked(alloc, rows)?;
    Ok(most.max(2 * rows.len()))
}

/// Makes the rows stand for the world after the spans are drawn in turn.
pub fn lay_rows(alloc: Global, rows: &mut Vec<SquareRow>, spans: &[Span]) -> Result<(), AllocError>
    requires rows { AreRows rows.old.items × (length rows.old.items < 2 ^ 32) }
    requires spans { All CanBeDrawn spans.now }
    ensures rows { OnOk result (AreRows rows.new.items × (length rows.new.items < 2 ^ 32)) }
    ensures world { OnOk result
        (world_of_rows rows.new.items ≡ drawn spans.now (world_of_rows rows.old.items)) }
{
    let mut hints = hints_for(alloc, spans.len())?;
    let mut rest = spans;
    let mut most = MANY;
    while rest.len() > BATCH {
        let (batch, more) = rest.split_at(BATCH);
        lay_batch(alloc, rows, &mut hints, batch)?;
        most = thinned(alloc, rows, most)?;
        rest = more;
    }
    lay_batch(alloc, rows, &mut hints, rest)
}

// No hints yet, with room for some of each span.
pub fn hints_for(alloc: Global, count: usize) -> Result<Vec<u32>, AllocError> {
    vec![in alloc; 0u32; (8 * count.min(MOST_HINTS / 8)).next_power_of_two()]
}
