//! Spans in reading order, woven to squares from the bottom up.
//!
//! A level is a list of strips in reading order. Those of one level more come from two rows at a
//! time, which are gone through side by side: four numbers, two of each row, make a square, and
//! where they stay the same for several columns one strip is enough. So a strip costs a few steps,
//! and lists get shorter from level to level. Spans that don't stand in reading order, or lie 2^31
//! or more from the middle, are drawn from the root down instead.
ghost use Rattle.std.specs.Prelude.{◌≡◌, ◌+◌, ◌-◌, ◌*◌, ◌<◌, ◌≤◌, ◌^◌, true, length, All, IfOk, IfSome, OnOk, pos, neg_ℤ, ◌+ℤ◌, ◌≤ℤ◌};
ghost use Rattle.plane_core.specs.Rows.{AreRows};
ghost use Rattle.plane_core.specs.Spans.{CanBeDrawn};
ghost use Rattle.plane_core.specs.Strips.{AreAhead, IsOnward};
ghost use Rattle.plane_core.specs.Woven.{AreMade, AreNumbers, AreRowsOf, AreStripsOf, IsPair, IsRootAround, IsStripOf};

use crate::lay::{are_in, end_of, hints_for, lay_rows, made};
use crate::part::{Part, side};
use crate::raise::push_row;
use crate::row::SquareRow;
use crate::span::Span;
use crate::strip::{Strip, extend, is_in_row, number_at, past, reach_at, row_above};
use std::alloc::{AllocError, Global};

// The numbers nw, ne, sw and se of squares of one level more, up to their column `end`.
#[derive(Clone, Copy)]
struct Pair {
    kids: [u32; 4],
    end: u64,
}

// The squares of one level more from (x, y) on that have the same quadrants, by the strips that are
// left of two rows.
fn pair_at(north: &[Strip], south: &[Strip], x: u64, y: u64) -> Pair
    requires north { AreAhead north.now (2 * x) (2 * y) }
    requires south { AreAhead south.now (2 * x) (2 * y + 1) }
    requires x { 2 * x + 1 < 2 ^ 32 }
    requires y { y ≤ 2 ^ 31 }
    ensures { IsPair north.now south.now x y result.kids result.end }
{
    let nw = reach_at(north, 2 * x, 2 * y);
    let sw = reach_at(south, 2 * x, 2 * y + 1);
    let until = nw.until.min(sw.until);
    if until >= 2 * x + 2 {
        return Pair {
            kids: [nw.number, nw.number, sw.number, sw.number],
            end: until / 2,
        };
    }
    let ne = reach_at(past(north, 2 * x + 1, 2 * y), 2 * x + 1, 2 * y);
    let se = reach_at(past(south, 2 * x + 1, 2 * y + 1), 2 * x + 1, 2 * y + 1);
    Pair {
        kids: [nw.number, ne.number, sw.number, se.number],
        end: x + 1,
    }
}

// The strips of one level more.
fn doubled(
    alloc: Global,
    rows: &mut Vec<SquareRow>,
    hints: &mut [u32],
    level: u8,
    strips: &[Strip],
) -> Result<Vec<Strip>, AllocError>
    requires rows { AreRows rows.old.items × (length rows.old.items < 2 ^ 32) }
    requires level { (1 ≤ level) × (level ≤ 62) }
    requires numbers { AreNumbers rows.old.items (level - 1) strips.now }
    ensures { IfOk result (λ made.
        AreMade rows.old.items rows.new.items level strips.now made.items) }
{
    let mut found = Vec::new(alloc);
    let mut north = strips;
    let mut south = strips;
    let mut x = 0;
    let mut y = 0;
    'squares: loop {
        north = past(north, 2 * x, 2 * y);
        south = past(south, 2 * x, 2 * y + 1);
        if is_in_row(north, 2 * y) || is_in_row(south, 2 * y + 1) {
            let Pair { kids, end } = pair_at(north, south, x, y);
            let number = made(rows, hints, SquareRow { level, kids })?;
            let strip = Strip {
                x: x as u32,
                end: end as u32,
                y: y as u32,
                number,
            };
            extend(&mut found, strip)?;
            x = end;
        } else {
            let Some(first) = south.first() else {
                return Ok(found);
            };
            x = 0;
            y = row_above(first);
            north = south;
        }
    }
}

// The column or row of level 0 that has this coordinate, where it lies within 2^31 of the middle.
fn index_of(z: i64) -> Option<u32>
    requires low { neg_ℤ (pos (2 ^ 61)) ≤ℤ z }
    requires high { z ≤ℤ pos (2 ^ 61) }
    ensures { IfSome result (λ n. pos n ≡ z +ℤ pos (2 ^ 31)) }
{
    let far = z + (1 << 31);
    if far < 0 || far >= 1 << 32 {
        return None;
    }
    Some(far as u32)
}

// The strip of the cells of a span, where they lie within 2^31 of the middle.
fn strip_of(span: &Span) -> Option<Strip>
    requires { CanBeDrawn span.now }
    ensures { IfSome result (λ strip. IsStripOf span.now strip) }
{
    Some(Strip {
        x: index_of(span.x)?,
        end: index_of(end_of(span))?,
        y: index_of(span.y)?,
        number: u32::from(span.state),
    })
}

// Whether a strip begins at (x, y) or behind it.
fn is_onward(x: u32, y: u32, strip: &Strip) -> bool
    ensures { result ≡ true → IsOnward x y strip.now.x strip.now.y }
{
    if strip.y == y {
        strip.x >= x
    } else {
        strip.y > y
    }
}

// The strips of spans that stand in reading order.
fn strips_of(alloc: Global, spans: &[Span]) -> Result<Option<Vec<Strip>>, AllocError>
    requires { All CanBeDrawn spans.now }
    ensures { IfOk result (λ found. IfSome found (λ strips. AreStripsOf spans.now strips.items)) }
{
    let mut strips = Vec::with_capacity(alloc, spans.len())?;
    let mut x = 0;
    let mut y = 0;
    for span in spans {
        let Some(strip) = strip_of(span) else {
            return Ok(None);
        };
        if !is_onward(x, y, &strip) {
            return Ok(None);
        }
        extend(&mut strips, strip)?;
        x = strip.end;
        y = strip.y;
    }
    Ok(Some(strips))
}

// Whether the strips are those of at most four squares around the middle.
fn are_around(strips: &[Strip], middle: u64) -> bool
    requires { middle ≤ 2 ^ 62 }
{
    if strips.len() > 4 {
        return false;
    }
    for strip in strips {
        if u64::from(strip.x) + 1 < middle || u64::from(strip.end) > middle + 1 {
            return false;
        }
        if u64::from(strip.y) + 1 < middle || u64::from(strip.y) > middle {
            return false;
        }
    }
    true
}

// Adds the root around the four squares in the middle.
fn push_root(rows: &mut Vec<SquareRow>, level: u8, strips: &[Strip]) -> Result<(), AllocError>
    requires rows { AreRows rows.old.items × (length rows.old.items < 2 ^ 32) }
    requires level { level ≤ 31 }
    requires numbers { AreNumbers rows.old.items level strips.now }
    ensures { OnOk result (IsRootAround rows.old.items rows.new.items level strips.now) }
{
    let middle = side(31 - level);
    let kids = [
        number_at(strips, middle - 1, middle - 1),
        number_at(strips, middle, middle - 1),
        number_at(strips, middle - 1, middle),
        number_at(strips, middle, middle),
    ];
    let level = level + 1;
    push_row(rows, SquareRow { level, kids })?;
    Ok(())
}

// The rows of spans that stand in reading order, within 2^31 of the middle.
fn woven(alloc: Global, spans: &[Span]) -> Result<Option<Vec<SquareRow>>, AllocError>
    requires { All CanBeDrawn spans.now }
    ensures { IfOk result (λ found. IfSome found (λ rows. AreRowsOf spans.now rows.items)) }
{
    let Some(mut strips) = strips_of(alloc, spans)? else {
        return Ok(None);
    };
    let mut hints = hints_for(alloc, spans.len())?;
    let mut rows = Vec::new(alloc);
    let mut level = 0;
    while level < 31 && !are_around(&strips, side(31 - level)) {
        level += 1;
        strips = doubled(alloc, &mut rows, &mut hints, level, &strips)?;
    }
    push_root(&mut rows, level, &strips)?;
    if are_in(Part::root(&rows), spans) {
        Ok(Some(rows))
    } else {
        Ok(None)
    }
}

/// Rows that stand for the world with the cells of these spans alone.
pub fn rows_of(alloc: Global, spans: &[Span]) -> Result<Vec<SquareRow>, AllocError>
    requires { All CanBeDrawn spans.now }
    ensures { IfOk result (λ rows. AreRowsOf spans.now rows.items) }
{
    if let Some(rows) = woven(alloc, spans)? {
        return Ok(rows);
    }
    let mut rows = Vec::new(alloc);
    lay_rows(alloc, &mut rows, spans)?;
    Ok(rows)
}
