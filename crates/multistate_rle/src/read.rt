//! Reading a pattern file.
ghost use Rattle.std.specs.Prelude.{◌≡◌, Err, IsOk};
ghost use Rattle.basics.specs.Results.{Gives};
ghost use Rattle.multistate_rle.specs.Pattern.{HasNoFaultAnywhere, IsFaultAnywhere, MayWant, drawn_by, pattern_of, unplaced};

use crate::comment::{Origin, plain_origin};
use crate::drawing::Drawing;
use crate::fault::RleFault;
use crate::head::read_head;
use crate::symbol::{Symbol, Symbols};
use basics::Listing;
use plane_core::{Loaded, Plane};
use std::alloc::Global;

/// Reads a pattern in multi-state run length encoded text, as Golly writes it.
///
/// Lines before the header that begin with `#` are comments, of which `#CXRLE` gives the place of
/// the top left cell and the generation. The header is `x = m, y = n`, with or without
/// `, rule = name`, else the file is refused by NoHeader or BadHeader, and by BoundedGrid where
/// the name has a colon. A byte of the body that is no item is refused by BadRun, more than
/// 16,777,216 live cells by TooManyLive, and a cell outside `-2^61 <= x, y < 2^61` by
/// CellOutOfRange, in this order. NoMemory comes only where there was no memory, and last: a fault of
/// the file is the answer where it has one. A `#CXRLE` comment that found no memory leaves open
/// whether cells are out of range, and nothing else.
pub fn read_rle(alloc: Global, text: &[u8]) -> Result<Loaded, RleFault>
    ensures pattern { Gives RleFault.NoMemory result (pattern_of text.now) }
    ensures no_memory { result ≡ Err RleFault.NoMemory → MayWant text.now }
{
    let head = read_head(alloc, text)?;
    let symbols = Symbols::new(text, head.len);
    let Some(origin) = head.origin else {
        return Err(fault_anywhere(alloc, symbols));
    };
    let plane = read_body(alloc, origin, symbols)?;
    let mut name = Vec::new(alloc);
    name.extend_from_slice(head.name)?;
    Ok(Loaded {
        plane,
        rule_name: Listing::from_vec(name),
        generation: origin.generation,
    })
}

// The fault that a body has wherever its pattern lies. NoMemory where it has none, since
// there was no memory to learn where it lies.
#[tactic(auto, using(crate::proofs::Anywhere::fault_told_anywhere))]
fn fault_anywhere(alloc: Global, symbols: Symbols) -> RleFault
    ensures fault { IsFaultAnywhere result symbols.entry }
    ensures no_memory { result ≡ RleFault.NoMemory → HasNoFaultAnywhere symbols.entry }
{
    if let Err(fault) = read_body(alloc, plain_origin(), symbols) {
        return unplaced(fault);
    }
    RleFault::NoMemory
}

// The fault of a body, if its place has no part in it, and else NoMemory.
fn unplaced(fault: RleFault) -> RleFault
    ensures { result ≡ unplaced fault }
{
    match fault {
        RleFault::BadRun(_) | RleFault::TooManyLive => fault,
        _ => RleFault::NoMemory,
    }
}

// The plane that the symbols of a body draw.
fn read_body(alloc: Global, origin: Origin, symbols: Symbols) -> Result<Plane, RleFault>
    ensures plane { Gives RleFault.NoMemory result (drawn_by origin symbols.entry) }
    ensures no_memory { result ≡ Err RleFault.NoMemory → IsOk (drawn_by origin symbols.entry) }
{
    let mut symbols = symbols;
    let mut drawing = Drawing::new(alloc, origin);
    let mut count = 0u64;
    while let Some(symbol) = symbols.next() {
        match symbol {
            Symbol::Digit(digit) => {
                count = count.saturating_mul(10).saturating_add(u64::from(digit));
            }
            Symbol::Cell(state) => {
                drawing.draw(count.max(1), state);
                count = 0;
            }
            Symbol::RowEnd => {
                drawing.end_rows(count.max(1));
                count = 0;
            }
            Symbol::End => break,
            Symbol::Unknown(offset) => return Err(RleFault::BadRun(offset)),
        }
    }
    drawing.plane()
}
