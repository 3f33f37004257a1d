//! The live cells of one generation.
ghost use Rattle.std.specs.Prelude.{◌≡◌, ◌<◌, All, IfOk, IfSome, IfNone, map};
ghost use Rattle.worlds.specs.World.{cell};
ghost use Rattle.worlds.specs.Step.{around, step};
ghost use Rattle.worlds.specs.Range.{IsInside, HasMargin, AllBelow};
ghost use Rattle.plain_steps.specs.Listed.{as_set};

use crate::asked::{Asked, ask_around};
use crate::room::{patch_around, set_all};
use crate::spot::{OFFSETS, Spot};
use plane_core::{Around, Cell, CellSet, Next, Plane};
use square_tree::Patch;
use std::alloc::{AllocError, Global};
use std::marker::Model;

/// The live cells of a world, which is what contracts see: a list to go through, and a patch in
/// which to look one up.
pub struct Generation {
    cells: Vec<CellSet>,
    patch: Patch<Global>,
}

// Written out, as a derived one is proved again at each exit of a function that has one.
impl Drop for Generation {
    fn drop(self) {
        let Generation { cells: _, patch: _ } = self;
    }
}

impl Model for Generation {
    ghost use Rattle.worlds.specs.World.{World, coded_world, blank};
    ghost use Rattle.worlds.specs.Lay.{lay};
    ghost use Rattle.plain_steps.specs.Generation.{AreTogether};

    ghost Value = { World };

    ghost coded = { coded_world };

    ghost view = { λ g. lay g.cells.items blank };

    ghost invariant = { λ g. AreTogether g.cells.items g.patch };
}

// The cells as they are laid.
fn sets_of(alloc: Global, cells: &[Cell]) -> Result<Vec<CellSet>, AllocError>
    ensures items { IfOk result (λ sets. sets.items ≡ map as_set cells.now) }
    ensures states { IfOk result (λ sets. All (λ c. c.state < 256) sets.items) }
{
    let mut sets = Vec::with_capacity(alloc, cells.len())?;
    for cell in cells {
        sets.push(CellSet {
            x: cell.x,
            y: cell.y,
            state: u16::from(cell.state),
        })?;
    }
    Ok(sets)
}

impl Generation {
    /// The live cells of a plane; those of a plane with more than a list may have are refused.
    pub fn of(alloc: Global, plane: &Plane) -> Result<Generation, AllocError>
        requires { HasMargin 1 plane.now }
        ensures { IfOk result (λ generation. generation ≡ plane.now) }
    {
        match plane.live(u32::MAX)? {
            None => Err(AllocError),
            Some(live) => {
                let cells = sets_of(alloc, &live)?;
                let mut patch = patch_around(alloc, &cells);
                set_all(&mut patch, &cells)?;
                Ok(Generation { cells, patch })
            }
        }
    }

    /// The plane with these live cells.
    pub fn plane(&self, alloc: Global) -> Result<Plane, AllocError>
        requires { HasMargin 0 self.now }
        ensures { IfOk result (λ plane. plane ≡ self.now) }
    {
        Plane::empty(alloc).lay(&self.cells)
    }

    /// The state of a cell.
    pub(crate) fn state(&self, spot: Spot) -> u8
        ensures { result ≡ cell self.now spot.x spot.y }
    {
        if self.patch.holds(spot.x, spot.y) {
            self.patch.get(spot.x, spot.y).unwrap_or(0)
        } else {
            0
        }
    }

    /// The states at and around a place.
    pub(crate) fn states_around(&self, spot: Spot) -> Around
        requires { IsInside 0 spot.x spot.y }
        ensures { result.0 ≡ around self.now spot.x spot.y }
    {
        let mut states = [0; 9];
        for (i, offset) in OFFSETS.iter().enumerate() {
            states[i] = self.state(Spot {
                x: spot.x + offset.x,
                y: spot.y + offset.y,
            });
        }
        Around(states)
    }
}

/// The next generation, None where it is the present one.
pub fn next_generation<R: Next>(
    alloc: Global,
    rule: &R,
    now: &Generation,
) -> Result<Option<Generation>, AllocError>
    requires below { AllBelow (R.state_count rule.now) now.now }
    requires fits { HasMargin 1 now.now }
    ensures later { IfOk result (λ found.
        IfSome found (λ g. g ≡ step (R.meaning rule.now) now.now)) }
    ensures still { IfOk result (λ found.
        IfNone found (step (R.meaning rule.now) now.now ≡ now.now)) }
{
    let mut asked = Asked::nothing(alloc, patch_around(alloc, &now.cells));
    for cell in &now.cells {
        let spot = Spot {
            x: cell.x,
            y: cell.y,
        };
        ask_around(rule, now, &mut asked, spot)?;
    }
    if asked.is_still {
        return Ok(None);
    }
    Ok(Some(Generation {
        cells: asked.cells,
        patch: asked.patch,
    }))
}
