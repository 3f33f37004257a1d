//! Asking the rule, once at each place.
ghost use Rattle.std.specs.Prelude.{◌≡◌, ℕ, List, [], ◌∷◌, OnOk};
ghost use Rattle.worlds.specs.World.{World};
ghost use Rattle.worlds.specs.Step.{places_around};
ghost use Rattle.worlds.specs.Range.{IsInside, AllBelow};
ghost use Rattle.square_tree.specs.Cells.{blank, IsHeld};
ghost use Rattle.plain_steps.specs.Asked.{HasAsked, AsksMore, IsNoted};
ghost use Rattle.plain_steps.specs.Room.{HasRoomAround};

use crate::generation::Generation;
use crate::spot::{OFFSETS, Spot};
use plane_core::{CellSet, Next};
use square_tree::Patch;
use std::alloc::{AllocError, Global};

/// What the rule has answered so far on the way to the next generation.
#[derive(Drop)]
pub(crate) struct Asked {
    /// The live cells of the next generation, as far as they are known.
    pub(crate) cells: Vec<CellSet>,
    /// Each answer, also where it is 0, which tells the places that were asked from the others.
    pub(crate) patch: Patch<Global>,
    /// Whether each answer was the state that the cell had.
    pub(crate) is_still: bool,
}

impl Asked {
    /// Nothing yet.
    pub(crate) fn nothing(alloc: Global, patch: Patch<Global>) -> Asked
        requires { patch ≡ blank patch.level }
        ensures patch { result.patch ≡ patch }
        ensures none { (next : List ℕ → ℕ) (w : World) → HasAsked next w [] result }
    {
        Asked {
            cells: Vec::new(alloc),
            patch,
            is_still: true,
        }
    }

    // Adds an answer at a place where the rule wasn't asked yet.
    fn note(&mut self, spot: Spot, before: u8, state: u8) -> Result<(), AllocError>
        requires { IsHeld self.old.patch.level spot.x spot.y }
        ensures { OnOk result (IsNoted spot.x spot.y before state self.old self.new) }
    {
        self.patch.set(spot.x, spot.y, state)?;
        if before != state {
            self.is_still = false;
        }
        if state != 0 {
            self.cells.push(CellSet {
                x: spot.x,
                y: spot.y,
                state: u16::from(state),
            })?;
        }
        Ok(())
    }
}

// Asks the rule at a place, unless it was asked there.
fn ask_at<R: Next>(
    rule: &R,
    now: &Generation,
    asked: &mut Asked,
    spot: Spot,
) -> Result<(), AllocError>
    requires below { AllBelow (R.state_count rule.now) now.now }
    requires inside { IsInside 0 spot.x spot.y }
    requires held { IsHeld asked.old.patch.level spot.x spot.y }
    ensures { OnOk result
        (AsksMore (R.meaning rule.now) now.now ((spot.y, spot.x) ∷ []) asked.old asked.new) }
{
    if asked.patch.get(spot.x, spot.y).is_some() {
        return Ok(());
    }
    let states = now.states_around(spot);
    let before = now.state(spot);
    asked.note(spot, before, rule.next(&states))?;
    Ok(())
}

/// Asks the rule at a place and at those around it.
pub(crate) fn ask_around<R: Next>(
    rule: &R,
    now: &Generation,
    asked: &mut Asked,
    spot: Spot,
) -> Result<(), AllocError>
    requires below { AllBelow (R.state_count rule.now) now.now }
    requires inside { IsInside 1 spot.x spot.y }
    requires room { HasRoomAround asked.old.patch.level spot.x spot.y }
    ensures { OnOk result (AsksMore (R.meaning rule.now) now.now
        (places_around (spot.y, spot.x)) asked.old asked.new) }
{
    for offset in &OFFSETS {
        let place = Spot {
            x: spot.x + offset.x,
            y: spot.y + offset.y,
        };
        ask_at(rule, now, asked, place)?;
    }
    Ok(())
}
