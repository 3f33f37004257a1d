//! Patterns with cells laid on them.
ghost use Rattle.std.specs.Prelude.{◌≡◌, All, IfOk};
ghost use Rattle.worlds.specs.Lay.{lay};
ghost use Rattle.worlds.specs.Range.{CanBeLaid};

use plane_core::{CellSet, Plane};
use std::alloc::AllocError;
use std::marker::Model;

/// A pattern, or what it became when cells were laid on it, which contracts see as its world.
#[derive(Drop)]
pub(crate) struct Laid<'p> {
    before: &'p Plane,
    after: Option<Plane>,
}

impl<'p> Model for Laid<'p> {
    ghost use Rattle.std.specs.Prelude.{unwrap_or};
    ghost use Rattle.worlds.specs.World.{World, coded_world};

    ghost Value = { World };

    ghost coded = { coded_world };

    ghost view = { λ l. unwrap_or l.after l.before.now };
}

impl<'p> Laid<'p> {
    /// Lays cells on a pattern, which is copied only where there are any.
    pub(crate) fn on(plane: &'p Plane, cells: &[CellSet]) -> Result<Laid<'p>, AllocError>
        requires { All CanBeLaid cells.now }
        ensures { IfOk result (λ laid. laid ≡ lay cells.now plane.now) }
    {
        let after = if cells.is_empty() {
            None
        } else {
            Some(plane.lay(cells)?)
        };
        Ok(Laid {
            before: plane,
            after,
        })
    }

    /// The pattern.
    pub(crate) fn plane(&self) -> &Plane
        ensures { result.now ≡ self.now }
    {
        match &self.after {
            Some(plane) => plane,
            None => self.before,
        }
    }
}
