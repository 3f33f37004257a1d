//! The rows of marks.
ghost use Rattle.std.specs.Prelude.{◌≡◌};
ghost use Rattle.std.specs.Arc.{arc_value};

use crate::row::{Key, Row};
use desk_events::Mark;
use document_marks::rank_of;
use schedule::Plane;
use std::marker::Model;
use std::sync::Arc;

/// The pattern that arrives at a mark, shared, which contracts see as its world.
pub(crate) struct Arrival {
    plane: Arc<Plane>,
}

// Written out, as a derived one is proved again wherever an arrival is dropped.
impl Drop for Arrival {
    fn drop(self) {
        let Arrival { plane: _ } = self;
    }
}

impl Model for Arrival {
    ghost use Rattle.worlds.specs.World.{World, coded_world};

    ghost Value = { World };

    ghost coded = { coded_world };

    ghost use Rattle.std.specs.Arc.{arc_value};

    ghost view = { λ a. arc_value a.plane };
}

impl Arrival {
    /// The arrival of a pattern.
    pub(crate) fn of(plane: Arc<Plane>) -> Arrival
        ensures { result ≡ arc_value plane }
    {
        Arrival { plane }
    }

    /// The pattern.
    pub(crate) fn plane(&self) -> &Arc<Plane>
        ensures { arc_value result.now ≡ self.now }
    {
        &self.plane
    }
}

/// A mark with what arrives there, or the job that is out for it.
pub(crate) type ArrivalRow = Row<Mark, Arrival>;

impl Key for Mark {
    ghost use Rattle.document_marks.specs.AllMarks.{mark_rank};

    ghost rank = { mark_rank };

    fn rank(&self) -> u128 {
        rank_of(*self)
    }
}
