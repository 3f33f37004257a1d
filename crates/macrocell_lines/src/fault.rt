//! Why a macrocell file is refused.
ghost use Rattle.std.specs.Prelude.{◌≡◌};
ghost use Rattle.macrocell_lines.specs.declared.fault.McFault.TheVariants.{NoMemory};

use basics::{Reason, Refusal};
use std::alloc::{AllocError, AllocFailed};
use thiserror::Error;

/// The one fault for which a macrocell file is refused, with the line, counted from 1, where it
/// shows at one.
#[derive(Clone, Copy, Debug, PartialEq, Eq, Error)]
pub enum McFault {
    /// The rule's name asks for a bounded grid.
    #[error("the rule is one of a bounded grid")]
    BoundedGrid,
    /// The first line doesn't begin with `[M2]`.
    #[error("the first line doesn't begin with [M2]")]
    NoM2,
    /// A line is no node, no comment and not blank.
    #[error("line {0}: this is no node")]
    BadRow(u64),
    /// A quadrant is neither 0 nor the number of an earlier node of one level less.
    #[error("line {0}: a quadrant is no earlier node of one level less")]
    BadChild(u64),
    /// A node has a level above 62.
    #[error("a node has a level above 62")]
    TooDeep,
    /// The file holds a timeline of several patterns.
    #[error("the file holds a timeline")]
    Timeline,
    /// There are more than 16,777,216 nodes.
    #[error("there are more than 16,777,216 nodes")]
    NoRoom,
    /// Out of memory.
    #[error("there is not enough memory")]
    NoMemory,
}

impl From<AllocError> for McFault {
    ghost from_gives = { λ _ fault. fault ≡ NoMemory };

    fn from(_error: AllocError) -> McFault {
        McFault::NoMemory
    }
}

impl<T: Drop> From<AllocFailed<T>> for McFault {
    ghost from_gives = { λ _ fault. fault ≡ NoMemory };

    fn from(_error: AllocFailed<T>) -> McFault {
        McFault::NoMemory
    }
}

impl Refusal for McFault {
    ghost use Rattle.macrocell_lines.specs.Faults.{fault_number, fault_name, fault_place};

    ghost number_of = { fault_number };

    ghost name_of = { fault_name };

    ghost place_of = { fault_place };

    fn reason(&self) -> Reason {
        match self {
            McFault::BoundedGrid => Reason::of(23, "BoundedGrid"),
            McFault::NoM2 => Reason::of(30, "NoM2"),
            McFault::BadRow(line) => Reason::at(31, "BadRow", *line),
            McFault::BadChild(line) => Reason::at(32, "BadChild", *line),
            McFault::TooDeep => Reason::of(33, "TooDeep"),
            McFault::Timeline => Reason::of(34, "Timeline"),
            McFault::NoMemory => Reason::of(70, "NoMemory"),
            McFault::NoRoom => Reason::of(71, "NoRoom"),
        }
    }
}
