//! Why a pattern file is refused.
ghost use Rattle.std.specs.Prelude.{◌≡◌};
ghost use Rattle.multistate_rle.specs.declared.fault.RleFault.TheVariants.{NoMemory};

use basics::{Reason, Refusal};
use std::alloc::{AllocError, AllocFailed};
use thiserror::Error;

/// The one fault for which a pattern file is refused, with the offset in the file, counted from 0,
/// where it shows at one.
#[derive(Clone, Copy, Debug, PartialEq, Eq, Error)]
pub enum RleFault {
    /// The first line that is neither blank nor a comment doesn't begin with `x`.
    #[error("there is no header line")]
    NoHeader,
    /// The header is not `x = m, y = n`, with or without `, rule = name` behind it.
    #[error("the header is not `x = m, y = n, rule = name`")]
    BadHeader,
    /// A byte is no item of a pattern, or a prefix has no letter behind it.
    #[error("offset {0}: this is no state and no end of a row")]
    BadRun(u64),
    /// The rule's name asks for a bounded grid.
    #[error("the rule is one of a bounded grid")]
    BoundedGrid,
    /// More than 16,777,216 cells are live.
    #[error("there are more than 16,777,216 live cells")]
    TooManyLive,
    /// A live cell lies outside `-2^61 <= x, y < 2^61`.
    #[error("a cell lies outside the plane")]
    CellOutOfRange,
    /// Out of memory.
    #[error("there is not enough memory")]
    NoMemory,
}

impl From<AllocError> for RleFault {
    ghost from_gives = { λ _ fault. fault ≡ NoMemory };

    fn from(_error: AllocError) -> RleFault {
        RleFault::NoMemory
    }
}

impl<T: Drop> From<AllocFailed<T>> for RleFault {
    ghost from_gives = { λ _ fault. fault ≡ NoMemory };

    fn from(_error: AllocFailed<T>) -> RleFault {
        RleFault::NoMemory
    }
}

impl Refusal for RleFault {
    ghost use Rattle.multistate_rle.specs.Faults.{fault_number, fault_name, fault_place};

    ghost number_of = { fault_number };

    ghost name_of = { fault_name };

    ghost place_of = { fault_place };

    fn reason(&self) -> Reason {
        match self {
            RleFault::NoHeader => Reason::of(20, "NoHeader"),
            RleFault::BadHeader => Reason::of(21, "BadHeader"),
            RleFault::BadRun(offset) => Reason::at(22, "BadRun", *offset),
            RleFault::BoundedGrid => Reason::of(23, "BoundedGrid"),
            RleFault::TooManyLive => Reason::of(24, "TooManyLive"),
            RleFault::CellOutOfRange => Reason::of(41, "CellOutOfRange"),
            RleFault::NoMemory => Reason::of(70, "NoMemory"),
        }
    }
}
