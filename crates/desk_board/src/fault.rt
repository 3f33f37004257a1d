//! Why there is no board, or nothing was published.

use basics::{Reason, Refusal};
use std::alloc::{AllocError, AllocFailed};
use thiserror::Error;

/// Why a board wasn't opened.
#[derive(Clone, Copy, Debug, PartialEq, Eq, Error)]
pub enum BoardFault {
    /// A viewer's place was refused.
    #[error("a viewer's place was refused")]
    NoViewer,
    /// Out of memory.
    #[error("there is not enough memory")]
    NoMemory,
}

/// Why a snapshot wasn't published.
#[derive(Clone, Copy, Debug, PartialEq, Eq, Error)]
pub enum PublishFault {
    /// Out of memory.
    #[error("there is not enough memory")]
    NoMemory,
}

impl From<AllocError> for BoardFault {
    ghost use Rattle.std.specs.Prelude.{◌≡◌};
    ghost use Rattle.desk_board.specs.declared.fault.BoardFault.TheVariants.{NoMemory};

    ghost from_gives = { λ _ fault. fault ≡ NoMemory };

    fn from(_error: AllocError) -> BoardFault {
        BoardFault::NoMemory
    }
}

impl<T: Drop> From<AllocFailed<T>> for BoardFault {
    ghost use Rattle.std.specs.Prelude.{◌≡◌};
    ghost use Rattle.desk_board.specs.declared.fault.BoardFault.TheVariants.{NoMemory};

    ghost from_gives = { λ _ fault. fault ≡ NoMemory };

    fn from(_error: AllocFailed<T>) -> BoardFault {
        BoardFault::NoMemory
    }
}

impl From<AllocError> for PublishFault {
    ghost use Rattle.std.specs.Prelude.{◌≡◌};
    ghost use Rattle.desk_board.specs.declared.fault.PublishFault.TheVariants.{NoMemory};

    ghost from_gives = { λ _ fault. fault ≡ NoMemory };

    fn from(_error: AllocError) -> PublishFault {
        PublishFault::NoMemory
    }
}

impl<T: Drop> From<AllocFailed<T>> for PublishFault {
    ghost use Rattle.std.specs.Prelude.{◌≡◌};
    ghost use Rattle.desk_board.specs.declared.fault.PublishFault.TheVariants.{NoMemory};

    ghost from_gives = { λ _ fault. fault ≡ NoMemory };

    fn from(_error: AllocFailed<T>) -> PublishFault {
        PublishFault::NoMemory
    }
}

impl Refusal for BoardFault {
    ghost use Rattle.std.specs.Prelude.{None};
    ghost use Rattle.desk_board.specs.Faults.{board_fault_name, board_fault_number};

    ghost number_of = { board_fault_number };

    ghost name_of = { board_fault_name };

    ghost place_of = { λ _. None };

    fn reason(&self) -> Reason {
        match self {
            BoardFault::NoMemory => Reason::of(70, "NoMemory"),
            BoardFault::NoViewer => Reason::of(75, "NoViewer"),
        }
    }
}

impl Refusal for PublishFault {
    ghost use Rattle.std.specs.Prelude.{None};
    ghost use Rattle.desk_board.specs.Faults.{publish_fault_name, publish_fault_number};

    ghost number_of = { publish_fault_number };

    ghost name_of = { publish_fault_name };

    ghost place_of = { λ _. None };

    fn reason(&self) -> Reason {
        match self {
            PublishFault::NoMemory => Reason::of(70, "NoMemory"),
        }
    }
}
