//! Why a square isn't made.

use basics::{Reason, Refusal};
use std::alloc::AllocError;
use thiserror::Error;

/// Why a table has no square for what was asked.
#[derive(Clone, Copy, Debug, PartialEq, Eq, Error)]
pub enum TableFault {
    /// The table held as many squares as it may.
    #[error("there is no room for another square")]
    NoRoom,
    /// A growth was refused.
    #[error("there is no memory")]
    NoMemory,
}

impl Refusal for TableFault {
    ghost use Rattle.std.specs.Prelude.{None};
    ghost use Rattle.square_table.specs.Faults.{number_of, name_of};

    ghost number_of = { number_of };

    ghost name_of = { name_of };

    ghost place_of = { λ _. None };

    fn reason(&self) -> Reason {
        match self {
            TableFault::NoMemory => Reason::of(70, "NoMemory"),
            TableFault::NoRoom => Reason::of(71, "NoRoom"),
        }
    }
}

impl From<AllocError> for TableFault {
    ghost use Rattle.std.specs.Prelude.{◌≡◌};
    ghost use Rattle.square_table.specs.declared.fault.TableFault.TheVariants.{NoMemory};

    ghost from_gives = { λ _ fault. fault ≡ NoMemory };

    fn from(_error: AllocError) -> TableFault {
        TableFault::NoMemory
    }
}
