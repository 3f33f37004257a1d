//! Why an engine refuses.

use basics::{Reason, Refusal};
use hash_engine::ResultFault;
use square_table::TableFault;
use std::alloc::AllocError;
use thiserror::Error;

/// Why a pattern was not evolved.
#[derive(Clone, Copy, Debug, PartialEq, Eq, Error)]
pub enum EvolveFault {
    /// The engine held as many squares as it may.
    #[error("there is no room for another square")]
    NoRoom,
    /// The computation was told to stop.
    #[error("the computation was stopped")]
    Stopped,
    /// A growth was refused.
    #[error("there is no memory")]
    NoMemory,
}

impl Refusal for EvolveFault {
    ghost use Rattle.std.specs.Prelude.{None};
    ghost use Rattle.step_engine.specs.Evolved.{number_of, name_of};

    ghost number_of = { number_of };

    ghost name_of = { name_of };

    ghost place_of = { λ _. None };

    fn reason(&self) -> Reason {
        match self {
            EvolveFault::NoMemory => Reason::of(70, "NoMemory"),
            EvolveFault::NoRoom => Reason::of(71, "NoRoom"),
            EvolveFault::Stopped => Reason::of(72, "Stopped"),
        }
    }
}

impl From<AllocError> for EvolveFault {
    ghost use Rattle.std.specs.Prelude.{◌≡◌};
    ghost use Rattle.step_engine.specs.declared.evolved.EvolveFault.TheVariants.{NoMemory};

    ghost from_gives = { λ _ fault. fault ≡ NoMemory };

    fn from(_error: AllocError) -> EvolveFault {
        EvolveFault::NoMemory
    }
}

impl From<TableFault> for EvolveFault {
    ghost use Rattle.std.specs.Prelude.{◌≡◌};
    ghost use Rattle.step_engine.specs.Evolved.{of_table};

    ghost from_gives = { λ inner fault. fault ≡ of_table inner };

    fn from(inner: TableFault) -> EvolveFault {
        match inner {
            TableFault::NoRoom => EvolveFault::NoRoom,
            TableFault::NoMemory => EvolveFault::NoMemory,
        }
    }
}

impl From<ResultFault> for EvolveFault {
    ghost use Rattle.std.specs.Prelude.{◌≡◌};
    ghost use Rattle.step_engine.specs.Evolved.{of_result};

    ghost from_gives = { λ inner fault. fault ≡ of_result inner };

    fn from(inner: ResultFault) -> EvolveFault {
        match inner {
            ResultFault::Table(inner) => EvolveFault::from(inner),
            ResultFault::Stopped => EvolveFault::Stopped,
        }
    }
}
