//! Why a result isn't found.

use square_table::TableFault;
use std::alloc::AllocError;
use thiserror::Error;

/// Why a square has no result.
#[derive(Clone, Copy, Debug, PartialEq, Eq, Error)]
pub enum ResultFault {
    /// The table has no square for what was asked.
    #[error("{0}")]
    Table(TableFault),
    /// The computation was told to stop.
    #[error("the computation was stopped")]
    Stopped,
}

impl From<TableFault> for ResultFault {
    ghost use Rattle.std.specs.Prelude.{◌≡◌};
    ghost use Rattle.hash_engine.specs.declared.fault.ResultFault.TheVariants.{Table};

    ghost from_gives = { λ inner fault. fault ≡ Table inner };

    fn from(inner: TableFault) -> ResultFault {
        ResultFault::Table(inner)
    }
}

impl From<AllocError> for ResultFault {
    ghost use Rattle.std.specs.Prelude.{◌≡◌};
    ghost use Rattle.square_table.specs.declared.fault.TableFault.TheVariants.{NoMemory};
    ghost use Rattle.hash_engine.specs.declared.fault.ResultFault.TheVariants.{Table};

    ghost from_gives = { λ _ fault. fault ≡ Table NoMemory };

    fn from(_error: AllocError) -> ResultFault {
        ResultFault::Table(TableFault::NoMemory)
    }
}
