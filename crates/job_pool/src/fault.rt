//! Why there is no pool.

use basics::{Reason, Refusal};
use std::alloc::AllocError;
use thiserror::Error;

/// Why a pool was not made.
#[derive(Clone, Copy, Debug, PartialEq, Eq, Error)]
pub enum PoolFault {
    /// A thread was refused.
    #[error("a worker's thread was refused")]
    NoWorker,
    /// A growth was refused.
    #[error("there is no memory")]
    NoMemory,
}

/// Why there is no pool, with the input that its body wasn't called on.
pub struct NoPool<I> {
    /// Why there is none.
    pub fault: PoolFault,
    /// The input.
    pub input: I,
}

impl<I> NoPool<I> {
    ghost use Rattle.std.specs.Prelude.{◌≡◌};

    pub(crate) fn of(fault: PoolFault, input: I) -> NoPool<I>
        ensures { (result.fault ≡ fault) × (result.input ≡ input) }
    {
        NoPool { fault, input }
    }
}

impl Refusal for PoolFault {
    ghost use Rattle.std.specs.Prelude.{None};
    ghost use Rattle.job_pool.specs.Faults.{name_of, number_of};

    ghost number_of = { number_of };

    ghost name_of = { name_of };

    ghost place_of = { λ _. None };

    fn reason(&self) -> Reason {
        match self {
            PoolFault::NoMemory => Reason::of(70, "NoMemory"),
            PoolFault::NoWorker => Reason::of(74, "NoWorker"),
        }
    }
}

impl From<AllocError> for PoolFault {
    ghost use Rattle.std.specs.Prelude.{◌≡◌};
    ghost use Rattle.job_pool.specs.declared.fault.PoolFault.TheVariants.{NoMemory};

    ghost from_gives = { λ _ fault. fault ≡ NoMemory };

    fn from(_error: AllocError) -> PoolFault {
        PoolFault::NoMemory
    }
}
