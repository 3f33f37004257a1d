//! Why a table is not translated.
ghost use Rattle.std.specs.Prelude.{◌≡◌};
ghost use Rattle.tree_translation.specs.declared.tree_fault.TreeFault.TheVariants.{NoMemory};

use basics::{Reason, Refusal};
use std::alloc::{AllocError, AllocFailed};
use thiserror::Error;

/// Why a table is not translated to a tree.
#[derive(Clone, Copy, Debug, PartialEq, Eq, Error)]
pub enum TreeFault {
    /// The tree would have more than 1,000,000 nodes.
    #[error("the tree has more than 1,000,000 nodes")]
    TreeTooLarge,
    /// Out of memory.
    #[error("there is not enough memory")]
    NoMemory,
}

impl From<AllocError> for TreeFault {
    ghost from_gives = { λ _ fault. fault ≡ NoMemory };

    fn from(_error: AllocError) -> TreeFault {
        TreeFault::NoMemory
    }
}

impl<T: Drop> From<AllocFailed<T>> for TreeFault {
    ghost from_gives = { λ _ fault. fault ≡ NoMemory };

    fn from(_error: AllocFailed<T>) -> TreeFault {
        TreeFault::NoMemory
    }
}

impl Refusal for TreeFault {
    ghost use Rattle.tree_translation.specs.TreeFaults.{fault_number, fault_name, fault_place};

    ghost number_of = { fault_number };

    ghost name_of = { fault_name };

    ghost place_of = { fault_place };

    fn reason(&self) -> Reason {
        match self {
            TreeFault::TreeTooLarge => Reason::of(14, "TreeTooLarge"),
            TreeFault::NoMemory => Reason::of(70, "NoMemory"),
        }
    }
}
