//! Why an edit is refused.
ghost use Rattle.std.specs.Prelude.{◌≡◌};
ghost use Rattle.schedule.specs.declared.fault.EditFault.TheVariants.{NoMemory};

use basics::{Reason, Refusal};
use std::alloc::{AllocError, AllocFailed};
use thiserror::Error;

/// Why an edit is refused. A refused edit changes nothing.
#[derive(Clone, Copy, Debug, PartialEq, Eq, Error)]
pub enum EditFault {
    /// A generation is beyond 2^60.
    #[error("the generation is beyond 2^60")]
    GenerationTooFar,
    /// A cell or a window leaves its range.
    #[error("a cell is out of range")]
    CellOutOfRange,
    /// A state isn't below the rule's number of states.
    #[error("a state is not below the rule's")]
    CellStateTooHigh,
    /// The document has no intervention of that id.
    #[error("there is no such intervention")]
    NoSuchIntervention,
    /// The document has no bookmark of that id.
    #[error("there is no such bookmark")]
    NoSuchBookmark,
    /// There are 4,096 interventions.
    #[error("there are 4,096 interventions already")]
    TooManyInterventions,
    /// There are 4,096 bookmarks.
    #[error("there are 4,096 bookmarks already")]
    TooManyBookmarks,
    /// One edit names more than 10,000 cells.
    #[error("more than 10,000 cells in one edit")]
    TooManyCells,
    /// A window has no cells, or more than 65,536.
    #[error("the window has no cells or too many")]
    BadWindow,
    /// The revision is the greatest there is.
    #[error("no revision is left")]
    RevisionSpent,
    /// The document has no branch of that id.
    #[error("there is no such branch")]
    NoSuchBranch,
    /// A generation is below the fork of its branch, or of the parent of a new branch.
    #[error("the branch begins at a later generation")]
    BeforeFork,
    /// The branch is 0, or it has interventions, bookmarks or branches that leave it.
    #[error("the branch is in use")]
    BranchInUse,
    /// There are 64 branches besides 0.
    #[error("there are 64 branches already")]
    TooManyBranches,
    /// The repeating interventions would make more than 8,192 marks as far as their branches reach.
    #[error("repeating interventions act at more than 8,192 generations that are wanted")]
    TooManyMarks,
    /// A repeating intervention has a distance of 0, or ends before it begins.
    #[error("the distance is 0, or the last generation is below the first")]
    BadRepeat,
    /// Out of memory.
    #[error("there is not enough memory")]
    NoMemory,
}

impl From<AllocError> for EditFault {
    ghost from_gives = { λ _ fault. fault ≡ NoMemory };

    fn from(_error: AllocError) -> EditFault {
        EditFault::NoMemory
    }
}

impl<T: Drop> From<AllocFailed<T>> for EditFault {
    ghost from_gives = { λ _ fault. fault ≡ NoMemory };

    fn from(_error: AllocFailed<T>) -> EditFault {
        EditFault::NoMemory
    }
}

impl Refusal for EditFault {
    ghost use Rattle.std.specs.Prelude.{None};
    ghost use Rattle.schedule.specs.Faults.{fault_number, fault_name};

    ghost number_of = { fault_number };

    ghost name_of = { fault_name };

    ghost place_of = { λ _. None };

    fn reason(&self) -> Reason {
        match self {
            EditFault::GenerationTooFar => Reason::of(40, "GenerationTooFar"),
            EditFault::CellOutOfRange => Reason::of(41, "CellOutOfRange"),
            EditFault::CellStateTooHigh => Reason::of(42, "CellStateTooHigh"),
            EditFault::NoSuchIntervention => Reason::of(43, "NoSuchIntervention"),
            EditFault::NoSuchBookmark => Reason::of(44, "NoSuchBookmark"),
            EditFault::TooManyInterventions => Reason::of(45, "TooManyInterventions"),
            EditFault::TooManyBookmarks => Reason::of(46, "TooManyBookmarks"),
            EditFault::TooManyCells => Reason::of(47, "TooManyCells"),
            EditFault::BadWindow => Reason::of(48, "BadWindow"),
            EditFault::RevisionSpent => Reason::of(49, "RevisionSpent"),
            EditFault::NoSuchBranch => Reason::of(50, "NoSuchBranch"),
            EditFault::BeforeFork => Reason::of(51, "BeforeFork"),
            EditFault::BranchInUse => Reason::of(52, "BranchInUse"),
            EditFault::TooManyBranches => Reason::of(53, "TooManyBranches"),
            EditFault::TooManyMarks => Reason::of(54, "TooManyMarks"),
            EditFault::BadRepeat => Reason::of(55, "BadRepeat"),
            EditFault::NoMemory => Reason::of(70, "NoMemory"),
        }
    }
}
