//! Why a rule file is refused.
ghost use Rattle.std.specs.Prelude.{◌≡◌};
ghost use Rattle.rule_file.specs.declared.fault.RuleFault.TheVariants.{NoMemory};

use basics::{Reason, Refusal};
use std::alloc::{AllocError, AllocFailed};
use thiserror::Error;

/// The one fault for which a rule file is refused, with the line, counted from 1, of those that
/// show at one.
#[derive(Clone, Copy, Debug, PartialEq, Eq, Error)]
pub enum RuleFault {
    /// The first line that isn't blank doesn't name the rule.
    #[error("the first line is not `@RULE` and a name")]
    NoRuleLine,
    /// No section says what the rule does.
    #[error("there is no table or tree")]
    NoTable,
    /// One of the three descriptors is not there before the table's first line.
    #[error("n_states, neighborhood and symmetries are not all given before the table's lines")]
    MissingDescriptor,
    /// The number of states is not one from 2 to 256.
    #[error("n_states is no number from 2 to 256")]
    BadStates,
    /// The neighbourhood is not known.
    #[error("the neighborhood is unknown")]
    BadNeighborhood,
    /// The neighbourhood has no symmetry of that name.
    #[error("the neighborhood has no such symmetries")]
    BadSymmetry,
    /// A line defines no variable, though it begins with `var`.
    #[error("line {0}: this defines no variable")]
    BadVariable(u64),
    /// A line is no transition, or a descriptor that stands a second time.
    #[error("line {0}: this is no transition")]
    BadTransition(u64),
    /// A number is not below the number of states.
    #[error("line {0}: a state is not below n_states")]
    StateTooHigh(u64),
    /// The result is a variable that stands nowhere else in the line.
    #[error("line {0}: the result is a variable of no input")]
    FreeResult(u64),
    /// The table has more than 1,000,000 expanded transitions.
    #[error("there are more than 1,000,000 transitions")]
    TooManyTransitions,
    /// A line is not what a tree has there.
    #[error("line {0}: this does not belong in the tree")]
    BadTree(u64),
    /// A cell of state 0 among such cells would change.
    #[error("state 0 is not quiescent")]
    NotQuiescent,
    /// Out of memory.
    #[error("there is not enough memory")]
    NoMemory,
}

impl From<AllocError> for RuleFault {
    ghost from_gives = { λ _ fault. fault ≡ NoMemory };

    fn from(_error: AllocError) -> RuleFault {
        RuleFault::NoMemory
    }
}

impl<T: Drop> From<AllocFailed<T>> for RuleFault {
    ghost from_gives = { λ _ fault. fault ≡ NoMemory };

    fn from(_error: AllocFailed<T>) -> RuleFault {
        RuleFault::NoMemory
    }
}

impl Refusal for RuleFault {
    ghost use Rattle.rule_file.specs.Faults.{fault_number, fault_name, fault_place};

    ghost number_of = { fault_number };

    ghost name_of = { fault_name };

    ghost place_of = { fault_place };

    fn reason(&self) -> Reason {
        match self {
            RuleFault::NoRuleLine => Reason::of(1, "NoRuleLine"),
            RuleFault::NoTable => Reason::of(2, "NoTable"),
            RuleFault::MissingDescriptor => Reason::of(3, "MissingDescriptor"),
            RuleFault::BadStates => Reason::of(4, "BadStates"),
            RuleFault::BadNeighborhood => Reason::of(5, "BadNeighborhood"),
            RuleFault::BadSymmetry => Reason::of(6, "BadSymmetry"),
            RuleFault::BadVariable(line) => Reason::at(7, "BadVariable", *line),
            RuleFault::BadTransition(line) => Reason::at(8, "BadTransition", *line),
            RuleFault::StateTooHigh(line) => Reason::at(9, "StateTooHigh", *line),
            RuleFault::FreeResult(line) => Reason::at(10, "FreeResult", *line),
            RuleFault::TooManyTransitions => Reason::of(11, "TooManyTransitions"),
            RuleFault::BadTree(line) => Reason::at(12, "BadTree", *line),
            RuleFault::NotQuiescent => Reason::of(13, "NotQuiescent"),
            RuleFault::NoMemory => Reason::of(70, "NoMemory"),
        }
    }
}
