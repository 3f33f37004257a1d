//! Why settling stops.

use crate::issue::IssueFault;
use step_engine::EvolveFault;

/// Why settling stopped before every bookmark was current.
#[derive(Clone, Copy, Debug, PartialEq, Eq)]
pub enum Cause {
    /// Out of memory.
    NoMemory,
    /// A step wanted more squares than it may keep.
    NoRoom,
    /// A job was told to stop.
    Stopped,
    /// Every number of a job was given.
    NumbersSpent,
}

impl Cause {
    ghost use Rattle.std.specs.Prelude.{◌≡◌};
    ghost use Rattle.desk_core.specs.Cause.{cause_number, cause_of_answer, cause_of_issue};

    /// The cause that a job's giving up is.
    pub(crate) fn of_answer(fault: EvolveFault) -> Cause
        ensures { result ≡ cause_of_answer fault }
    {
        match fault {
            EvolveFault::NoMemory => Cause::NoMemory,
            EvolveFault::NoRoom => Cause::NoRoom,
            EvolveFault::Stopped => Cause::Stopped,
        }
    }

    /// The cause that a refused issue is.
    pub(crate) fn of_issue(fault: IssueFault) -> Cause
        ensures { result ≡ cause_of_issue fault }
    {
        match fault {
            IssueFault::NoMemory => Cause::NoMemory,
            IssueFault::NumbersSpent => Cause::NumbersSpent,
        }
    }

    /// The number of the refusal that it is.
    pub fn number(self) -> u8
        ensures { result ≡ cause_number self }
    {
        match self {
            Cause::NoMemory => 70,
            Cause::NoRoom => 71,
            Cause::Stopped => 72,
            Cause::NumbersSpent => 73,
        }
    }
}
