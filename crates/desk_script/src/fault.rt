//! Why a line of a script is refused.

use schedule::{Reason, Refusal};

/// Why a line of a script, counted from 1, is no command. The script goes on with the next line.
#[derive(Clone, Copy, Debug, PartialEq, Eq)]
pub enum ScriptFault {
    /// The line says no command, or one with other words than it has.
    BadCommand(u64),
    /// The text of the command on the line has no end.
    NoEnd(u64),
}

impl Refusal for ScriptFault {
    ghost use Rattle.std.specs.Prelude.{Some};
    ghost use Rattle.desk_script.specs.Faults.{fault_number, fault_name, fault_line};

    ghost number_of = { fault_number };

    ghost name_of = { fault_name };

    ghost place_of = { λ fault. Some (fault_line fault) };

    fn reason(&self) -> Reason {
        match self {
            ScriptFault::BadCommand(line) => Reason::at(80, "BadCommand", *line),
            ScriptFault::NoEnd(line) => Reason::at(81, "NoEnd", *line),
        }
    }
}
