//! What a script asks.

use crate::command::Command;
use crate::fault::ScriptFault;
use crate::format::Format;
use script_lines::KeptText;

/// What is asked of the desk.
#[derive(Drop)]
pub enum Request {
    /// To do what a command says.
    Obey(Command),
    /// To take what a text of this format means.
    Take { format: Format, text: KeptText },
    /// To refuse what lines say.
    Refuse(ScriptFault),
    /// Something for which memory ran out.
    NoMemory,
}
