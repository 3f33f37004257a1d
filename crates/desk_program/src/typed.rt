//! What is said to whoever types a script at a terminal.
//!
//! A greeting comes first. Then what is typed passes through a `TypedReader` and the replies through a
//! `TypedWriter`, which change nothing and say on standard error what helps: which command lists the
//! commands, where a line is none, and how a text ends, where a line of it looks like none of a text.
//! What is passed on is proved. That something is said, and when, is only tested.

ghost use Rattle.std.specs.Prelude.{◌≡◌, option_map};
ghost use Rattle.desk_program.specs.Greeting.{greeting_of};

mod ends;
mod lines;
mod reader;
mod writer;

pub(crate) use reader::TypedReader;
pub(crate) use writer::TypedWriter;

/// The line for standard error where a script is typed: what the program waits for. A script that
/// comes from elsewhere gets none.
pub fn greeting(is_typed: bool) -> Option<&'static str>
    ensures { option_map (λ text. text.now) result ≡ greeting_of is_typed }
{
    if is_typed {
        Some("desk: waiting for a script; most begin with `rule`, and `help` lists the commands")
    } else {
        None
    }
}

/// Says it.
pub(crate) fn greet<R: Eprint>(rt: &R, is_typed: bool) {
    if let Some(text) = greeting(is_typed) {
        // Where standard error takes nothing, the script is answered all the same.
        let _ = eprintln!(rt; "{text}");
    }
}
