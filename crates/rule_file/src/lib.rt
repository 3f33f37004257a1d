//! Rule files: the name of a rule and the lines that say what the rule does.
//!
//! `cut` takes the bytes of a file in Golly's `.rule` format and gives the name and the lines of
//! the section that is used, with their numbers, or the first fault of the file. `RuleFault` is
//! the one fault of a rule file, also of the sections, which other crates read.
//!
//! Cutting goes over the file once and copies none of it.
#![tactic(auto)]

mod fault;
mod laws;
mod numbered_lines;
mod sections;
mod states;
mod text;

pub use fault::RuleFault;
pub use laws::{
    blanks_do_not_matter, comments_do_not_matter, line_ends_do_not_matter, lines_say_all,
    remarks_do_not_matter,
};
pub use sections::cut;
pub use states::states_in;
pub use text::{RuleLine, RuleText, SectionKind};
