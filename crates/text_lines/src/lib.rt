//! What every text of the workspace is made of: lines, blanks, named values and decimal numbers.
//!
//! A text is any bytes. Its lines end with a line feed, directly before which a carriage return
//! may stand, and say what lies between the blanks at their ends. Everything here reads the bytes
//! once and takes no memory.
#![tactic(auto)]

mod blanks;
mod bytes;
mod lines;
mod named_values;
mod numbers;

pub use blanks::{is_blank, trim, trim_end, trim_start};
pub use bytes::find_byte;
pub use lines::{Lines, strip_carriage_return};
pub use named_values::named_value;
pub use numbers::number;
