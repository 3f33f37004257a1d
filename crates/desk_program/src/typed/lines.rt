//! The lines that are typed.

use crate::typed::ends::is_mistyped_end;
use desk_script::{is_command, opens_text};
use std::alloc::Global;
use text_lines::{strip_carriage_return, trim};

/// The line that is being typed, and whether it stands in a text.
#[derive(Drop)]
pub(crate) struct TypedLines {
    alloc: Global,
    line: Vec<u8>,
    // Memory ran out for the line, and it counts as one that says nothing.
    is_cut: bool,
    is_in_text: bool,
}

impl TypedLines {
    /// Nothing is typed yet.
    pub(crate) fn new(alloc: Global) -> TypedLines {
        TypedLines {
            alloc,
            line: Vec::new(alloc),
            is_cut: false,
            is_in_text: false,
        }
    }

    /// Takes one more byte. It says whether that ends a line of a text which looks like none: like a
    /// command, or like a mistyped `end`.
    pub(crate) fn take(&mut self, byte: u8) -> bool {
        if byte != b'\n' {
            if self.line.push(byte).is_err() {
                self.is_cut = true;
            }
            return false;
        }
        let strays = !self.is_cut && self.end_line();
        self.line.clear();
        self.is_cut = false;
        strays
    }

    // Takes what the whole line says, and tells whether it strays into a text.
    fn end_line(&mut self) -> bool {
        let says = trim(strip_carriage_return(&self.line));
        if !self.is_in_text {
            self.is_in_text = opens_text(says);
            return false;
        }
        if says == b"end".as_slice() {
            self.is_in_text = false;
            return false;
        }
        is_mistyped_end(says) || opens_text(says) || is_command(self.alloc, says)
    }
}
