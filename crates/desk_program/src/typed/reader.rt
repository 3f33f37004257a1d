//! What is typed, on its way to the desk.
ghost use Rattle.std.specs.Prelude.{◌≡◌};

use crate::typed::lines::TypedLines;
use std::alloc::Global;
use std::io;
use std::io::Read;

// Says how a text ends, where a line of one looks like none.
#[derive(Drop)]
struct TextHints<'h, H> {
    outputs: &'h H,
    lines: TypedLines,
}

impl<H: Eprint> TextHints<'_, H> {
    // Takes bytes that were typed.
    fn take(&mut self, bytes: &[u8]) {
        for byte in bytes {
            if self.lines.take(*byte) {
                // Where standard error takes nothing, the script is answered all the same.
                let _ = eprintln!(self.outputs;
                    "desk: this line belongs to the text, which ends at a line that is just `end`"
                );
            }
        }
    }
}

/// A reader that is passed on as it is. Where it is typed, hints are given on the way.
#[derive(Drop)]
pub(crate) struct TypedReader<'h, R, H> {
    inner: R,
    hints: Option<TextHints<'h, H>>,
}

impl<'h, R, H> TypedReader<'h, R, H> {
    /// This reader, with hints on these outputs, if there are any.
    pub(crate) fn new(alloc: Global, inner: R, outputs: Option<&'h H>) -> TypedReader<'h, R, H>
        ensures { result.inner ≡ inner }
    {
        let hints = match outputs {
            Some(outputs) => Some(TextHints {
                outputs,
                lines: TypedLines::new(alloc),
            }),
            None => None,
        };
        TypedReader { inner, hints }
    }
}

impl<R, H> TypedReader<'_, R, H> {
    /// The reader, as it is after all that was read of it.
    pub(crate) fn into_inner(self) -> R
        ensures { result ≡ self.entry.inner }
    {
        let TypedReader { inner, hints: _ } = self;
        inner
    }
}

impl<R: Read, H: Eprint> Read for TypedReader<'_, R, H> {
    ghost remaining = { λ reader. R.remaining reader.inner };

    fn read(&mut self, buf: &mut [u8]) -> io::Result<usize> {
        let count = self.inner.read(buf)?;
        if let Some(hints) = &mut self.hints {
            hints.take(&buf[..count]);
        }
        Ok(count)
    }
}
