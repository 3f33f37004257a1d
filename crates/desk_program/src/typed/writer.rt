//! The replies, on their way to whoever types.
ghost use Rattle.std.specs.Prelude.{◌≡◌};

use std::io;
use std::io::Write;

/// How the reply begins to a line that is no command.
const BAD_COMMAND: &[u8] = b"refused 80 ";

// Says which command lists the commands, where a line is none.
#[derive(Drop)]
struct CommandHints<'h, H> {
    outputs: &'h H,
    // What lacks of that beginning, if the reply agrees with it so far.
    left: Option<&'static [u8]>,
}

impl<H: Eprint> CommandHints<'_, H> {
    // Takes bytes of a reply.
    fn take(&mut self, bytes: &[u8]) {
        for byte in bytes {
            self.left = match self.left {
                Some([]) => Some(&[]),
                Some([first, rest @ ..]) if first == byte => Some(rest),
                _ => None,
            };
        }
    }

    // The reply is handed on.
    fn end_reply(&mut self) {
        if let Some([]) = self.left {
            // Where standard error takes nothing, the script is answered all the same.
            let _ = eprintln!(self.outputs; "desk: `help` lists the commands");
        }
        self.left = Some(BAD_COMMAND);
    }
}

/// A writer of replies, each handed on at its end, that is passed on as it is. Where the script is
/// typed, hints are given behind replies.
#[derive(Drop)]
pub(crate) struct TypedWriter<'h, W, H> {
    inner: W,
    hints: Option<CommandHints<'h, H>>,
}

impl<'h, W, H> TypedWriter<'h, W, H> {
    /// This writer, with hints on these outputs, if there are any.
    pub(crate) fn new(inner: W, outputs: Option<&'h H>) -> TypedWriter<'h, W, H>
        ensures { result.inner ≡ inner }
    {
        let hints = match outputs {
            Some(outputs) => Some(CommandHints {
                outputs,
                left: Some(BAD_COMMAND),
            }),
            None => None,
        };
        TypedWriter { inner, hints }
    }
}

impl<W, H> TypedWriter<'_, W, H> {
    /// The writer, as it is after all that was written.
    pub(crate) fn into_inner(self) -> W
        ensures { result ≡ self.entry.inner }
    {
        let TypedWriter { inner, hints: _ } = self;
        inner
    }
}

impl<W: Write, H: Eprint> Write for TypedWriter<'_, W, H> {
    ghost contents = { λ writer. W.contents writer.inner };

    fn write(&mut self, buf: &[u8]) -> io::Result<usize> {
        let count = self.inner.write(buf)?;
        if let Some(hints) = &mut self.hints {
            hints.take(&buf[..count]);
        }
        Ok(count)
    }

    fn flush(&mut self) -> io::Result<()> {
        self.inner.flush()?;
        if let Some(hints) = &mut self.hints {
            hints.end_reply();
        }
        Ok(())
    }
}
