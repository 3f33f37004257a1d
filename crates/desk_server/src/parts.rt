//! Parts of replies, and how they are written.
ghost use Rattle.std.specs.Prelude.{◌≡◌, ◌+◌, OnOk, OnErr};
ghost use Rattle.script_lines.specs.Faults.{Wrote};
ghost use Rattle.desk_script.specs.Parts.{part_text, parts_text};

use desk_script::Part;
use script_lines::{CountedWriter, Failed};
use std::io::Write;
use std::sync::ledger::Ledger;

// Writes a part.
fn tell_part<W: Write, L: Ledger>(
    writer: &mut CountedWriter<W, L>,
    part: Part<'_>,
) -> Result<(), Failed>
    ensures bytes { Wrote writer.old.contents writer.new.contents result (part_text part.entry) }
    ensures worked { OnOk result (writer.new.failures ≡ writer.old.failures) }
    ensures failed { OnErr result (writer.new.failures ≡ writer.old.failures + 1) }
{
    match part {
        Part::Text(bytes) => writer.tell(bytes),
        Part::Number(number) => writer.tell_number(number),
        Part::Signed(number) => writer.tell_signed(number),
    }
}

/// Writes parts, one after the other.
pub(crate) fn tell_parts<W: Write, L: Ledger>(
    writer: &mut CountedWriter<W, L>,
    parts: &[Part<'_>],
) -> Result<(), Failed>
    ensures bytes { Wrote writer.old.contents writer.new.contents result (parts_text parts.now) }
    ensures worked { OnOk result (writer.new.failures ≡ writer.old.failures) }
    ensures failed { OnErr result (writer.new.failures ≡ writer.old.failures + 1) }
{
    for part in parts {
        tell_part(writer, *part)?;
    }
    Ok(())
}
