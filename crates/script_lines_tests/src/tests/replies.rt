//! What is written where a writer fails.
ghost use Rattle.std.specs.Prelude.{◌≡◌, ◌<◌};

use crate::tests::devices::Narrow;
use crate::tests::same;
use script_lines::{CountedWriter, Failed};
use std::alloc::Global;
use std::io::Write;
use std::marker::Brand;
use std::process::Abort;
use std::sync::ledger::{Blank, Ledger};

fn tell_all<W: Write, L: Ledger>(writer: &mut CountedWriter<W, L>) -> Result<(), Failed> {
    writer.tell(b"ok ")?;
    writer.tell_number(18446744073709551615)?;
    writer.tell(b"")?;
    writer.tell(b"\n")?;
    writer.flush()
}

fn tell_counted<L: Ledger>(blank: Blank, narrow: Narrow) -> (Result<(), Failed>, Vec<u8>)
    requires name { blank.name ≡ L.name }
    requires parts { blank.parts ≡ L.parts }
    requires some { 0 < blank.parts }
{
    let mut writer = CountedWriter::<_, L>::new(narrow, blank);
    let told = tell_all(&mut writer);
    (told, writer.into_inner().taken)
}

// How telling the greatest number ended, and what was written.
fn tell_greatest(narrow: Narrow) -> (Result<(), Failed>, Vec<u8>) {
    tell_counted::<Brand>(Blank::new(1), narrow)
}

fn stops(rt: &impl Abort, alloc: Global, limit: usize, fails: bool) {
    let narrow = Narrow {
        taken: Vec::new(alloc),
        limit,
        fails,
        rested: false,
    };
    let (told, taken) = tell_greatest(narrow);
    // The flush at the end fails too where the limit is just reached.
    same(rt, &told.is_ok(), &(limit > 24), &limit);
    same(rt, &taken.len(), &limit.min(24), &limit);
    let starts = b"ok 18446744073709551615\n".starts_with(taken.as_slice());
    same(rt, &starts, &true, &limit);
}

fn stops_or_takes_nothing(rt: &impl Abort, alloc: Global, limit: usize) {
    stops(rt, alloc, limit, false);
    stops(rt, alloc, limit, true);
}

#[test]
fn a_writer_fails_at_each_place(rt: HostRuntime) {
    let alloc = rt.alloc();
    for limit in 0..27 {
        stops_or_takes_nothing(&rt, alloc, limit);
    }
}
