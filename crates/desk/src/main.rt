//! The program `desk`: answers the script on standard input on standard output.
#![tactic(auto)]

use desk_program::{Devices, Terminals, given_words, start};
use std::io::IsTerminal;
use std::marker::Brand;
use std::process::ExitCode;
use std::sync::ledger::Blank;

fn main(rt: HostRuntime) -> ExitCode {
    let words = given_words(&rt);
    let (status, _, _) = start::<_, _, _, _, Brand, Brand>(
        &rt,
        &rt,
        rt.alloc(),
        &words,
        Terminals {
            input: rt.stdin().is_terminal(),
            error: rt.stderr().is_terminal(),
        },
        Devices {
            reader: rt.stdin(),
            writer: rt.stdout(),
            reader_blank: Blank::new(1),
            writer_blank: Blank::new(1),
        },
    );
    status
}
