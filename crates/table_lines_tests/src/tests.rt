//! Tables with what their lines say, worked out by hand.
mod heads;
mod line_faults;
mod lines;
mod sets;

use basics::Refusal;
use rule_file::{RuleFault, cut};
use std::alloc::Global;
use std::fmt::Debug;
use std::process::Abort;
use table_lines::{TableLines, read_lines};

/// The number and the line of a fault, or (0, None).
type Outcome = (u8, Option<u64>);

/// Stops the test where what was found isn't what is wanted.
fn same<T: PartialEq + Debug, A: Debug>(rt: &impl Abort, found: &T, wanted: &T, at: &A) {
    assert!(rt; *found == *wanted, "{at:?}: {found:?} is not {wanted:?}");
}

/// Reads the lines of a table, of which the first is the third line of its file.
fn read(rt: &impl Abort, alloc: Global, lines: &str) -> Result<TableLines, RuleFault> {
    let file = format!(in alloc; "@RULE T\n@TABLE\n{lines}").expect(rt, "memory");
    let text = cut(alloc, file.as_bytes()).expect(rt, "a rule file");
    read_lines(alloc, &text)
}

/// A table of so many states without symmetries, whose lines after the head begin with line 6.
fn table(rt: &impl Abort, alloc: Global, states: u16, neighborhood: &str, lines: &str) -> String {
    format!(in alloc;
        "n_states:{states}\nneighborhood:{neighborhood}\nsymmetries:none\n{lines}"
    ).expect(rt, "memory")
}

/// Stops the test where reading these lines doesn't end as wanted.
fn ends(rt: &impl Abort, alloc: Global, lines: &str, wanted: Outcome) {
    let found = match read(rt, alloc, lines) {
        Ok(_) => (0, None),
        Err(fault) => (fault.reason().number, fault.reason().place),
    };
    same(rt, &found, &wanted, &lines);
}
