//! Lines that are no definition of a variable, or no transition.
use super::{ends, table};
use std::alloc::Global;
use std::process::Abort;

// Lines after the head, of a table of so many states.
struct Fault {
    states: u16,
    lines: &'static str,
    number: u8,
    line: Option<u64>,
}

const VARIABLES: [Fault; 62] = [
    Fault {
        states: 3,
        lines: "var a={0,1,2}",
        number: 0,
        line: None,
    },
    // No sign, and no name.
    Fault {
        states: 3,
        lines: "var a",
        number: 7,
        line: Some(6),
    },
    Fault {
        states: 3,
        lines: "var a{1}",
        number: 7,
        line: Some(6),
    },
    Fault {
        states: 3,
        lines: "var ={1}",
        number: 7,
        line: Some(6),
    },
    Fault {
        states: 3,
        lines: "var = {1}",
        number: 7,
        line: Some(6),
    },
    Fault {
        states: 3,
        lines: "var ,0,0,0",
        number: 7,
        line: Some(6),
    },
    Fault {
        states: 3,
        lines: "var ,0,0,0=1",
        number: 7,
        line: Some(6),
    },
    // Braces.
    Fault {
        states: 3,
        lines: "var a={1",
        number: 7,
        line: Some(6),
    },
    Fault {
        states: 3,
        lines: "var a=1}",
        number: 7,
        line: Some(6),
    },
    Fault {
        states: 3,
        lines: "var a={",
        number: 7,
        line: Some(6),
    },
    Fault {
        states: 3,
        lines: "var a=}",
        number: 7,
        line: Some(6),
    },
    Fault {
        states: 3,
        lines: "var a={{1}}",
        number: 7,
        line: Some(6),
    },
    Fault {
        states: 3,
        lines: "var a={1},",
        number: 7,
        line: Some(6),
    },
    Fault {
        states: 3,
        lines: "var a={1},{2}",
        number: 7,
        line: Some(6),
    },
    // Members.
    Fault {
        states: 3,
        lines: "var a=",
        number: 7,
        line: Some(6),
    },
    Fault {
        states: 3,
        lines: "var a={}",
        number: 7,
        line: Some(6),
    },
    Fault {
        states: 3,
        lines: "var a={ }",
        number: 7,
        line: Some(6),
    },
    Fault {
        states: 3,
        lines: "var a={1,}",
        number: 7,
        line: Some(6),
    },
    Fault {
        states: 3,
        lines: "var a={,1}",
        number: 7,
        line: Some(6),
    },
    Fault {
        states: 3,
        lines: "var a={1,,2}",
        number: 7,
        line: Some(6),
    },
    Fault {
        states: 3,
        lines: "var a=1,",
        number: 7,
        line: Some(6),
    },
    Fault {
        states: 3,
        lines: "var a={1 2}",
        number: 7,
        line: Some(6),
    },
    Fault {
        states: 3,
        lines: "var a={-1}",
        number: 7,
        line: Some(6),
    },
    Fault {
        states: 3,
        lines: "var a={+1}",
        number: 7,
        line: Some(6),
    },
    Fault {
        states: 3,
        lines: "var a={1.0}",
        number: 7,
        line: Some(6),
    },
    Fault {
        states: 3,
        lines: "var a={b}",
        number: 7,
        line: Some(6),
    },
    Fault {
        states: 3,
        lines: "var a={a}",
        number: 7,
        line: Some(6),
    },
    Fault {
        states: 3,
        lines: "var a={b}\nvar b={1}",
        number: 7,
        line: Some(6),
    },
    Fault {
        states: 3,
        lines: "var b={1}\nvar a={B}",
        number: 7,
        line: Some(7),
    },
    Fault {
        states: 3,
        lines: "var a={1}=2",
        number: 7,
        line: Some(6),
    },
    Fault {
        states: 3,
        lines: "var a=={1}",
        number: 7,
        line: Some(6),
    },
    // Names.
    Fault {
        states: 3,
        lines: "var a b={1}",
        number: 7,
        line: Some(6),
    },
    Fault {
        states: 3,
        lines: "var a\tb={1}",
        number: 7,
        line: Some(6),
    },
    Fault {
        states: 3,
        lines: "var a,b={1}",
        number: 7,
        line: Some(6),
    },
    Fault {
        states: 3,
        lines: "var {a={1}",
        number: 7,
        line: Some(6),
    },
    Fault {
        states: 3,
        lines: "var a}={1}",
        number: 7,
        line: Some(6),
    },
    Fault {
        states: 3,
        lines: "var a:b={1}",
        number: 7,
        line: Some(6),
    },
    Fault {
        states: 3,
        lines: "var a\u{7f}={1}",
        number: 7,
        line: Some(6),
    },
    Fault {
        states: 3,
        lines: "var a\u{e4}={1}",
        number: 7,
        line: Some(6),
    },
    Fault {
        states: 3,
        lines: "var a\u{1}={1}",
        number: 7,
        line: Some(6),
    },
    Fault {
        states: 3,
        lines: "var a#={1}",
        number: 7,
        line: Some(6),
    },
    Fault {
        states: 3,
        lines: "var 1={1}",
        number: 7,
        line: Some(6),
    },
    Fault {
        states: 3,
        lines: "var 12={1}",
        number: 7,
        line: Some(6),
    },
    Fault {
        states: 3,
        lines: "var 99999999999999999999999={1}",
        number: 7,
        line: Some(6),
    },
    // States.
    Fault {
        states: 3,
        lines: "var a={3}",
        number: 9,
        line: Some(6),
    },
    Fault {
        states: 3,
        lines: "var a={0,1,2,3}",
        number: 9,
        line: Some(6),
    },
    Fault {
        states: 3,
        lines: "var a={255}",
        number: 9,
        line: Some(6),
    },
    Fault {
        states: 3,
        lines: "var a={256}",
        number: 9,
        line: Some(6),
    },
    Fault {
        states: 3,
        lines: "var a={257}",
        number: 9,
        line: Some(6),
    },
    Fault {
        states: 3,
        lines: "var a={18446744073709551616}",
        number: 9,
        line: Some(6),
    },
    Fault {
        states: 3,
        lines: "var a={18446744073709551617}",
        number: 9,
        line: Some(6),
    },
    Fault {
        states: 3,
        lines: "var a={99999999999999999999999999}",
        number: 9,
        line: Some(6),
    },
    Fault {
        states: 3,
        lines: "0,0,0,0\nvar a={1}\nvar b={a,9}",
        number: 9,
        line: Some(8),
    },
    // What isn't well formed comes first.
    Fault {
        states: 3,
        lines: "var a={3,b}",
        number: 7,
        line: Some(6),
    },
    Fault {
        states: 3,
        lines: "var a={b,3}",
        number: 7,
        line: Some(6),
    },
    Fault {
        states: 3,
        lines: "var a={3,}",
        number: 7,
        line: Some(6),
    },
    Fault {
        states: 3,
        lines: "var a={3",
        number: 7,
        line: Some(6),
    },
    Fault {
        states: 3,
        lines: "var 1={3}",
        number: 7,
        line: Some(6),
    },
    Fault {
        states: 3,
        lines: "var a={99999999999999999999999999,b}",
        number: 7,
        line: Some(6),
    },
    // A line that is refused comes before what follows.
    Fault {
        states: 3,
        lines: "var a={3}\nvar b={",
        number: 9,
        line: Some(6),
    },
    Fault {
        states: 3,
        lines: "0,0,0\nvar b={",
        number: 8,
        line: Some(6),
    },
    Fault {
        states: 3,
        lines: "var b={\n0,0,0",
        number: 7,
        line: Some(6),
    },
];

const TRANSITIONS: [Fault; 55] = [
    // The count of entries.
    Fault {
        states: 3,
        lines: "0,1,2",
        number: 8,
        line: Some(6),
    },
    Fault {
        states: 3,
        lines: "0,1,2,0,",
        number: 8,
        line: Some(6),
    },
    Fault {
        states: 3,
        lines: "0,1,2,0,0",
        number: 8,
        line: Some(6),
    },
    Fault {
        states: 3,
        lines: ",,",
        number: 8,
        line: Some(6),
    },
    Fault {
        states: 3,
        lines: ",,,",
        number: 8,
        line: Some(6),
    },
    Fault {
        states: 3,
        lines: "0,",
        number: 8,
        line: Some(6),
    },
    Fault {
        states: 3,
        lines: "0",
        number: 8,
        line: Some(6),
    },
    Fault {
        states: 3,
        lines: "01200",
        number: 8,
        line: Some(6),
    },
    Fault {
        states: 3,
        lines: "012",
        number: 8,
        line: Some(6),
    },
    Fault {
        states: 3,
        lines: "0 1 2 0",
        number: 8,
        line: Some(6),
    },
    Fault {
        states: 3,
        lines: "01 2",
        number: 8,
        line: Some(6),
    },
    Fault {
        states: 3,
        lines: "0120,",
        number: 8,
        line: Some(6),
    },
    Fault {
        states: 11,
        lines: "0120",
        number: 8,
        line: Some(6),
    },
    Fault {
        states: 11,
        lines: "0",
        number: 8,
        line: Some(6),
    },
    // An entry that is neither a state nor a variable.
    Fault {
        states: 3,
        lines: "0,1,2,-1",
        number: 8,
        line: Some(6),
    },
    Fault {
        states: 3,
        lines: "0,+1,2,1",
        number: 8,
        line: Some(6),
    },
    Fault {
        states: 3,
        lines: "0,1.0,2,1",
        number: 8,
        line: Some(6),
    },
    Fault {
        states: 3,
        lines: "0,1,2,a",
        number: 8,
        line: Some(6),
    },
    Fault {
        states: 3,
        lines: "0,1 1,2,0",
        number: 8,
        line: Some(6),
    },
    Fault {
        states: 3,
        lines: "0,{1},2,0",
        number: 8,
        line: Some(6),
    },
    Fault {
        states: 3,
        lines: "012a",
        number: 8,
        line: Some(6),
    },
    Fault {
        states: 3,
        lines: "var a={1}\n0,A,2,0",
        number: 8,
        line: Some(7),
    },
    Fault {
        states: 3,
        lines: "var ab={1}\n0,a,2,0",
        number: 8,
        line: Some(7),
    },
    Fault {
        states: 3,
        lines: "0,a,2,0\nvar a={1}",
        number: 8,
        line: Some(6),
    },
    Fault {
        states: 3,
        lines: "var",
        number: 8,
        line: Some(6),
    },
    Fault {
        states: 3,
        lines: "variable",
        number: 8,
        line: Some(6),
    },
    Fault {
        states: 3,
        lines: "var,0,0,0",
        number: 8,
        line: Some(6),
    },
    Fault {
        states: 3,
        lines: "var=1,0,0,0",
        number: 8,
        line: Some(6),
    },
    // A state that isn't below the count of states.
    Fault {
        states: 3,
        lines: "0,1,2,3",
        number: 9,
        line: Some(6),
    },
    Fault {
        states: 3,
        lines: "3,1,2,0",
        number: 9,
        line: Some(6),
    },
    Fault {
        states: 3,
        lines: "0123",
        number: 9,
        line: Some(6),
    },
    Fault {
        states: 3,
        lines: "0,256,2,0",
        number: 9,
        line: Some(6),
    },
    Fault {
        states: 3,
        lines: "0,257,2,0",
        number: 9,
        line: Some(6),
    },
    Fault {
        states: 256,
        lines: "0,256,2,0",
        number: 9,
        line: Some(6),
    },
    Fault {
        states: 256,
        lines: "0,65536,2,0",
        number: 9,
        line: Some(6),
    },
    Fault {
        states: 3,
        lines: "0,18446744073709551616,2,0",
        number: 9,
        line: Some(6),
    },
    Fault {
        states: 3,
        lines: "0,99999999999999999999999999,2,0",
        number: 9,
        line: Some(6),
    },
    // Entries from left to right.
    Fault {
        states: 3,
        lines: "0,3,a,0",
        number: 9,
        line: Some(6),
    },
    Fault {
        states: 3,
        lines: "0,a,3,0",
        number: 8,
        line: Some(6),
    },
    Fault {
        states: 3,
        lines: "0,3,0",
        number: 8,
        line: Some(6),
    },
    Fault {
        states: 3,
        lines: "3,0,0,a",
        number: 9,
        line: Some(6),
    },
    Fault {
        states: 3,
        lines: "a,0,0,3",
        number: 8,
        line: Some(6),
    },
    // A result that stands in no input.
    Fault {
        states: 3,
        lines: "var a={1}\n0,0,0,a",
        number: 10,
        line: Some(7),
    },
    Fault {
        states: 3,
        lines: "var a={1}\nvar b={1}\nb,b,b,a",
        number: 10,
        line: Some(8),
    },
    Fault {
        states: 3,
        lines: "var a={1}\n3,0,0,a",
        number: 9,
        line: Some(7),
    },
    Fault {
        states: 3,
        lines: "var a={1}\n0,b,0,a",
        number: 8,
        line: Some(7),
    },
    Fault {
        states: 3,
        lines: "var a={1}\n0,0,a",
        number: 8,
        line: Some(7),
    },
    Fault {
        states: 3,
        lines: "var a={1}\n000a",
        number: 10,
        line: Some(7),
    },
    Fault {
        states: 3,
        lines: "var a={1}\na,0,0,a\n0,0,0,a",
        number: 10,
        line: Some(8),
    },
    // A descriptor after the head.
    Fault {
        states: 3,
        lines: "n_states:3",
        number: 8,
        line: Some(6),
    },
    Fault {
        states: 3,
        lines: "n_states:0",
        number: 8,
        line: Some(6),
    },
    Fault {
        states: 3,
        lines: "0,0,1,0\nsymmetries:none",
        number: 8,
        line: Some(7),
    },
    Fault {
        states: 3,
        lines: "var a={1}\nneighborhood:Moore",
        number: 8,
        line: Some(7),
    },
    // The first line that is refused.
    Fault {
        states: 3,
        lines: "0,0,1,0\n# two\n\n0,0,1,9\n0,0",
        number: 9,
        line: Some(9),
    },
    Fault {
        states: 3,
        lines: "0,0,1\n0,0,1,9",
        number: 8,
        line: Some(6),
    },
];

fn lines_end(rt: &impl Abort, alloc: Global, case: &Fault) {
    let lines = table(rt, alloc, case.states, "oneDimensional", case.lines);
    ends(rt, alloc, lines.as_str(), (case.number, case.line));
}

#[test]
fn faults_of_variables(rt: HostRuntime) {
    for case in &VARIABLES {
        lines_end(&rt, rt.alloc(), case);
    }
}

#[test]
fn faults_of_transitions(rt: HostRuntime) {
    for case in &TRANSITIONS {
        lines_end(&rt, rt.alloc(), case);
    }
}
