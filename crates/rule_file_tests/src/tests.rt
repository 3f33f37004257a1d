//! Files as they are cut, worked out by hand.
use basics::Refusal;
use rule_file::{RuleFault, RuleLine, RuleText, SectionKind, cut};
use std::alloc::Global;
use std::fmt::Debug;
use std::process::Abort;

/// Stops the test where what was found isn't what is wanted.
fn same<T: PartialEq + Debug, A: Debug>(rt: &impl Abort, found: &T, wanted: &T, at: &A) {
    assert!(rt; *found == *wanted, "{at:?}: {found:?} is not {wanted:?}");
}

// The same with line ends of two bytes, comments, blank lines, blanks and leading zeros.
const X_AGAIN: &[u8] = b"\r\n\
    \x20\t\r\n\
    \x20@RULE X \t\r\n\
    nothing yet\r\n\
    @TABLE # the table\r\n\
    \r\n\
    # all of this is a comment, @TREE too\r\n\
    \x20\tn_states : 02\t# two\r\n\
    neighborhood:\toneDimensional\r\n\
    \x20 symmetries  :none#\r\n\
    \r\n\
    00,1 ,\t0, 01\r\n\
    0,0,1,1 # one\r\n\
    \x201,0,0,0\r\n\
    \t\r\n\
    1,1,1,0\r\n\
    @COLORS\r\n\
    9,9,9,9\r\n";

/// Stops the test where the line has another number or says something else.
fn expect_line(rt: &impl Abort, line: &RuleLine, number: u64, text: &[u8]) {
    same(rt, &line.number(), &number, &text);
    same(rt, &line.text(), &text, &number);
}

/// Stops the test where this line of the section has another number or says something else.
fn expect_line_at(rt: &impl Abort, file: &RuleText, at: usize, number: u64, text: &[u8]) {
    let lines = file.lines();
    assert!(rt; at < lines.len(), "there is no line {number}");
    expect_line(rt, &lines[at], number, text);
}

#[test]
fn a_table_is_cut(rt: HostRuntime) {
    let file = cut(rt.alloc(), X_AGAIN).expect(&rt, "a rule file");
    same(&rt, &file.name(), &b"X".as_slice(), &"name");
    same(&rt, &file.kind(), &SectionKind::Table, &"kind");
    same(&rt, &file.opened(), &5, &"opened");
    same(&rt, &file.lines().len(), &7, &"lines");
    expect_line_at(&rt, &file, 0, 8, b"n_states : 02");
    expect_line_at(&rt, &file, 1, 9, b"neighborhood:\toneDimensional");
    expect_line_at(&rt, &file, 2, 10, b"symmetries  :none");
    expect_line_at(&rt, &file, 3, 12, b"00,1 ,\t0, 01");
    expect_line_at(&rt, &file, 4, 13, b"0,0,1,1");
    expect_line_at(&rt, &file, 5, 14, b"1,0,0,0");
    expect_line_at(&rt, &file, 6, 16, b"1,1,1,0");
}

/// Stops the test where the text isn't cut to a section of this kind, line and length.
fn expect_section(
    rt: &impl Abort,
    alloc: Global,
    text: &[u8],
    kind: SectionKind,
    opened: u64,
    lines: usize,
) {
    let file = cut(alloc, text).expect(rt, "a rule file");
    same(rt, &file.kind(), &kind, &text);
    same(rt, &file.opened(), &opened, &text);
    same(rt, &file.lines().len(), &lines, &text);
}

#[test]
fn the_first_section_is_used(rt: HostRuntime) {
    let tree = b"@RULE T\n@TREE # t\nnum_states=2\n@TABLE\n";
    let table = b"@RULE T\n\n@COLORS\n1 2 3 4\n@TABLE\n@TREE\n";
    expect_section(&rt, rt.alloc(), tree, SectionKind::Tree, 2, 1);
    expect_section(&rt, rt.alloc(), table, SectionKind::Table, 5, 0);
}

/// Stops the test where the text isn't refused for this fault.
fn expect_refused(rt: &impl Abort, alloc: Global, text: &[u8], wanted: RuleFault) {
    same(rt, &cut(alloc, text).err(), &Some(wanted), &text);
}

#[test]
fn files_without_a_rule_are_refused(rt: HostRuntime) {
    let alloc = rt.alloc();
    expect_refused(&rt, alloc, b"", RuleFault::NoRuleLine);
    expect_refused(&rt, alloc, b"@RULE a b\n@TABLE\n", RuleFault::NoRuleLine);
    expect_refused(&rt, alloc, b"@RULE T\n@ICONS\n", RuleFault::NoTable);
    expect_refused(&rt, alloc, b"@RULE T\n@Table\n@TREES\n", RuleFault::NoTable);
}

/// A fault, and what it says of itself.
struct Said {
    fault: RuleFault,
    number: u8,
    place: Option<u64>,
    name: &'static str,
    text: &'static str,
}

/// Stops the test where the fault says something else of itself.
fn expect_says(rt: &impl Abort, alloc: Global, case: &Said) {
    let said = case.fault.to_string(alloc).expect(rt, "memory");
    same(rt, &case.fault.reason().number, &case.number, &case.name);
    same(rt, &case.fault.reason().name, &case.name, &case.number);
    same(rt, &case.fault.reason().place, &case.place, &case.name);
    same(rt, &said.as_str(), &case.text, &case.name);
}

const FAULTS: [Said; 14] = [
    Said {
        fault: RuleFault::NoRuleLine,
        number: 1,
        place: None,
        name: "NoRuleLine",
        text: "the first line is not `@RULE` and a name",
    },
    Said {
        fault: RuleFault::NoTable,
        number: 2,
        place: None,
        name: "NoTable",
        text: "there is no table or tree",
    },
    Said {
        fault: RuleFault::MissingDescriptor,
        number: 3,
        place: None,
        name: "MissingDescriptor",
        text: "n_states, neighborhood and symmetries are not all given before the table's lines",
    },
    Said {
        fault: RuleFault::BadStates,
        number: 4,
        place: None,
        name: "BadStates",
        text: "n_states is no number from 2 to 256",
    },
    Said {
        fault: RuleFault::BadNeighborhood,
        number: 5,
        place: None,
        name: "BadNeighborhood",
        text: "the neighborhood is unknown",
    },
    Said {
        fault: RuleFault::BadSymmetry,
        number: 6,
        place: None,
        name: "BadSymmetry",
        text: "the neighborhood has no such symmetries",
    },
    Said {
        fault: RuleFault::BadVariable(5),
        number: 7,
        place: Some(5),
        name: "BadVariable",
        text: "line 5: this defines no variable",
    },
    Said {
        fault: RuleFault::BadTransition(6),
        number: 8,
        place: Some(6),
        name: "BadTransition",
        text: "line 6: this is no transition",
    },
    Said {
        fault: RuleFault::StateTooHigh(7),
        number: 9,
        place: Some(7),
        name: "StateTooHigh",
        text: "line 7: a state is not below n_states",
    },
    Said {
        fault: RuleFault::FreeResult(8),
        number: 10,
        place: Some(8),
        name: "FreeResult",
        text: "line 8: the result is a variable of no input",
    },
    Said {
        fault: RuleFault::TooManyTransitions,
        number: 11,
        place: None,
        name: "TooManyTransitions",
        text: "there are more than 1,000,000 transitions",
    },
    Said {
        fault: RuleFault::BadTree(u64::MAX),
        number: 12,
        place: Some(u64::MAX),
        name: "BadTree",
        text: "line 18446744073709551615: this does not belong in the tree",
    },
    Said {
        fault: RuleFault::NotQuiescent,
        number: 13,
        place: None,
        name: "NotQuiescent",
        text: "state 0 is not quiescent",
    },
    Said {
        fault: RuleFault::NoMemory,
        number: 70,
        place: None,
        name: "NoMemory",
        text: "there is not enough memory",
    },
];

#[test]
fn what_faults_say(rt: HostRuntime) {
    let alloc = rt.alloc();
    for case in &FAULTS {
        expect_says(&rt, alloc, case);
    }
}
