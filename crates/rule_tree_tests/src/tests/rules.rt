//! Rules, by tables and by trees.
use super::{expect_next, same};
use basics::Refusal;
use plain_engine::evolve_plain;
use plane_core::{Next, NoStop};
use rule_tree::Rule;
use std::alloc::Global;
use std::process::Abort;
use step_engine::fits;
use test_planes::{is_below, plane_of, rows_of};

// A cell is 1 next where exactly one of its neighbours is. Two of the eight cases are left to the
// cell's own state.
const X: &[u8] = b"@RULE X\n\
    @TABLE\n\
    n_states:2\n\
    neighborhood:oneDimensional\n\
    symmetries:none\n\
    0,1,0,1\n\
    0,0,1,1\n\
    1,0,0,0\n\
    1,1,1,0\n";

// The same with line ends of two bytes, comments, blank lines, blanks and leading zeros.
const X_AGAIN: &[u8] = b"\r\n\
    \x20\t\r\n\
    \x20@RULE X \t\r\n\
    nothing yet\r\n\
    @TABLE # the table\r\n\
    \r\n\
    # all of this is a comment, @TREE too\r\n\
    \x20\tn_states : 02\t# two\r\n\
    neighborhood:\toneDimensional\r\n\
    \x20 symmetries  :none#\r\n\
    \r\n\
    00,1 ,\t0, 01\r\n\
    0,0,1,1 # one\r\n\
    \x201,0,0,0\r\n\
    \t\r\n\
    1,1,1,0\r\n\
    @COLORS\r\n\
    9,9,9,9\r\n";

// Each cell copies its eastern neighbour. A tree asks for N, W, E, S and C, from the root down.
const E: &[u8] = b"@RULE E\n\
    @TREE\n\
    num_states=2\n\
    num_neighbors=4\n\
    num_nodes=7\n\
    1 0 0\n\
    1 1 1\n\
    2 0 0\n\
    2 1 1\n\
    3 2 3\n\
    4 4 4\n\
    5 5 5\n";

/// The number and the line of the fault, or 0 where the file is read.
type Outcome = (u8, Option<u64>);

fn expect_outcome(rt: &impl Abort, alloc: Global, text: &[u8], wanted: &Outcome) {
    let found = match Rule::read(alloc, text) {
        Ok(_) => (0, None),
        Err(fault) => (fault.reason().number, fault.reason().place),
    };
    same(rt, &found, wanted, &text);
}

fn rule_of(rt: &impl Abort, alloc: Global, text: &[u8]) -> Rule {
    Rule::read(alloc, text).expect(rt, "a rule")
}

fn expect_name(rt: &impl Abort, rule: &Rule, name: &[u8], states: u16) {
    same(rt, &rule.name(), &name, &"the name");
    same(rt, &rule.states(), &states, &name);
}

// All further neighbours are 0.
fn expect_between(rt: &impl Abort, rule: &Rule, centre: u8, west: u8, east: u8, wanted: u8) {
    expect_next(rt, rule, [centre, 0, 0, east, 0, 0, 0, west, 0], wanted);
}

fn expect_rule_x(rt: &impl Abort, alloc: Global, text: &[u8]) {
    let rule = rule_of(rt, alloc, text);
    expect_name(rt, &rule, b"X", 2);
    same(rt, &rule.tree().is_some(), &true, &"a tree");
    expect_between(rt, &rule, 0, 0, 0, 0);
    expect_between(rt, &rule, 0, 0, 1, 1);
    expect_between(rt, &rule, 0, 1, 0, 1);
    expect_between(rt, &rule, 0, 1, 1, 0);
    expect_between(rt, &rule, 1, 0, 0, 0);
    expect_between(rt, &rule, 1, 0, 1, 1);
    expect_between(rt, &rule, 1, 1, 0, 1);
    expect_between(rt, &rule, 1, 1, 1, 0);
}

#[test]
fn rule_x(rt: HostRuntime) {
    expect_rule_x(&rt, rt.alloc(), X);
    expect_rule_x(&rt, rt.alloc(), X_AGAIN);
}

// The first bytes of the rule X.
fn expect_beginning(rt: &impl Abort, alloc: Global, len: usize, wanted: &Outcome) {
    expect_outcome(rt, alloc, X.get(..len).expect(rt, "a length"), wanted);
}

fn expect_beginnings(rt: &impl Abort, alloc: Global, from: usize, to: usize, wanted: Outcome) {
    for len in from..to {
        expect_beginning(rt, alloc, len, &wanted);
    }
}

#[test]
fn every_beginning_of_rule_x(rt: HostRuntime) {
    let alloc = rt.alloc();
    same(&rt, &X.len(), &102, &"bytes");
    expect_beginnings(&rt, alloc, 0, 7, (1, None));
    expect_beginnings(&rt, alloc, 7, 14, (2, None));
    expect_beginnings(&rt, alloc, 14, 24, (3, None));
    expect_beginnings(&rt, alloc, 24, 25, (4, None));
    expect_beginnings(&rt, alloc, 25, 39, (3, None));
    expect_beginnings(&rt, alloc, 39, 53, (5, None));
    expect_beginnings(&rt, alloc, 53, 65, (3, None));
    expect_beginnings(&rt, alloc, 65, 69, (6, None));
    expect_beginnings(&rt, alloc, 69, 71, (0, None));
    expect_beginnings(&rt, alloc, 71, 77, (8, Some(6)));
    expect_beginnings(&rt, alloc, 77, 79, (0, None));
    expect_beginnings(&rt, alloc, 79, 85, (8, Some(7)));
    expect_beginnings(&rt, alloc, 85, 87, (0, None));
    expect_beginnings(&rt, alloc, 87, 93, (8, Some(8)));
    expect_beginnings(&rt, alloc, 93, 95, (0, None));
    expect_beginnings(&rt, alloc, 95, 101, (8, Some(9)));
    expect_beginnings(&rt, alloc, 101, 103, (0, None));
}

fn expect_front(rt: &impl Abort, alloc: Global, front: &str, wanted: &Outcome) {
    let rest = "\nn_states:2\nneighborhood:oneDimensional\nsymmetries:none\n";
    let text = format!(in alloc; "{front}{rest}").expect(rt, "memory");
    expect_outcome(rt, alloc, text.as_bytes(), wanted);
}

fn expect_fronts(rt: &impl Abort, alloc: Global, wanted: Outcome, fronts: &[&str]) {
    for front in fronts {
        expect_front(rt, alloc, front, &wanted);
    }
}

#[test]
fn names_and_sections(rt: HostRuntime) {
    let alloc = rt.alloc();
    expect_fronts(
        &rt,
        alloc,
        (0, None),
        &[
            "@RULE T\n@TABLE",
            "@RULE !~\n@TABLE",
            "@RULE T\n@TABLE # it",
            "@RULE T\n@TABLE\tit",
            "@RULE T\n@COLORS\n1 2 3 4\n@TABLE",
            "@RULE T\n@RULE U\n@TABLE",
        ],
    );
    expect_fronts(
        &rt,
        alloc,
        (1, None),
        &[
            "@RULE\n@TABLE",
            "@RULET\n@TABLE",
            "@rule T\n@TABLE",
            "@RULE  T\n@TABLE",
            "@RULE\tT\n@TABLE",
            "@RULE a b\n@TABLE",
            "@RULE a\tb\n@TABLE",
            "@RULE a:b\n@TABLE",
            "@RULE a\u{7f}\n@TABLE",
            "@RULE a\rb\n@TABLE",
            "# T\n@RULE T\n@TABLE",
            "@TABLE\n@RULE T",
        ],
    );
}

#[test]
fn sections_that_are_missing(rt: HostRuntime) {
    let alloc = rt.alloc();
    expect_fronts(
        &rt,
        alloc,
        (2, None),
        &[
            "@RULE T",
            "@RULE T\n@ TABLE",
            "@RULE T\n@TABLE#",
            "@RULE T\n@Table",
            "@RULE T\n@TABLES",
            "@RULE T\n#@TABLE",
        ],
    );
    let descriptors_behind = [
        "@RULE T\n@TABLE\n@TABLE",
        "@RULE T\n@TABLE\nn_states:2\n@ICONS",
    ];
    let trees = ["@RULE T\n@TREE", "@RULE T\n@TREE\nnum_states=2\n@TABLE"];
    expect_fronts(&rt, alloc, (3, None), &descriptors_behind);
    expect_fronts(&rt, alloc, (12, Some(3)), &trees);
}

#[test]
fn carriage_returns_elsewhere(rt: HostRuntime) {
    let alloc = rt.alloc();
    expect_outcome(&rt, alloc, b"@RULE T\r", &(1, None));
    expect_outcome(&rt, alloc, b"@RULE T\r\n@TABLE\r", &(2, None));
    expect_outcome(&rt, alloc, b"@RULE T\r\n@TABLE\r\r\n", &(2, None));
    expect_outcome(&rt, alloc, b"@RULE T\r\n@TABLE\r\nn_states:2\r", &(4, None));
    expect_outcome(&rt, alloc, b"\r\n\r\n@RULE T\r\n@TABLE", &(3, None));
    expect_outcome(&rt, alloc, b"\r@RULE T\n@TABLE", &(1, None));
}

#[test]
fn still_rules(rt: HostRuntime) {
    let rule = Rule::still(rt.alloc()).expect(&rt, "memory");
    expect_name(&rt, &rule, b"still", 2);
    expect_between(&rt, &rule, 0, 1, 1, 0);
    expect_between(&rt, &rule, 1, 1, 1, 1);
}

#[test]
fn trees_are_rules(rt: HostRuntime) {
    let rule = rule_of(&rt, rt.alloc(), E);
    expect_name(&rt, &rule, b"E", 2);
    same(&rt, &rule.tree().is_some(), &true, &"a tree");
    expect_between(&rt, &rule, 0, 1, 0, 0);
    expect_between(&rt, &rule, 0, 0, 1, 1);
    expect_between(&rt, &rule, 1, 0, 0, 0);
    expect_between(&rt, &rule, 1, 1, 1, 1);
    expect_between(&rt, &rule, 1, 1, 0, 0);
    let cut_off = E.get(..E.len() - 2).expect(&rt, "more than two bytes");
    expect_outcome(&rt, rt.alloc(), cut_off, &(12, Some(12)));
}

#[test]
fn trees_are_stepped(rt: HostRuntime) {
    let alloc = rt.alloc();
    let rule = rule_of(&rt, alloc, E);
    let start = plane_of(alloc, &[(0, 0, 1), (2, 5, 1)]).expect(&rt, "memory");
    assert!(rt; fits(&start, 3) && is_below(&start, rule.states()));
    let evolved = evolve_plain(alloc, &rule, &start, 3, &mut NoStop, 0);
    let plane = evolved.expect(&rt, "memory").plane;
    let rows = rows_of(alloc, &plane).expect(&rt, "memory");
    let wanted = [(-3, 0, 1), (-1, 5, 1)];
    same(
        &rt,
        &rows.as_slice(),
        &wanted.as_slice(),
        &"three cells to the west",
    );
}

#[test]
fn the_first_section_is_the_rule(rt: HostRuntime) {
    let both = b"@RULE B\n@TABLE\nn_states:3\nneighborhood:Moore\nsymmetries:permute\n@TREE\n";
    let rule = rule_of(&rt, rt.alloc(), both);
    expect_name(&rt, &rule, b"B", 3);
}
