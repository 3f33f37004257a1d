//! The faults of a tree's lines.
use super::trees::W;
use super::{STILL, read, same};
use basics::Refusal;
use std::alloc::Global;
use std::process::Abort;

/// The number and the line of the fault, or 0 where the file is read.
type Outcome = (u8, Option<u64>);

/// A file that is read.
const READ: Outcome = (0, None);

/// A tree under which nine zeros give another state.
const RESTLESS: Outcome = (13, None);

fn bad(line: u64) -> Outcome {
    (12, Some(line))
}

fn expect_outcome(rt: &impl Abort, alloc: Global, text: &[u8], wanted: &Outcome) {
    let found = match read(alloc, text) {
        Ok(_) => READ,
        Err(fault) => (fault.reason().number, fault.reason().place),
    };
    same(rt, &found, wanted, &text);
}

// The first bytes of the western tree.
fn expect_beginning(rt: &impl Abort, alloc: Global, len: usize, wanted: &Outcome) {
    expect_outcome(rt, alloc, W.get(..len).expect(rt, "a length"), wanted);
}

fn expect_beginnings(rt: &impl Abort, alloc: Global, from: usize, to: usize, wanted: Outcome) {
    for len in from..to {
        expect_beginning(rt, alloc, len, &wanted);
    }
}

#[test]
fn every_beginning_of_the_west_tree(rt: HostRuntime) {
    let alloc = rt.alloc();
    same(&rt, &W.len(), &103, &"bytes");
    expect_beginnings(&rt, alloc, 0, 7, (1, None));
    expect_beginnings(&rt, alloc, 7, 13, (2, None));
    expect_beginnings(&rt, alloc, 13, 15, bad(2));
    expect_beginnings(&rt, alloc, 15, 28, bad(3));
    expect_beginnings(&rt, alloc, 28, 44, bad(4));
    expect_beginnings(&rt, alloc, 44, 56, bad(5));
    expect_beginnings(&rt, alloc, 56, 62, bad(6));
    expect_beginnings(&rt, alloc, 62, 68, bad(7));
    expect_beginnings(&rt, alloc, 68, 74, bad(8));
    expect_beginnings(&rt, alloc, 74, 80, bad(9));
    expect_beginnings(&rt, alloc, 80, 86, bad(10));
    expect_beginnings(&rt, alloc, 86, 92, bad(11));
    expect_beginnings(&rt, alloc, 92, 98, bad(12));
    expect_beginnings(&rt, alloc, 98, 102, bad(13));
    expect_beginnings(&rt, alloc, 102, 104, READ);
}

// A tree of these lines, of which the first is line 3.
fn expect_lines(rt: &impl Abort, alloc: Global, lines: &str, wanted: &Outcome) {
    let text = format!(in alloc; "@RULE T\n@TREE\n{lines}\n").expect(rt, "memory");
    expect_outcome(rt, alloc, text.as_bytes(), wanted);
}

// A line that is no descriptor is the first node's.
fn expect_bad(rt: &impl Abort, alloc: Global, line: u64, trees: &[&str]) {
    for lines in trees {
        expect_lines(rt, alloc, lines, &bad(line));
    }
}

#[test]
fn missing_descriptors(rt: HostRuntime) {
    let alloc = rt.alloc();
    expect_bad(&rt, alloc, 2, &["", "# no line"]);
    expect_bad(
        &rt,
        alloc,
        3,
        &[
            "num_states=2",
            "num_states=2\n\n# no line",
            "1 0 1\nnum_states=2",
        ],
    );
    expect_bad(
        &rt,
        alloc,
        4,
        &["num_states=2\nnum_states=2", "num_nodes=5\nnum_nodes=x"],
    );
    expect_bad(
        &rt,
        alloc,
        5,
        &[
            "num_states=2\nnum_neighbors=4\nnum_nodes=5",
            "num_states=2\nnum_neighbors=4\n1 0 1",
            "num_states=2\nnum_nodes=5\n1 0 1",
            "num_nodes=5\nnum_neighbors=4\n1 0 1",
            "num_neighbors=4\n\nnum_neighbors=8",
            // 4 GB of nodes that aren't there.
            "num_states=256\nnum_neighbors=8\nnum_nodes=4194304",
        ],
    );
}

#[test]
fn faults_of_descriptors(rt: HostRuntime) {
    expect_bad(
        &rt,
        rt.alloc(),
        3,
        &[
            "num_states",
            "num_states 2",
            "num_states:2",
            "num_states==2",
            "num_states=",
            "num_states=2 2",
            "num_states=+2",
            "num_states=two",
            "num_states=0",
            "num_states=1",
            "num_states=257",
            "num_states=18446744073709551618",
            "Num_States=2",
            "n_states=2",
            "num_neighbors=0",
            "num_neighbors=3",
            "num_neighbors=5",
            "num_neighbors=6",
            "num_neighbors=9",
            "num_neighbors=48",
            "num_neighbors=18446744073709551620",
            "num_nodes=0",
            "num_nodes=4194305",
            "num_nodes=18446744073709551617",
        ],
    );
}

#[test]
fn numbers_of_descriptors(rt: HostRuntime) {
    let alloc = rt.alloc();
    let rest = "num_neighbors=4\nnum_nodes=5";
    expect_counted(&rt, alloc, "num_states=2", rest, "1 0 1", 6);
    expect_counted(&rt, alloc, "num_states=256", rest, "1 0", 6);
    expect_counted(&rt, alloc, "num_states=4194304", rest, "1", 3);
    // So many nodes are no fault, but there are only five of them.
    let many = "num_neighbors=4\nnum_nodes=4194304";
    expect_counted(&rt, alloc, "num_states=2", many, STILL, 10);
}

fn expect_counted(
    rt: &impl Abort,
    alloc: Global,
    states: &str,
    rest: &str,
    nodes: &str,
    line: u64,
) {
    let lines = format!(in alloc; "{states}\n{rest}\n{nodes}").expect(rt, "memory");
    expect_lines(rt, alloc, &lines, &bad(line));
}

// So many nodes, of which the first is line 6.
fn expect_node_lines(rt: &impl Abort, alloc: Global, count: u8, nodes: &str, wanted: &Outcome) {
    let head = "num_states=2\nnum_neighbors=4";
    let lines = format!(in alloc; "{head}\nnum_nodes={count}\n{nodes}").expect(rt, "memory");
    expect_lines(rt, alloc, &lines, wanted);
}

fn expect_nodes(rt: &impl Abort, alloc: Global, count: u8, wanted: Outcome, trees: &[&str]) {
    for nodes in trees {
        expect_node_lines(rt, alloc, count, nodes, &wanted);
    }
}

#[test]
fn numbers_of_nodes(rt: HostRuntime) {
    let alloc = rt.alloc();
    expect_nodes(
        &rt,
        alloc,
        5,
        READ,
        &[
            "1 0 1\n2 0 0\n3 1 1\n4 2 2\n5 3 3",
            "1\t0 1\n\n2  0\t 0\n3 01 1 # so\n4 2 2\n005 3 3",
        ],
    );
    expect_nodes(
        &rt,
        alloc,
        5,
        bad(6),
        &[
            "1 0",
            "1 0 1 0",
            "1",
            "1,0,1",
            "1 0 1,",
            "1 0 x",
            "1 0 -1",
            "1 +0 1",
            "x 0 1",
            "1 0 1\r",
            "1 0 1\r\r",
        ],
    );
    expect_nodes(&rt, alloc, 5, bad(7), &["1 0 1\nnum_states=2"]);
    expect_nodes(&rt, alloc, 5, bad(9), &["1 0 1\n2 0 0\n\n3 1"]);
}

#[test]
fn states_and_depths_of_nodes(rt: HostRuntime) {
    let alloc = rt.alloc();
    expect_nodes(
        &rt,
        alloc,
        5,
        bad(6),
        &[
            "1 0 2",
            "1 2 0",
            "1 0 4294967296",
            "1 0 18446744073709551616",
            "1 0 99999999999999999999999999",
            "0 0 0",
            "0 0 1\n1 0 0",
            "2 0 0",
            "18446744073709551617 0 1",
        ],
    );
    expect_nodes(
        &rt,
        alloc,
        5,
        bad(7),
        &[
            "1 0 1\n0 0 0",
            "1 0 1\n3 0 0",
            "1 0 1\n4294967297 0 0",
            "1 0 1\n4294967298 0 0",
            "1 0 1\n18446744073709551618 0 0",
        ],
    );
}

#[test]
fn entries_of_nodes(rt: HostRuntime) {
    let alloc = rt.alloc();
    // They aren't the numbers of earlier nodes.
    expect_nodes(
        &rt,
        alloc,
        5,
        bad(7),
        &[
            "1 0 1\n2 0 1",
            "1 0 1\n2 2 0",
            "1 0 1\n2 0 4294967296",
            "1 0 1\n2 18446744073709551616 0",
        ],
    );
    // They are two less deep, as deep, and deeper.
    expect_nodes(
        &rt,
        alloc,
        6,
        bad(8),
        &[
            "1 0 1\n2 0 0\n3 1 0",
            "1 0 1\n2 0 0\n3 0 1",
            "1 0 1\n2 0 0\n2 0 1",
        ],
    );
    expect_nodes(&rt, alloc, 6, bad(9), &["1 0 1\n2 0 0\n3 1 1\n2 0 2"]);
}

#[test]
fn counts_of_nodes(rt: HostRuntime) {
    let alloc = rt.alloc();
    let five = "1 0 1\n2 0 0\n3 1 1\n4 2 2\n5 3 3";
    let commented = "1 0 1\n2 0 0\n3 1 1\n4 2 2\n5 3 3 # so\n\n#\n";
    let deep_below = "1 0 1\n2 0 0\n3 1 1\n4 2 2\n5 3 3\n4 2 2";
    let too_deep = "1 0 1\n2 0 0\n3 1 1\n4 2 2\n5 3 3\n6 4 4";
    let one_more = "1 0 1\n2 0 0\n3 1 1\n4 2 2\n5 3 3\n1 0 1";
    let more_behind = "1 0 1\n2 0 0\n3 1 1\n4 2 2\n5 3 3\n\n# so\nx";
    expect_nodes(&rt, alloc, 6, bad(10), &[five, commented]);
    expect_nodes(&rt, alloc, 4, bad(9), &[five]);
    expect_nodes(&rt, alloc, 5, bad(11), &[one_more]);
    expect_nodes(&rt, alloc, 5, bad(13), &[more_behind]);
    // The last node is the root; others may be as deep, or deeper.
    expect_nodes(&rt, alloc, 1, bad(6), &["1 0 1"]);
    expect_nodes(&rt, alloc, 6, bad(11), &[deep_below, too_deep]);
    let two_roots = "1 0 1\n2 0 0\n3 1 1\n4 2 2\n5 3 3\n5 3 3";
    let one_deeper = "1 0 1\n2 0 0\n3 1 1\n4 2 2\n5 3 3\n6 4 4\n5 3 3";
    let two_deeper = "1 0 1\n2 0 0\n3 1 1\n4 2 2\n5 3 3\n6 4 4\n7 5 5\n5 3 3";
    expect_nodes(&rt, alloc, 6, READ, &[two_roots]);
    expect_nodes(&rt, alloc, 7, READ, &[one_deeper]);
    expect_nodes(&rt, alloc, 8, READ, &[two_deeper]);
}

#[test]
fn trees_that_nine_zeros_change(rt: HostRuntime) {
    let alloc = rt.alloc();
    // It shows after all lines.
    let restless = "1 1 0\n2 0 0\n3 1 1\n4 2 2\n5 3 3";
    let bad_root = "1 1 0\n2 0 0\n3 1 1\n4 2 2\n5 3 4";
    let one_more = "1 1 0\n2 0 0\n3 1 1\n4 2 2\n5 3 3\n5 3 3";
    expect_nodes(&rt, alloc, 5, RESTLESS, &[restless]);
    expect_nodes(&rt, alloc, 5, bad(10), &[bad_root]);
    expect_nodes(&rt, alloc, 5, bad(11), &[one_more]);
    let first = "1 1 0\n1 0 1\n2 0 1\n3 2 2\n4 3 3\n5 4 4";
    let second = "1 1 0\n1 0 1\n2 1 0\n3 2 2\n4 3 3\n5 4 4";
    expect_nodes(&rt, alloc, 6, RESTLESS, &[first]);
    expect_nodes(&rt, alloc, 6, READ, &[second]);
}

fn expect_root(rt: &impl Abort, alloc: Global, count: u8, last: &str, wanted: &Outcome) {
    let head = "num_states=2\nnum_neighbors=8";
    let low = "1 0 1\n2 0 0\n3 1 1\n4 2 2\n5 3 3\n6 4 4\n7 5 5\n8 6 6";
    let lines = format!(in alloc; "{head}\nnum_nodes={count}\n{low}\n{last}");
    expect_lines(rt, alloc, &lines.expect(rt, "memory"), wanted);
}

#[test]
fn roots_of_eight_neighbors(rt: HostRuntime) {
    let alloc = rt.alloc();
    expect_root(&rt, alloc, 9, "9 7 7", &READ);
    expect_root(&rt, alloc, 8, "", &bad(13));
    expect_root(&rt, alloc, 9, "8 6 6", &bad(14));
    expect_root(&rt, alloc, 10, "9 7 7\n10 8 8", &bad(15));
    expect_root(&rt, alloc, 11, "9 7 7\n10 8 8\n9 7 7", &READ);
}

fn expect_front(rt: &impl Abort, alloc: Global, front: &str, wanted: &Outcome) {
    let head = "num_states=2\nnum_neighbors=4\nnum_nodes=5";
    let text = format!(in alloc; "@RULE T\n{front}\n{head}\n{STILL}\n").expect(rt, "memory");
    expect_outcome(rt, alloc, text.as_bytes(), wanted);
}

#[test]
fn sections_that_stand_first(rt: HostRuntime) {
    let alloc = rt.alloc();
    expect_front(&rt, alloc, "@TREE", &READ);
    expect_front(&rt, alloc, "@COLORS\n1 2 3\n@TREE\tit", &READ);
    expect_front(&rt, alloc, "@TREE\n@TREE", &bad(2));
    expect_front(&rt, alloc, "@TREE\n\n# none\n@TABLE", &bad(2));
    expect_front(&rt, alloc, "@TREE\nnum_states=2\n@TREE", &bad(3));
}
