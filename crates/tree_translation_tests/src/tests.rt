//! Tables with the trees to which they are translated. Next states are worked out by hand, or are
//! those of the table itself.
use basics::Refusal;
use decision_tree::TreeRule;
use plane_core::Around;
use rule_file::cut;
use std::alloc::{AllocError, Global};
use std::fmt::Debug;
use std::process::Abort;
use table_symmetry::{TableRule, read_table};
use test_planes::are_below;
use tree_translation::{TreeFault, from_table};

// One neighbour alone.
const LONE: &str = "n_states:2\nneighborhood:vonNeumann\nsymmetries:rotate4\n0,1,0,0,0,1\n";

const STAR: &str = "n_states:3\nneighborhood:vonNeumann\nsymmetries:rotate4\n\
    var a={1,2}\n0,a,0,0,0,a\n";

// The neighbour to the south-west alone.
const SOUTH_WEST: &str = "n_states:2\nneighborhood:Moore\nsymmetries:none\n0,0,0,0,0,0,1,0,0,1\n";

// Two neighbours side by side.
const PAIR: &str = "n_states:2\nneighborhood:hexagonal\nsymmetries:rotate6\n0,1,1,0,0,0,0,1\n";

// A cell is 1 next where exactly one of its neighbours is.
const ONE_OF_TWO: &str = "n_states:2\nneighborhood:oneDimensional\nsymmetries:none\n\
    0,1,0,1\n0,0,1,1\n1,0,0,0\n1,1,1,0\n";

// To a 1 and a 2 the first line gives 2, and so the second doesn't give 1.
const SHADOWED: &str = "n_states:3\nneighborhood:Moore\nsymmetries:permute\nvar a={1,2}\n\
    0,1,2,0,0,0,0,0,0,2\n0,1,a,0,0,0,0,0,0,1\n0,a,0,0,0,0,0,0,0,a\n1,0,0,0,0,0,0,0,0,0\n";

// The last line says what happens anyway.
const NEEDLESS: &str = "n_states:2\nneighborhood:oneDimensional\nsymmetries:none\n\
    0,1,0,1\n0,0,1,1\n1,0,1,1\n";

const NO_LINES: &str = "n_states:3\nneighborhood:hexagonal\nsymmetries:none\n";

/// Stops the test where what was found isn't what is wanted.
fn same<T: PartialEq + Debug, A: Debug>(rt: &impl Abort, found: &T, wanted: &T, at: &A) {
    assert!(rt; *found == *wanted, "{at:?}: {found:?} is not {wanted:?}");
}

// A file with a table of these lines.
fn file_of(rt: &impl Abort, alloc: Global, lines: &str) -> String {
    let text = format!(in alloc; "@RULE T\n@TABLE\n{lines}");
    text.expect(rt, "memory")
}

// A table of these lines.
fn table_of(rt: &impl Abort, alloc: Global, lines: &str) -> TableRule {
    let text = file_of(rt, alloc, lines);
    let file = cut(alloc, text.as_bytes()).expect(rt, "a table");
    read_table(alloc, &file).expect(rt, "a table")
}

fn translated(rt: &impl Abort, alloc: Global, table: &TableRule) -> TreeRule {
    from_table(alloc, table).expect(rt, "a tree")
}

// The tree of a table of these lines.
fn tree_of(rt: &impl Abort, alloc: Global, lines: &str) -> TreeRule {
    let table = table_of(rt, alloc, lines);
    translated(rt, alloc, &table)
}

// What a table gives for these nine states, if it has them.
fn of_table(table: &TableRule, around: [u8; 9]) -> Option<u8> {
    if are_below(&around, table.states()) {
        Some(table.next(&Around(around)))
    } else {
        None
    }
}

// What a tree gives for these nine states, if it has them.
fn of_tree(tree: &TreeRule, around: [u8; 9]) -> Option<u8> {
    if are_below(&around, tree.states()) {
        Some(tree.next(&Around(around)))
    } else {
        None
    }
}

// Stops the test where the tree doesn't have these nine states, or this isn't the next.
fn expect_next(rt: &impl Abort, tree: &TreeRule, around: [u8; 9], wanted: u8) {
    same(rt, &of_tree(tree, around), &Some(wanted), &around);
}

// The bits of a number, as nine states.
fn nine_bits(number: u16) -> [u8; 9] {
    [
        (number % 2) as u8,
        (number / 2 % 2) as u8,
        (number / 4 % 2) as u8,
        (number / 8 % 2) as u8,
        (number / 16 % 2) as u8,
        (number / 32 % 2) as u8,
        (number / 64 % 2) as u8,
        (number / 128 % 2) as u8,
        (number / 256 % 2) as u8,
    ]
}

// Counts nine states up, each of which is at most the last. Behind the greatest come zeros.
fn count_up(around: &mut [u8; 9], last: u8) {
    for state in around.iter_mut() {
        if *state < last {
            *state += 1;
            return;
        }
        *state = 0;
    }
}

fn is_different(table: &TableRule, tree: &TreeRule, around: [u8; 9]) -> bool {
    of_table(table, around) != of_tree(tree, around)
}

// For how many of the first so many nine states up to the last a table and a tree differ, and the
// nine states that come next.
fn differences(table: &TableRule, tree: &TreeRule, last: u8, count: u16) -> (u16, [u8; 9]) {
    let mut found: u16 = 0;
    let mut around = [0; 9];
    for _ in 0..count {
        if is_different(table, tree, around) {
            found = found.saturating_add(1);
        }
        count_up(&mut around, last);
    }
    (found, around)
}

// The table and its tree give the same for all of so many nine states.
fn expect_same(rt: &impl Abort, alloc: Global, lines: &str, last: u8, count: u16) {
    let table = table_of(rt, alloc, lines);
    let tree = translated(rt, alloc, &table);
    same(rt, &tree.states(), &(u16::from(last) + 1), &lines);
    same(
        rt,
        &differences(&table, &tree, last, count),
        &(0, [0; 9]),
        &lines,
    );
}

#[test]
fn every_nine_states(rt: HostRuntime) {
    let alloc = rt.alloc();
    expect_same(&rt, alloc, LONE, 1, 512);
    expect_same(&rt, alloc, STAR, 2, 19683);
    expect_same(&rt, alloc, SOUTH_WEST, 1, 512);
    expect_same(&rt, alloc, PAIR, 1, 512);
    expect_same(&rt, alloc, ONE_OF_TWO, 1, 512);
    expect_same(&rt, alloc, SHADOWED, 2, 19683);
}

// The nine states are C, N, NE, E, SE, S, SW, W, NW.
#[test]
fn neighbors_alone(rt: HostRuntime) {
    let alloc = rt.alloc();
    let lone = tree_of(&rt, alloc, LONE);
    expect_next(&rt, &lone, [0, 1, 0, 0, 0, 0, 0, 0, 0], 1);
    expect_next(&rt, &lone, [0, 0, 1, 0, 1, 0, 1, 1, 1], 1);
    expect_next(&rt, &lone, [0, 0, 0, 1, 0, 0, 0, 1, 0], 0);
    expect_next(&rt, &lone, [1, 0, 0, 0, 0, 0, 0, 0, 0], 1);
    let star = tree_of(&rt, alloc, STAR);
    expect_next(&rt, &star, [0, 0, 0, 0, 0, 2, 0, 0, 0], 2);
    expect_next(&rt, &star, [0, 0, 2, 1, 2, 0, 2, 0, 2], 1);
    expect_next(&rt, &star, [0, 2, 0, 0, 0, 0, 0, 1, 0], 0);
    expect_next(&rt, &star, [2, 1, 0, 0, 0, 0, 0, 0, 0], 2);
    let south_west = tree_of(&rt, alloc, SOUTH_WEST);
    expect_next(&rt, &south_west, [0, 0, 0, 0, 0, 0, 1, 0, 0], 1);
    expect_next(&rt, &south_west, [0, 0, 0, 0, 1, 0, 0, 0, 0], 0);
    expect_next(&rt, &south_west, [0, 0, 1, 0, 0, 0, 1, 0, 0], 0);
    expect_next(&rt, &south_west, [0, 0, 1, 0, 0, 0, 0, 0, 0], 0);
}

#[test]
fn pairs_of_neighbors(rt: HostRuntime) {
    let alloc = rt.alloc();
    let pair = tree_of(&rt, alloc, PAIR);
    expect_next(&rt, &pair, [0, 1, 0, 1, 0, 0, 0, 0, 0], 1);
    expect_next(&rt, &pair, [0, 1, 1, 0, 0, 0, 1, 0, 1], 1);
    expect_next(&rt, &pair, [0, 1, 0, 0, 1, 0, 0, 0, 0], 0);
    expect_next(&rt, &pair, [0, 1, 1, 0, 0, 0, 1, 0, 0], 0);
    let one_of_two = tree_of(&rt, alloc, ONE_OF_TWO);
    expect_next(&rt, &one_of_two, [0, 0, 0, 0, 0, 0, 0, 1, 0], 1);
    expect_next(&rt, &one_of_two, [1, 1, 1, 0, 1, 1, 1, 0, 1], 0);
    expect_next(&rt, &one_of_two, [1, 0, 0, 1, 0, 1, 0, 0, 0], 1);
    expect_next(&rt, &one_of_two, [0, 1, 0, 1, 0, 0, 0, 1, 0], 0);
    let shadowed = tree_of(&rt, alloc, SHADOWED);
    expect_next(&rt, &shadowed, [0, 0, 1, 0, 0, 0, 0, 2, 0], 2);
    expect_next(&rt, &shadowed, [0, 1, 0, 0, 0, 1, 0, 0, 0], 1);
    expect_next(&rt, &shadowed, [0, 0, 0, 0, 0, 0, 0, 0, 2], 2);
    expect_next(&rt, &shadowed, [1, 0, 0, 0, 0, 0, 0, 0, 0], 0);
}

// These states with 0 where the neighbourhood has none.
fn bare(mut around: [u8; 9], places: [bool; 9]) -> [u8; 9] {
    for (state, is_place) in around.iter_mut().zip(places) {
        if !is_place {
            *state = 0;
        }
    }
    around
}

fn expect_same_bare(rt: &impl Abort, tree: &TreeRule, around: [u8; 9], places: [bool; 9]) {
    let wanted = of_tree(tree, bare(around, places));
    same(rt, &of_tree(tree, around), &wanted, &around);
}

// Cells that a table's neighbourhood doesn't have change nothing.
fn expect_places(rt: &impl Abort, alloc: Global, lines: &str, places: [bool; 9]) {
    let tree = tree_of(rt, alloc, lines);
    for number in 0..512 {
        expect_same_bare(rt, &tree, nine_bits(number), places);
    }
}

#[test]
fn further_cells_change_nothing(rt: HostRuntime) {
    let alloc = rt.alloc();
    let (yes, no) = (true, false);
    let four = [yes, yes, no, yes, no, yes, no, yes, no];
    let six = [yes, yes, no, yes, yes, yes, no, yes, yes];
    let two = [yes, no, no, yes, no, no, no, yes, no];
    expect_places(&rt, alloc, LONE, four);
    expect_places(&rt, alloc, PAIR, six);
    expect_places(&rt, alloc, ONE_OF_TWO, two);
}

fn expect_kept(rt: &impl Abort, tree: &TreeRule, around: [u8; 9]) {
    let [centre, ..] = around;
    expect_next(rt, tree, around, centre);
}

#[test]
fn still_tables_stay_still(rt: HostRuntime) {
    let tree = translated(&rt, rt.alloc(), &TableRule::still(rt.alloc()));
    same(&rt, &tree.states(), &2, &"states");
    for number in 0..512 {
        expect_kept(&rt, &tree, nine_bits(number));
    }
}

fn expect_tree(rt: &impl Abort, alloc: Global, lines: &str, wanted: &str) {
    let tree = tree_of(rt, alloc, lines);
    let said = format!(in alloc; "{tree:?}").expect(rt, "memory");
    same(rt, &said.as_str(), &wanted, &lines);
}

// The nodes stand in the order in which states lead to them, each behind those to which it leads.
#[test]
fn nodes_are_shared(rt: HostRuntime) {
    let alloc = rt.alloc();
    expect_tree(
        &rt,
        alloc,
        NO_LINES,
        "TreeRule { states: 3, neighbors: Eight, root: 8, entries: [0, 1, 2, 0, 0, 0, \
        1, 1, 1, 2, 2, 2, 3, 3, 3, 4, 4, 4, 5, 5, 5, 6, 6, 6, 7, 7, 7] }",
    );
    expect_tree(
        &rt,
        alloc,
        LONE,
        "TreeRule { states: 2, neighbors: Four, root: 10, entries: [0, 1, 1, 1, \
        0, 1, 1, 0, 2, 3, 0, 0, 3, 5, 4, 6, 5, 5, 6, 8, 7, 9] }",
    );
    expect_tree(
        &rt,
        alloc,
        SOUTH_WEST,
        "TreeRule { states: 2, neighbors: Eight, root: 16, entries: [0, 1, 0, 0, \
        1, 1, 2, 2, 3, 3, 4, 4, 1, 1, 6, 0, 7, 1, 8, 2, 9, 3, 10, 4, \
        5, 11, 5, 5, 12, 13, 13, 13, 14, 15] }",
    );
    expect_tree(
        &rt,
        alloc,
        ONE_OF_TWO,
        "TreeRule { states: 2, neighbors: Four, root: 7, entries: [0, 0, 0, 0, \
        1, 1, 2, 2, 1, 3, 3, 1, 4, 5, 6, 6] }",
    );
    expect_tree(
        &rt,
        alloc,
        NEEDLESS,
        "TreeRule { states: 2, neighbors: Four, root: 7, entries: [0, 1, 0, 0, \
        1, 1, 2, 2, 1, 3, 3, 1, 4, 5, 6, 6] }",
    );
}

fn expect_fault(
    rt: &impl Abort,
    alloc: Global,
    fault: TreeFault,
    number: u8,
    name: &str,
    text: &str,
) {
    same(rt, &fault.reason().number, &number, &name);
    same(rt, &fault.reason().name, &name, &number);
    same(rt, &fault.reason().place, &None, &name);
    let said = format!(in alloc; "{fault}").expect(rt, "memory");
    same(rt, &said.as_str(), &text, &name);
}

#[test]
fn what_faults_say(rt: HostRuntime) {
    let large = "the tree has more than 1,000,000 nodes";
    let memory = "there is not enough memory";
    expect_fault(
        &rt,
        rt.alloc(),
        TreeFault::TreeTooLarge,
        14,
        "TreeTooLarge",
        large,
    );
    expect_fault(&rt, rt.alloc(), TreeFault::NoMemory, 70, "NoMemory", memory);
}

// A cell of 0 becomes 1 where S and NW are the same but 0, or NE and E, or SW and W, or N and SE.
// Each corner counts for itself, so that behind the four a list for each of their states is left.
fn four_pairs(alloc: Global, states: u16) -> Result<String, AllocError> {
    let mut lines = format!(in alloc;
        "n_states:{states}\nneighborhood:Moore\nsymmetries:none\nvar a={{1"
    )?;
    for state in 2..states {
        write!(lines, ",{state}")?;
    }
    lines.push_str("}\n")?;
    for name in ["z1", "z2", "z3", "z4", "z5", "z6"] {
        write!(lines, "var {name}={{0,a}}\n")?;
    }
    lines.push_str(
        "0,z1,z2,z3,z4,a,z5,z6,a,1\n\
        0,z1,a,a,z2,z3,z4,z5,z6,1\n\
        0,z1,z2,z3,z4,z5,a,a,z6,1\n\
        0,a,z1,z2,a,z3,z4,z5,z6,1\n",
    )?;
    Ok(lines)
}

fn four_pairs_table(rt: &impl Abort, alloc: Global, states: u16) -> TableRule {
    let lines = four_pairs(alloc, states).expect(rt, "memory");
    table_of(rt, alloc, &lines)
}

// Of 32 states 32 * 32 * 32 * 32 lists are left behind the corners, and no two of them do the same; of 64
// states more than a million are left soon. Such tables a script of examples/ gives to the program: the
// interpreter of `rt try` doesn't come to the end of a million nodes in the minute that a test has there.
//
// The nine states are C, N, NE, E, SE, S, SW, W, NW.
#[test]
fn pairs_of_eight_states(rt: HostRuntime) {
    let alloc = rt.alloc();
    let table = four_pairs_table(&rt, alloc, 8);
    let tree = translated(&rt, alloc, &table);
    same(&rt, &tree.states(), &8, &"states");
    expect_next(&rt, &tree, [0, 0, 0, 0, 0, 0, 0, 0, 0], 0);
    expect_next(&rt, &tree, [0, 0, 0, 0, 0, 5, 0, 0, 5], 1);
    expect_next(&rt, &tree, [0, 0, 0, 0, 0, 5, 0, 0, 4], 0);
    expect_next(&rt, &tree, [0, 0, 7, 7, 0, 0, 0, 0, 0], 1);
    expect_next(&rt, &tree, [0, 0, 0, 0, 0, 0, 1, 1, 0], 1);
    expect_next(&rt, &tree, [0, 2, 0, 0, 2, 0, 0, 0, 0], 1);
    expect_next(&rt, &tree, [6, 2, 0, 0, 2, 0, 0, 0, 0], 6);
    expect_next(&rt, &tree, [0, 1, 2, 3, 4, 5, 6, 7, 1], 0);
    expect_next(&rt, &tree, [0, 1, 2, 3, 4, 5, 7, 7, 1], 1);
    expect_next(&rt, &tree, [0, 2, 1, 2, 3, 3, 2, 1, 2], 0);
}
