//! Equality of rules, whose names don't matter.
use super::same;
use rule_tree::Rule;
use std::alloc::Global;
use std::process::Abort;

// A table with a variable and two transitions.
const T: &[u8] = b"@RULE T\n@TABLE\n\
    n_states:3\nneighborhood:oneDimensional\nsymmetries:none\n\
    var a={1,2}\n0,a,0,a\n1,0,0,2\n";

// Each cell copies its western neighbour.
const W: &[u8] = b"@RULE W\n\
    @TREE\n\
    num_states=2\n\
    num_neighbors=4\n\
    num_nodes=8\n\
    1 0 0\n\
    1 1 1\n\
    2 0 0\n\
    2 1 1\n\
    3 2 2\n\
    3 3 3\n\
    4 4 5\n\
    5 6 6\n";

fn expect_equal(rt: &impl Abort, alloc: Global, text: &[u8], other: &[u8], wanted: bool) {
    let rule = Rule::read(alloc, text).expect(rt, "a rule");
    let second = Rule::read(alloc, other).expect(rt, "another rule");
    same(rt, &rule.equals(&second), &wanted, &other);
    same(rt, &second.equals(&rule), &wanted, &other);
}

fn expect_table(rt: &impl Abort, alloc: Global, body: &str, wanted: bool) {
    let text = format!(in alloc; "@RULE T\n@TABLE\n{body}").expect(rt, "memory");
    expect_equal(rt, alloc, T, text.as_bytes(), wanted);
}

#[test]
fn tables_with_one_part_changed(rt: HostRuntime) {
    let alloc = rt.alloc();
    let cases = [
        (
            "n_states:3\nneighborhood:oneDimensional\nsymmetries:none\n\
             var a={1,2}\n0,a,0,a\n1,0,0,2",
            true,
        ),
        // Other words for the same parts.
        (
            "\nneighborhood: oneDimensional # a line\nsymmetries:none\nn_states:03\n\
             var b = {2,1,2}\n0,b,0,b\n1,0,0,2",
            true,
        ),
        // How many states there are.
        (
            "n_states:4\nneighborhood:oneDimensional\nsymmetries:none\n\
             var a={1,2}\n0,a,0,a\n1,0,0,2",
            false,
        ),
        // The symmetry.
        (
            "n_states:3\nneighborhood:oneDimensional\nsymmetries:reflect\n\
             var a={1,2}\n0,a,0,a\n1,0,0,2",
            false,
        ),
        // The states of the variable.
        (
            "n_states:3\nneighborhood:oneDimensional\nsymmetries:none\n\
             var a={2}\n0,a,0,a\n1,0,0,2",
            false,
        ),
        // The result of the last transition.
        (
            "n_states:3\nneighborhood:oneDimensional\nsymmetries:none\n\
             var a={1,2}\n0,a,0,a\n1,0,0,0",
            false,
        ),
        // An input of the last transition.
        (
            "n_states:3\nneighborhood:oneDimensional\nsymmetries:none\n\
             var a={1,2}\n0,a,0,a\n1,0,1,2",
            false,
        ),
        // The order of the transitions, which changes no next state here.
        (
            "n_states:3\nneighborhood:oneDimensional\nsymmetries:none\n\
             var a={1,2}\n1,0,0,2\n0,a,0,a",
            false,
        ),
        // One transition less, and one more.
        (
            "n_states:3\nneighborhood:oneDimensional\nsymmetries:none\n\
             var a={1,2}\n0,a,0,a",
            false,
        ),
        (
            "n_states:3\nneighborhood:oneDimensional\nsymmetries:none\n\
             var a={1,2}\n0,a,0,a\n1,0,0,2\n2,0,0,1",
            false,
        ),
    ];
    for case in cases.as_slice() {
        expect_table(&rt, alloc, case.0, case.1);
    }
}

fn expect_tree(rt: &impl Abort, alloc: Global, body: &str, wanted: bool) {
    let text = format!(in alloc; "@RULE V\n@TREE\n{body}").expect(rt, "memory");
    expect_equal(rt, alloc, W, text.as_bytes(), wanted);
}

#[test]
fn trees_with_one_part_changed(rt: HostRuntime) {
    let alloc = rt.alloc();
    let cases = [
        // The same under another name.
        (
            "num_states=2\nnum_neighbors=4\nnum_nodes=8\n\
             1 0 0\n1 1 1\n2 0 0\n2 1 1\n3 2 2\n3 3 3\n4 4 5\n5 6 6",
            true,
        ),
        // An entry of the root's node.
        (
            "num_states=2\nnum_neighbors=4\nnum_nodes=8\n\
             1 0 0\n1 1 1\n2 0 0\n2 1 1\n3 2 2\n3 3 3\n4 4 4\n5 6 6",
            false,
        ),
        // The order of two nodes, which changes no next state.
        (
            "num_states=2\nnum_neighbors=4\nnum_nodes=8\n\
             1 1 1\n1 0 0\n2 1 1\n2 0 0\n3 2 2\n3 3 3\n4 4 5\n5 6 6",
            false,
        ),
        // One node more, which nothing leads to.
        (
            "num_states=2\nnum_neighbors=4\nnum_nodes=9\n\
             1 0 0\n1 1 1\n2 0 0\n2 1 1\n3 2 2\n3 3 3\n4 4 5\n4 4 4\n5 6 6",
            false,
        ),
    ];
    for case in cases.as_slice() {
        expect_tree(&rt, alloc, case.0, case.1);
    }
}

#[test]
fn names_do_not_matter(rt: HostRuntime) {
    let alloc = rt.alloc();
    let other = b"@RULE Other\n@TABLE\n\
        n_states:3\nneighborhood:oneDimensional\nsymmetries:none\n\
        var a={1,2}\n0,a,0,a\n1,0,0,2\n";
    expect_equal(&rt, alloc, T, other, true);
}

// Whether both rules ask a tree, and that is the same.
fn ask_the_same(rule: &Rule, other: &Rule) -> bool {
    match (rule.tree(), other.tree()) {
        (Some(tree), Some(second)) => tree.equals(second),
        _ => false,
    }
}

// Each cell keeps its state, by a table of no transitions, and by the tree to which it translates.
#[test]
fn a_table_is_not_its_translation(rt: HostRuntime) {
    let alloc = rt.alloc();
    let tree = b"@RULE still\n@TREE\nnum_states=2\nnum_neighbors=4\nnum_nodes=5\n\
        1 0 1\n2 0 0\n3 1 1\n4 2 2\n5 3 3\n";
    let still = Rule::still(alloc).expect(&rt, "memory");
    let rule = Rule::read(alloc, tree).expect(&rt, "a rule");
    same(&rt, &ask_the_same(&still, &rule), &true, &"the trees");
    same(&rt, &still.equals(&rule), &false, &"the kinds");
    same(&rt, &rule.equals(&still), &false, &"the kinds");
    same(&rt, &still.equals(&still), &true, &"itself");
}
