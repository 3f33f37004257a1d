//! Tables with what they expand to and what they give.
use super::{gives, listed, looked_up, next, read, rule, same};
use rule_file::RuleFault;
use std::alloc::Global;
use std::process::Abort;
use table_symmetry::{Expanded, TableRule};

const STAR: &str = "n_states:2\nneighborhood:vonNeumann\nsymmetries:rotate4\n0,1,0,0,0,1\n";

const STAR_COMPACT: &str = "n_states:2\nneighborhood:vonNeumann\nsymmetries:rotate4\n010001\n";

const BOUND: &str =
    "n_states:3\nneighborhood:vonNeumann\nsymmetries:rotate4\nvar a={1,2}\n0,a,0,0,0,a\n";

const LEAST: &str = "n_states:3\nneighborhood:vonNeumann\nsymmetries:permute\n\
    var a={1,2}\nvar b={1,2}\n0,a,b,0,0,a\n";

const LEAST_IN_PLACE: &str = "n_states:3\nneighborhood:vonNeumann\nsymmetries:none\n\
    var a={1,2}\nvar b={1,2}\n0,a,b,0,0,a\n";

// A symmetry with the count of what one line expands to.
struct Arranged {
    symmetry: &'static str,
    wanted: usize,
}

const MOORE: [Arranged; 7] = [
    Arranged {
        symmetry: "none",
        wanted: 1,
    },
    Arranged {
        symmetry: "rotate4",
        wanted: 4,
    },
    Arranged {
        symmetry: "rotate8",
        wanted: 8,
    },
    Arranged {
        symmetry: "rotate4reflect",
        wanted: 8,
    },
    Arranged {
        symmetry: "rotate8reflect",
        wanted: 8,
    },
    Arranged {
        symmetry: "reflect_horizontal",
        wanted: 2,
    },
    Arranged {
        symmetry: "permute",
        wanted: 28,
    },
];

const HEXAGONAL: [Arranged; 6] = [
    Arranged {
        symmetry: "none",
        wanted: 1,
    },
    Arranged {
        symmetry: "rotate2",
        wanted: 2,
    },
    Arranged {
        symmetry: "rotate3",
        wanted: 3,
    },
    Arranged {
        symmetry: "rotate6",
        wanted: 6,
    },
    Arranged {
        symmetry: "rotate6reflect",
        wanted: 12,
    },
    Arranged {
        symmetry: "permute",
        wanted: 20,
    },
];

// A line that lists one live neighbour, which stands at a place among nine, and lets it count.
struct Lone {
    neighborhood: &'static str,
    line: &'static str,
    live: usize,
}

// The places are C, N, NE, E, SE, S, SW, W, NW.
const LONE: [Lone; 12] = [
    Lone {
        neighborhood: "vonNeumann",
        line: "0,0,1,0,0,1",
        live: 3,
    },
    Lone {
        neighborhood: "vonNeumann",
        line: "0,0,0,0,1,1",
        live: 7,
    },
    Lone {
        neighborhood: "Moore",
        line: "0,0,1,0,0,0,0,0,0,1",
        live: 2,
    },
    Lone {
        neighborhood: "Moore",
        line: "0,0,0,0,0,0,1,0,0,1",
        live: 6,
    },
    Lone {
        neighborhood: "Moore",
        line: "0,0,0,0,0,0,0,0,1,1",
        live: 8,
    },
    Lone {
        neighborhood: "hexagonal",
        line: "0,0,1,0,0,0,0,1",
        live: 3,
    },
    Lone {
        neighborhood: "hexagonal",
        line: "0,0,0,1,0,0,0,1",
        live: 4,
    },
    Lone {
        neighborhood: "hexagonal",
        line: "0,0,0,0,1,0,0,1",
        live: 5,
    },
    Lone {
        neighborhood: "hexagonal",
        line: "0,0,0,0,0,1,0,1",
        live: 7,
    },
    Lone {
        neighborhood: "hexagonal",
        line: "0,0,0,0,0,0,1,1",
        live: 8,
    },
    Lone {
        neighborhood: "oneDimensional",
        line: "0,1,0,1",
        live: 7,
    },
    Lone {
        neighborhood: "oneDimensional",
        line: "0,0,1,1",
        live: 3,
    },
];

fn expands_to(rt: &impl Abort, alloc: Global, lines: &str, wanted: usize) {
    let rows = rule(rt, alloc, lines).expand().expect(rt, "memory");
    same(rt, &rows.len(), &wanted, &lines);
}

// A table of two states with this line.
fn two_states(
    rt: &impl Abort,
    alloc: Global,
    neighborhood: &str,
    symmetry: &str,
    line: &str,
) -> String {
    format!(in alloc;
        "n_states:2\nneighborhood:{neighborhood}\nsymmetries:{symmetry}\n{line}\n"
    ).expect(rt, "memory")
}

fn arranges(rt: &impl Abort, alloc: Global, neighborhood: &str, line: &str, case: &Arranged) {
    let lines = two_states(rt, alloc, neighborhood, case.symmetry, line);
    expands_to(rt, alloc, lines.as_str(), case.wanted);
}

// The next state of a cell of 0 with a 1 at this place alone.
fn beside_one(rt: &impl Abort, rule: &TableRule, place: usize) -> u8 {
    let mut around = [0; 9];
    assert!(rt; place < 9);
    around[place] = 1;
    next(rt, rule, around)
}

fn gives_by_one(rt: &impl Abort, rule: &TableRule, place: usize, live: usize) {
    // A neighbour that isn't the table's doesn't matter, and alone gives nothing.
    same(
        rt,
        &beside_one(rt, rule, place),
        &u8::from(place == live),
        &place,
    );
}

fn stands_alone(rt: &impl Abort, alloc: Global, case: &Lone) {
    let lines = two_states(rt, alloc, case.neighborhood, "none", case.line);
    let rule = rule(rt, alloc, lines.as_str());
    for place in 1..9 {
        gives_by_one(rt, &rule, place, case.live);
    }
}

fn has_inputs(row: &Expanded, inputs: &[u8]) -> bool {
    let sets = row.inputs.as_slice();
    sets.len() == inputs.len() && sets.iter().zip(inputs).all(|(set, state)| set.has(*state))
}

// The result of the first expanded transition whose sets have the states at its places.
fn first_match(rows: &[Expanded], inputs: &[u8]) -> Option<u8> {
    for row in rows {
        if has_inputs(row, inputs) {
            return Some(row.result);
        }
    }
    None
}

// The next state is that of the first expanded transition, for five states of three that a number
// below 243 says.
fn gives_first(rt: &impl Abort, rule: &TableRule, rows: &[Expanded], number: u32) {
    let (c, n, e) = (
        (number % 3) as u8,
        (number / 3 % 3) as u8,
        (number / 9 % 3) as u8,
    );
    let (s, w) = ((number / 27 % 3) as u8, (number / 81 % 3) as u8);
    let wanted = first_match(rows, &[c, n, e, s, w]).unwrap_or(c);
    gives(rt, rule, [c, n, 0, e, 0, s, 0, w, 0], wanted);
}

// A table of Moore's neighbourhood with three variables of all states, each of them bound.
fn cubed(rt: &impl Abort, alloc: Global, states: u16) -> String {
    let mut lines = format!(in alloc;
        "n_states:{states}\nneighborhood:Moore\nsymmetries:none\nvar a={{0"
    ).expect(rt, "memory");
    for state in 1..states {
        write!(lines, ",{state}").expect(rt, "memory");
    }
    lines
        .push_str("}\nvar b=a\nvar c=a\na,a,b,b,c,c,0,0,0,0\n")
        .expect(rt, "memory");
    lines
}

// A cell of 0 becomes 1 where S and NW are the same but 0, or NE and E, or SW and W, or N and SE.
fn four_pairs(rt: &impl Abort, alloc: Global) -> String {
    let mut lines = String::new(alloc);
    lines
        .push_str("n_states:32\nneighborhood:Moore\nsymmetries:none\nvar a={1")
        .expect(rt, "memory");
    for state in 2..32 {
        write!(lines, ",{state}").expect(rt, "memory");
    }
    lines
        .push_str(
            "}\nvar z1={0,a}\nvar z2=z1\nvar z3=z1\nvar z4=z1\nvar z5=z1\nvar z6=z1\n\
            0,z1,z2,z3,z4,a,z5,z6,a,1\n\
            0,z1,a,a,z2,z3,z4,z5,z6,1\n\
            0,z1,z2,z3,z4,z5,a,a,z6,1\n\
            0,a,z1,z2,a,z3,z4,z5,z6,1\n",
        )
        .expect(rt, "memory");
    lines
}

fn is_restless(rt: &impl Abort, alloc: Global, lines: &str) {
    let fault = read(rt, alloc, lines).err();
    same(rt, &fault, &Some(RuleFault::NotQuiescent), &lines);
}

#[test]
fn expanded_transitions_are_counted(rt: HostRuntime) {
    expands_to(&rt, rt.alloc(), STAR, 4);
    expands_to(&rt, rt.alloc(), STAR_COMPACT, 4);
    expands_to(&rt, rt.alloc(), BOUND, 8);
    expands_to(&rt, rt.alloc(), LEAST, 24);
    expands_to(&rt, rt.alloc(), LEAST_IN_PLACE, 2);
}

#[test]
fn arrangements_are_counted(rt: HostRuntime) {
    for case in &MOORE {
        arranges(&rt, rt.alloc(), "Moore", "0,1,1,0,0,0,0,0,0,1", case);
    }
    for case in &HEXAGONAL {
        arranges(&rt, rt.alloc(), "hexagonal", "0,1,1,0,1,0,0,1", case);
    }
}

#[test]
fn eight_different_neighbours_stand_in_all_orders(rt: HostRuntime) {
    let lines = "n_states:9\nneighborhood:Moore\nsymmetries:permute\n0123456781\n";
    expands_to(&rt, rt.alloc(), lines, 40_320);
}

#[test]
fn neighbours_stand_where_the_line_says(rt: HostRuntime) {
    for case in &LONE {
        stands_alone(&rt, rt.alloc(), case);
    }
}

#[test]
fn the_least_assignment_gives_the_result(rt: HostRuntime) {
    // C 0, N 2, E 1: with a=1 the entries admit an order of the neighbours, and with a=2 this one.
    let around = [0, 2, 0, 1, 0, 0, 0, 0, 0];
    gives(&rt, &rule(&rt, rt.alloc(), LEAST), around, 1);
    gives(&rt, &rule(&rt, rt.alloc(), LEAST_IN_PLACE), around, 2);
}

#[test]
fn the_first_expanded_transition_that_matches_counts(rt: HostRuntime) {
    let rule = rule(&rt, rt.alloc(), LEAST);
    let rows = rule.expand().expect(&rt, "memory");
    for number in 0..243 {
        gives_first(&rt, &rule, &rows, number);
    }
}

// Of 100 states they expand to 1,000,000, the most that a table may have, as a script of examples/
// shows on the program, with one more and without: the interpreter of `rt try` takes minutes for it.
#[test]
fn each_bound_variable_multiplies_by_its_states(rt: HostRuntime) {
    let lines = cubed(&rt, rt.alloc(), 12);
    expands_to(&rt, rt.alloc(), lines.as_str(), 1_728);
}

#[test]
fn a_table_whose_tree_is_too_large_expands_to_few(rt: HostRuntime) {
    let lines = four_pairs(&rt, rt.alloc());
    expands_to(&rt, rt.alloc(), lines.as_str(), 124);
}

#[test]
fn restless_tables_are_refused(rt: HostRuntime) {
    is_restless(
        &rt,
        rt.alloc(),
        "n_states:2\nneighborhood:Moore\nsymmetries:permute\n0,0,0,0,0,0,0,0,0,1\n",
    );
    is_restless(
        &rt,
        rt.alloc(),
        "n_states:3\nneighborhood:hexagonal\nsymmetries:rotate6\nvar a={0,1}\na,0,0,0,0,0,0,2\n",
    );
}

#[test]
fn reading_lists_the_expanded_transitions(rt: HostRuntime) {
    let lines = two_states(&rt, rt.alloc(), "vonNeumann", "rotate4", "0,1,0,0,0,1");
    same(
        &rt,
        &listed(&rt, rt.alloc(), lines.as_str()).len(),
        &4,
        &"turns",
    );
}

#[test]
fn tables_are_read_alone_and_looked_up_later(rt: HostRuntime) {
    let later = looked_up(&rt, rt.alloc(), STAR);
    gives(&rt, &later, [0, 0, 0, 1, 0, 0, 0, 0, 0], 1);
    let rows = later.table().expand().expect(&rt, "memory");
    same(&rt, &rows.len(), &4, &"expanded transitions");
    let once = rule(&rt, rt.alloc(), STAR_COMPACT);
    same(&rt, &later.table().equals(once.table()), &true, &"tables");
}

#[test]
fn still_rules_keep_each_cell(rt: HostRuntime) {
    let still = TableRule::still(rt.alloc());
    same(&rt, &still.states(), &2, &"states");
    let rows = still.expand().expect(&rt, "memory");
    same(&rt, &rows.len(), &0, &"expanded transitions");
    gives(&rt, &still, [1, 0, 1, 0, 1, 0, 1, 0, 1], 1);
}
