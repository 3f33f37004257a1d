//! Tables with the first of their transitions that matches, worked out by hand. Where none does
//! the cell keeps its state, which is no result of these tables.
use super::{gives, rule};
use std::alloc::Global;
use std::process::Abort;
use table_symmetry::TableRule;

// The nine states 0 to 8, so that each place has a state of its own.
const NINE: [u8; 9] = [0, 1, 2, 3, 4, 5, 6, 7, 8];

// A neighbourhood, a transition that names the places of its inputs, and which places these are.
struct Named {
    neighborhood: &'static str,
    line: &'static str,
    places: &'static [u8],
}

const NAMED: [Named; 4] = [
    Named {
        neighborhood: "vonNeumann",
        line: "0,1,3,5,7,10",
        places: &[0, 1, 3, 5, 7],
    },
    Named {
        neighborhood: "Moore",
        line: "0,1,2,3,4,5,6,7,8,10",
        places: &NINE,
    },
    Named {
        neighborhood: "hexagonal",
        line: "0,1,3,4,5,7,8,10",
        places: &[0, 1, 3, 4, 5, 7, 8],
    },
    Named {
        neighborhood: "oneDimensional",
        line: "0,7,3,10",
        places: &[0, 7, 3],
    },
];

struct Overlapping {
    cell: u8,
    west: u8,
    east: u8,
    wanted: u8,
}

const OVERLAPPING: [Overlapping; 7] = [
    Overlapping {
        cell: 0,
        west: 0,
        east: 1,
        wanted: 5,
    },
    Overlapping {
        cell: 2,
        west: 1,
        east: 1,
        wanted: 5,
    },
    Overlapping {
        cell: 2,
        west: 2,
        east: 0,
        wanted: 6,
    },
    Overlapping {
        cell: 1,
        west: 0,
        east: 1,
        wanted: 6,
    },
    Overlapping {
        cell: 1,
        west: 1,
        east: 1,
        wanted: 7,
    },
    Overlapping {
        cell: 1,
        west: 1,
        east: 2,
        wanted: 1,
    },
    Overlapping {
        cell: 0,
        west: 1,
        east: 0,
        wanted: 0,
    },
];

// The rule of a table of so many states without symmetries.
fn rule_of(
    rt: &impl Abort,
    alloc: Global,
    states: u16,
    neighborhood: &str,
    lines: &str,
) -> TableRule {
    let lines = format!(in alloc;
        "n_states:{states}\nneighborhood:{neighborhood}\nsymmetries:none\n{lines}"
    ).expect(rt, "memory");
    rule(rt, alloc, lines.as_str())
}

fn keeps(rt: &impl Abort, alloc: Global, neighborhood: &str) {
    let rule = rule_of(rt, alloc, 2, neighborhood, "");
    gives(rt, &rule, [0; 9], 0);
    gives(rt, &rule, [1, 0, 0, 0, 0, 0, 0, 0, 0], 1);
}

// With a 9 at this place the transition matches only where the place is none of its inputs.
fn gives_changed(rt: &impl Abort, rule: &TableRule, place: u8, places: &[u8]) {
    assert!(rt; place < 9);
    let mut around = NINE;
    around[usize::from(place)] = 9;
    let wanted = if places.contains(&place) {
        around[0]
    } else {
        10
    };
    gives(rt, rule, around, wanted);
}

fn names_its_places(rt: &impl Abort, alloc: Global, case: &Named) {
    let rule = rule_of(rt, alloc, 11, case.neighborhood, case.line);
    gives(rt, &rule, NINE, 10);
    for place in 0..9 {
        gives_changed(rt, &rule, place, case.places);
    }
}

// So many transitions of 2 2 2, none of which matches 1 1 1, and then two of 1 1 1 and one of
// 2 2 2.
fn after_many(rt: &impl Abort, alloc: Global, before: u32) -> String {
    let mut lines = String::new(alloc);
    for _ in 0..before {
        lines.push_str("2,2,2,7\n").expect(rt, "memory");
    }
    lines
        .push_str("1,1,1,3\n1,1,1,4\n2,2,2,5\n")
        .expect(rt, "memory");
    lines
}

fn gives_first_of_many(rt: &impl Abort, alloc: Global, before: u32) {
    let lines = after_many(rt, alloc, before);
    let rule = rule_of(rt, alloc, 8, "oneDimensional", lines.as_str());
    gives(rt, &rule, [1, 0, 0, 1, 0, 0, 0, 1, 0], 3);
    let twos = if before == 0 { 5 } else { 7 };
    gives(rt, &rule, [2, 1, 1, 2, 1, 1, 1, 2, 1], twos);
    gives(rt, &rule, [1, 0, 0, 0, 0, 0, 0, 1, 0], 1);
}

fn gives_overlapping(rt: &impl Abort, rule: &TableRule, case: &Overlapping) {
    let around = [case.cell, 0, 0, case.east, 0, 0, 0, case.west, 0];
    gives(rt, rule, around, case.wanted);
}

// For each of 256 states a transition from it, with another state to the west, to that.
fn exchanges(rt: &impl Abort, alloc: Global) -> String {
    let mut lines = String::new(alloc);
    for state in 0..=255_u8 {
        write!(lines, "{},{},0,{}\n", state, 255 - state, 255 - state).expect(rt, "memory");
    }
    lines
}

fn exchanges_with_west(rt: &impl Abort, rule: &TableRule, state: u8) {
    let west = 255 - state;
    gives(rt, rule, [state, 0, 0, 0, 0, 0, 0, west, 0], west);
    // With another state to the west none matches.
    let other = 254_u8.wrapping_sub(state);
    gives(rt, rule, [state, 0, 0, 0, 0, 0, 0, other, 0], state);
}

#[test]
fn no_transitions(rt: HostRuntime) {
    keeps(&rt, rt.alloc(), "vonNeumann");
    keeps(&rt, rt.alloc(), "Moore");
    keeps(&rt, rt.alloc(), "hexagonal");
    keeps(&rt, rt.alloc(), "oneDimensional");
}

#[test]
fn the_inputs_of_every_neighborhood(rt: HostRuntime) {
    for case in &NAMED {
        names_its_places(&rt, rt.alloc(), case);
    }
}

#[test]
fn the_first_of_many_transitions(rt: HostRuntime) {
    for before in [0, 1, 63, 64, 65, 127, 128, 200] {
        gives_first_of_many(&rt, rt.alloc(), before);
    }
}

#[test]
fn transitions_that_overlap(rt: HostRuntime) {
    let lines = "var some={0,2}\nvar all={1,some}\nvar any=all\n\
        0,0,0,0\nsome,all,1,5\nall,some,any,6\nall,any,1,7\n";
    let rule = rule_of(&rt, rt.alloc(), 8, "oneDimensional", lines);
    for case in &OVERLAPPING {
        gives_overlapping(&rt, &rule, case);
    }
}

#[test]
fn all_256_states(rt: HostRuntime) {
    let lines = exchanges(&rt, rt.alloc());
    let rule = rule_of(&rt, rt.alloc(), 256, "oneDimensional", lines.as_str());
    for state in 0..=255 {
        exchanges_with_west(&rt, &rule, state);
    }
}
