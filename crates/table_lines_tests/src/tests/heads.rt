//! Tables with their first fault: its number, and its line where it has one.
use super::{Outcome, ends, read, same, table};
use std::alloc::Global;
use std::process::Abort;
use table_lines::{Neighborhood, Symmetry};

// Lines from the head on.
struct HeadFault {
    lines: &'static str,
    number: u8,
    line: Option<u64>,
}

// The symmetries that a neighbourhood has and that it doesn't have.
struct Symmetries {
    neighborhood: &'static str,
    accepted: &'static [&'static str],
    refused: &'static [&'static str],
}

// How many entries a transition has.
struct Count {
    neighborhood: &'static str,
    entries: usize,
}

const SYMMETRIES: [Symmetries; 4] = [
    Symmetries {
        neighborhood: "vonNeumann",
        accepted: &[
            "none",
            "rotate4",
            "rotate4reflect",
            "reflect_horizontal",
            "permute",
        ],
        refused: &[
            "rotate2",
            "rotate3",
            "rotate6",
            "rotate8",
            "rotate6reflect",
            "rotate8reflect",
            "reflect",
        ],
    },
    Symmetries {
        neighborhood: "Moore",
        accepted: &[
            "none",
            "rotate4",
            "rotate8",
            "rotate4reflect",
            "rotate8reflect",
            "reflect_horizontal",
            "permute",
        ],
        refused: &["rotate2", "rotate3", "rotate6", "rotate6reflect", "reflect"],
    },
    Symmetries {
        neighborhood: "hexagonal",
        accepted: &[
            "none",
            "rotate2",
            "rotate3",
            "rotate6",
            "rotate6reflect",
            "permute",
        ],
        refused: &[
            "rotate4",
            "rotate8",
            "rotate4reflect",
            "rotate8reflect",
            "reflect_horizontal",
            "reflect",
        ],
    },
    Symmetries {
        neighborhood: "oneDimensional",
        accepted: &["none", "reflect", "permute"],
        refused: &[
            "rotate2",
            "rotate3",
            "rotate4",
            "rotate6",
            "rotate8",
            "rotate4reflect",
            "rotate6reflect",
            "rotate8reflect",
            "reflect_horizontal",
        ],
    },
];

const NO_SYMMETRIES: [&str; 9] = [
    "",
    "None",
    "NONE",
    "rotate",
    "rotate5",
    "rotate4 reflect",
    "permute,",
    "reflect_vertical",
    "0",
];

const HEADS: [HeadFault; 24] = [
    HeadFault {
        lines: "",
        number: 3,
        line: None,
    },
    HeadFault {
        lines: "n_states:2\nneighborhood:Moore",
        number: 3,
        line: None,
    },
    HeadFault {
        lines: "n_states:2\nsymmetries:none",
        number: 3,
        line: None,
    },
    HeadFault {
        lines: "neighborhood:Moore\nsymmetries:none",
        number: 3,
        line: None,
    },
    HeadFault {
        lines: "n_states:2\n0,0,0,0",
        number: 3,
        line: None,
    },
    HeadFault {
        lines: "n_states:2\nvar a={1}",
        number: 3,
        line: None,
    },
    HeadFault {
        lines: "n_states=2",
        number: 3,
        line: None,
    },
    HeadFault {
        lines: "N_STATES:2",
        number: 3,
        line: None,
    },
    HeadFault {
        lines: "foo:1",
        number: 3,
        line: None,
    },
    HeadFault {
        lines: "n_states:",
        number: 4,
        line: None,
    },
    HeadFault {
        lines: "n_states:1",
        number: 4,
        line: None,
    },
    HeadFault {
        lines: "n_states:257",
        number: 4,
        line: None,
    },
    HeadFault {
        lines: "n_states:18446744073709551618",
        number: 4,
        line: None,
    },
    HeadFault {
        lines: "n_states:+2",
        number: 4,
        line: None,
    },
    HeadFault {
        lines: "neighborhood:",
        number: 5,
        line: None,
    },
    HeadFault {
        lines: "neighborhood:moore",
        number: 5,
        line: None,
    },
    HeadFault {
        lines: "neighborhood:VonNeumann",
        number: 5,
        line: None,
    },
    HeadFault {
        lines: "symmetries:none\nneighborhood:Hexagonal",
        number: 5,
        line: None,
    },
    HeadFault {
        lines: "symmetries:foo\nn_states:2",
        number: 3,
        line: None,
    },
    HeadFault {
        lines: "n_states:2\nn_states:1",
        number: 8,
        line: Some(4),
    },
    HeadFault {
        lines: "symmetries:foo\nsymmetries:foo",
        number: 8,
        line: Some(4),
    },
    HeadFault {
        lines: "neighborhood:Moore\n\nneighborhood:foo",
        number: 8,
        line: Some(5),
    },
    HeadFault {
        lines: "n_states:256\n symmetries :\tnone \nneighborhood : Moore",
        number: 0,
        line: None,
    },
    HeadFault {
        lines: "n_states:0002\nsymmetries:none\nneighborhood:Moore",
        number: 0,
        line: None,
    },
];

const COUNTS: [Count; 4] = [
    Count {
        neighborhood: "vonNeumann",
        entries: 6,
    },
    Count {
        neighborhood: "Moore",
        entries: 10,
    },
    Count {
        neighborhood: "hexagonal",
        entries: 8,
    },
    Count {
        neighborhood: "oneDimensional",
        entries: 4,
    },
];

fn head_ends(rt: &impl Abort, alloc: Global, case: &HeadFault) {
    ends(rt, alloc, case.lines, (case.number, case.line));
}

// A head in the usual order, and one where the symmetry comes first.
fn head_in_order(rt: &impl Abort, alloc: Global, neighborhood: &str, name: &str) -> String {
    format!(in alloc; "n_states:2\nneighborhood:{neighborhood}\nsymmetries:{name}").expect(
        rt, "memory",
    )
}

fn head_backwards(rt: &impl Abort, alloc: Global, neighborhood: &str, name: &str) -> String {
    format!(in alloc; "symmetries:{name}\nneighborhood:{neighborhood}\nn_states:2").expect(
        rt, "memory",
    )
}

// A head whose count of states would be a fault too.
fn head_of_one_state(rt: &impl Abort, alloc: Global, neighborhood: &str, name: &str) -> String {
    format!(in alloc; "neighborhood:{neighborhood}\nsymmetries:{name}\nn_states:1").expect(
        rt, "memory",
    )
}

fn symmetry_ends(rt: &impl Abort, alloc: Global, neighborhood: &str, name: &str, number: u8) {
    let lines = head_in_order(rt, alloc, neighborhood, name);
    ends(rt, alloc, lines.as_str(), (number, None));
    let lines = head_backwards(rt, alloc, neighborhood, name);
    ends(rt, alloc, lines.as_str(), (number, None));
}

fn no_symmetry(rt: &impl Abort, alloc: Global, neighborhood: &str, name: &str) {
    let lines = head_of_one_state(rt, alloc, neighborhood, name);
    ends(rt, alloc, lines.as_str(), (6, None));
}

fn has_symmetries(rt: &impl Abort, alloc: Global, case: &Symmetries) {
    for name in case.accepted {
        symmetry_ends(rt, alloc, case.neighborhood, name, 0);
    }
    for name in case.refused {
        symmetry_ends(rt, alloc, case.neighborhood, name, 6);
    }
    for name in &NO_SYMMETRIES {
        no_symmetry(rt, alloc, case.neighborhood, name);
    }
}

// So many entries of 1, with commas between them or without.
fn entries(rt: &impl Abort, alloc: Global, count: usize, comma: &str) -> String {
    let mut line = String::new(alloc);
    for k in 0..count {
        line.push_str(if k > 0 { comma } else { "" })
            .expect(rt, "memory");
        line.push('1').expect(rt, "memory");
    }
    line
}

fn line_ends(
    rt: &impl Abort,
    alloc: Global,
    states: u16,
    neighborhood: &str,
    line: &str,
    wanted: Outcome,
) {
    let lines = table(rt, alloc, states, neighborhood, line);
    ends(rt, alloc, lines.as_str(), wanted);
}

fn count_ends(rt: &impl Abort, alloc: Global, case: &Count, count: usize) {
    let bad = (8, Some(6));
    let wanted = if count == case.entries {
        (0, None)
    } else {
        bad
    };
    let compact = entries(rt, alloc, count, "");
    line_ends(rt, alloc, 10, case.neighborhood, compact.as_str(), wanted);
    line_ends(rt, alloc, 11, case.neighborhood, compact.as_str(), bad);
    let parted = entries(rt, alloc, count, ",");
    line_ends(rt, alloc, 10, case.neighborhood, parted.as_str(), wanted);
    line_ends(rt, alloc, 11, case.neighborhood, parted.as_str(), wanted);
}

fn counts_end(rt: &impl Abort, alloc: Global, case: &Count) {
    for count in 1..12 {
        count_ends(rt, alloc, case, count);
    }
}

#[test]
fn symmetries_of_each_neighborhood(rt: HostRuntime) {
    for case in &SYMMETRIES {
        has_symmetries(&rt, rt.alloc(), case);
    }
}

#[test]
fn faults_of_descriptors(rt: HostRuntime) {
    for case in &HEADS {
        head_ends(&rt, rt.alloc(), case);
    }
}

#[test]
fn entries_of_each_neighborhood(rt: HostRuntime) {
    for case in &COUNTS {
        counts_end(&rt, rt.alloc(), case);
    }
}

// What a head says, and how many neighbours a cell has then.
struct Told {
    lines: &'static str,
    states: u16,
    neighborhood: Neighborhood,
    symmetry: Symmetry,
    neighbors: usize,
}

const TOLD: [Told; 4] = [
    Told {
        lines: "n_states:2\nneighborhood:vonNeumann\nsymmetries:rotate4reflect",
        states: 2,
        neighborhood: Neighborhood::VonNeumann,
        symmetry: Symmetry::Rotate4Reflect,
        neighbors: 4,
    },
    Told {
        lines: "symmetries:permute\nneighborhood:Moore\nn_states:256",
        states: 256,
        neighborhood: Neighborhood::Moore,
        symmetry: Symmetry::Permute,
        neighbors: 8,
    },
    Told {
        lines: "neighborhood : hexagonal\nn_states : 010 # ten\nsymmetries : rotate6",
        states: 10,
        neighborhood: Neighborhood::Hexagonal,
        symmetry: Symmetry::Rotate6,
        neighbors: 6,
    },
    Told {
        lines: "n_states:3\nsymmetries:reflect\nneighborhood:oneDimensional",
        states: 3,
        neighborhood: Neighborhood::OneDimensional,
        symmetry: Symmetry::Reflect,
        neighbors: 2,
    },
];

fn head_tells(rt: &impl Abort, alloc: Global, case: &Told) {
    let table = read(rt, alloc, case.lines).expect(rt, "lines of a table");
    same(rt, &table.states(), &case.states, &case.lines);
    same(rt, &table.neighborhood(), &case.neighborhood, &case.lines);
    same(rt, &table.symmetry(), &case.symmetry, &case.lines);
    let neighbors = table.neighborhood().count();
    same(rt, &neighbors, &case.neighbors, &case.lines);
    same(rt, &table.transitions().len(), &0, &case.lines);
}

#[test]
fn heads_tell_what_they_describe(rt: HostRuntime) {
    for case in &TOLD {
        head_tells(&rt, rt.alloc(), case);
    }
}
