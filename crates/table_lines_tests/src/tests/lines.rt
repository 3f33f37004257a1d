//! Tables with the transitions that their lines say.
use super::{read, same, table};
use std::alloc::Global;
use std::process::Abort;
use table_lines::{Entry, TableLines, Transition, Variable};

// Lines after the head, of a table of so many states, and their entries: a state as itself, a
// variable as the number of its definition and its states in braces.
struct Written {
    states: u16,
    lines: &'static str,
    wanted: &'static str,
}

// A transition of a neighbourhood, and how many inputs it has.
struct Inputs {
    neighborhood: &'static str,
    line: &'static str,
    count: usize,
}

const TRANSITIONS: [Written; 12] = [
    Written {
        states: 3,
        lines: "",
        wanted: "",
    },
    Written {
        states: 3,
        lines: "0,1,2,0",
        wanted: "0 1 2 0 \n",
    },
    Written {
        states: 3,
        lines: "\t0 , 01,002 ,2  # so\n\n2,2,2,1",
        wanted: "0 1 2 2 \n2 2 2 1 \n",
    },
    Written {
        states: 256,
        lines: "255,0,254,255",
        wanted: "255 0 254 255 \n",
    },
    // Ten states have a digit each.
    Written {
        states: 10,
        lines: "0123\n9876",
        wanted: "0 1 2 3 \n9 8 7 6 \n",
    },
    Written {
        states: 10,
        lines: "0,1,2,3\n4567",
        wanted: "0 1 2 3 \n4 5 6 7 \n",
    },
    Written {
        states: 3,
        lines: "var a={1,2}\n0a12",
        wanted: "0 0{1 2 } 1 2 \n",
    },
    Written {
        states: 3,
        lines: "var -1=1\nvar 1.0 = {0,-1}\nvar +1={2}\n-1,+1,1.0,2",
        wanted: "0{1 } 2{2 } 1{0 1 } 2 \n",
    },
    // A result may be a variable of an input.
    Written {
        states: 3,
        lines: "var a={1,2}\na,0,0,a",
        wanted: "0{1 2 } 0 0 0{1 2 } \n",
    },
    Written {
        states: 3,
        lines: "var a={1,2}\n0,0,a,a",
        wanted: "0 0 0{1 2 } 0{1 2 } \n",
    },
    // A word that isn't followed by a blank is no definition.
    Written {
        states: 3,
        lines: "var var=1\nvar,0,0,0",
        wanted: "0{1 } 0 0 0 \n",
    },
    Written {
        states: 3,
        lines: "var variable=1\nvariable,0,0,0",
        wanted: "0{1 } 0 0 0 \n",
    },
];

const VARIABLES: [Written; 18] = [
    Written {
        states: 3,
        lines: "var a={1}\na,0,0,0",
        wanted: "0{1 } 0 0 0 \n",
    },
    Written {
        states: 3,
        lines: "var a={0,1,2}\na,0,0,0",
        wanted: "0{0 1 2 } 0 0 0 \n",
    },
    // Blanks around the signs.
    Written {
        states: 3,
        lines: "var\ta\t= {\t0 , 2\t} \na,0,0,0",
        wanted: "0{0 2 } 0 0 0 \n",
    },
    Written {
        states: 3,
        lines: "  var   a  =  0\t,\t1 # so\na,0,0,0",
        wanted: "0{0 1 } 0 0 0 \n",
    },
    // No braces.
    Written {
        states: 3,
        lines: "var a=1\na,0,0,0",
        wanted: "0{1 } 0 0 0 \n",
    },
    Written {
        states: 3,
        lines: "var a=0,1\na,0,0,0",
        wanted: "0{0 1 } 0 0 0 \n",
    },
    // In any order, and more than once.
    Written {
        states: 4,
        lines: "var a={3,1,3,001}\na,0,0,0",
        wanted: "0{1 3 } 0 0 0 \n",
    },
    // Of other variables.
    Written {
        states: 5,
        lines: "var a={1,2}\nvar b={4,a}\na,b,b,0",
        wanted: "0{1 2 } 1{1 2 4 } 1{1 2 4 } 0 \n",
    },
    Written {
        states: 5,
        lines: "var a={1,2}\nvar b=a\nb,a,0,0",
        wanted: "1{1 2 } 0{1 2 } 0 0 \n",
    },
    Written {
        states: 5,
        lines: "var a={1,2}\nvar b={a,2,a}\nb,0,0,0",
        wanted: "1{1 2 } 0 0 0 \n",
    },
    // The latest of a name counts in the lines after it.
    Written {
        states: 5,
        lines: "var a={1}\na,0,0,0\nvar a={2}\na,0,0,0",
        wanted: "0{1 } 0 0 0 \n1{2 } 0 0 0 \n",
    },
    Written {
        states: 5,
        lines: "var a={1}\nvar b={a}\nvar a={2}\na,b,0,0",
        wanted: "2{2 } 1{1 } 0 0 \n",
    },
    Written {
        states: 5,
        lines: "var a={1}\nvar a={a,2}\na,0,0,0",
        wanted: "1{1 2 } 0 0 0 \n",
    },
    // Blank lines, comments and transitions are no definitions.
    Written {
        states: 3,
        lines: "\n# one\nvar a={1}\n\n0,0,0,0\nvar b={2}\nb,a,0,0",
        wanted: "0 0 0 0 \n1{2 } 0{1 } 0 0 \n",
    },
    // States beyond a word of 64.
    Written {
        states: 256,
        lines: "var a={255,64,63,0,128}\na,0,0,0",
        wanted: "0{0 63 64 128 255 } 0 0 0 \n",
    },
    // Any printable byte but the signs may stand in a name, digits among others.
    Written {
        states: 3,
        lines: "var !\"$%&'()*+-./;<>?@[\\]^_`|~=1\n!\"$%&'()*+-./;<>?@[\\]^_`|~,0,0,0",
        wanted: "0{1 } 0 0 0 \n",
    },
    Written {
        states: 3,
        lines: "var 12a={1}\n12a,0,0,0",
        wanted: "0{1 } 0 0 0 \n",
    },
    Written {
        states: 3,
        lines: "var var={1}\nvar,0,0,0",
        wanted: "0{1 } 0 0 0 \n",
    },
];

const INPUTS: [Inputs; 4] = [
    Inputs {
        neighborhood: "vonNeumann",
        line: "000001",
        count: 5,
    },
    Inputs {
        neighborhood: "Moore",
        line: "0000000001",
        count: 9,
    },
    Inputs {
        neighborhood: "hexagonal",
        line: "00000001",
        count: 7,
    },
    Inputs {
        neighborhood: "oneDimensional",
        line: "0001",
        count: 3,
    },
];

fn write_member(rt: &impl Abort, text: &mut String, variable: &Variable, state: u8) {
    if variable.states.has(state) {
        write!(text, "{state} ").expect(rt, "memory");
    }
}

fn write_variable(rt: &impl Abort, text: &mut String, variable: &Variable) {
    write!(text, "{}{{", variable.number).expect(rt, "memory");
    for state in 0..=255 {
        write_member(rt, text, variable, state);
    }
    text.push_str("} ").expect(rt, "memory");
}

fn write_entry(rt: &impl Abort, text: &mut String, entry: Entry) {
    match entry {
        Entry::State(state) => write!(text, "{state} ").expect(rt, "memory"),
        Entry::OneOf(variable) => write_variable(rt, text, &variable),
    }
}

fn write_transition(rt: &impl Abort, text: &mut String, transition: &Transition) {
    for entry in transition.inputs.as_slice() {
        write_entry(rt, text, *entry);
    }
    write_entry(rt, text, transition.result);
    text.push('\n').expect(rt, "memory");
}

// The entries of all transitions, a transition a line.
fn text_of(rt: &impl Abort, alloc: Global, lines: &TableLines) -> String {
    let mut text = String::new(alloc);
    for transition in lines.transitions() {
        write_transition(rt, &mut text, transition);
    }
    text
}

fn lines_of(
    rt: &impl Abort,
    alloc: Global,
    states: u16,
    neighborhood: &str,
    lines: &str,
) -> TableLines {
    let lines = table(rt, alloc, states, neighborhood, lines);
    read(rt, alloc, lines.as_str()).expect(rt, "lines of a table")
}

fn are_written(rt: &impl Abort, alloc: Global, case: &Written) {
    let lines = lines_of(rt, alloc, case.states, "oneDimensional", case.lines);
    let found = text_of(rt, alloc, &lines);
    assert!(rt; found.as_str() == case.wanted, "{}: {found}", case.lines);
}

fn has_room_for(rt: &impl Abort, transition: Transition, count: usize) {
    let inputs = transition.inputs.into_vec();
    same(rt, &inputs.len(), &count, &"inputs");
    same(rt, &inputs.capacity(), &count, &"room for inputs");
}

fn have_room(rt: &impl Abort, alloc: Global, case: &Inputs) {
    let lines = lines_of(rt, alloc, 2, case.neighborhood, case.line);
    for transition in lines.into_transitions() {
        has_room_for(rt, transition, case.count);
    }
}

#[test]
fn transitions_as_written(rt: HostRuntime) {
    for case in &TRANSITIONS {
        are_written(&rt, rt.alloc(), case);
    }
}

#[test]
fn variables_as_written(rt: HostRuntime) {
    for case in &VARIABLES {
        are_written(&rt, rt.alloc(), case);
    }
}

#[test]
fn inputs_take_no_more_room_than_they_need(rt: HostRuntime) {
    for case in &INPUTS {
        have_room(&rt, rt.alloc(), case);
    }
}

// Stops the test where the result of the first transition doesn't stand at the wanted inputs.
fn stands_at(rt: &impl Abort, lines: &TableLines, wanted: [bool; 3]) {
    let transition = lines.transitions().first().expect(rt, "a transition");
    let Entry::OneOf(variable) = transition.result else {
        panic!(rt; "the result is no variable");
    };
    let inputs = transition.inputs.as_slice();
    for (entry, wanted) in inputs.iter().zip(wanted) {
        same(rt, &variable.stands_at(entry), &wanted, entry);
    }
    same(rt, &variable.stands_among(inputs), &true, &"inputs");
}

// Two variables of the same states are two.
#[test]
fn variables_stand_where_they_are_named(rt: HostRuntime) {
    let text = "var a={1,2}\nvar b={1,2}\nb,a,1,a";
    let lines = lines_of(&rt, rt.alloc(), 3, "oneDimensional", text);
    stands_at(&rt, &lines, [false, true, false]);
}
