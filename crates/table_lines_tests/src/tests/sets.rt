//! Sets of states. The cases stand at the ends of the bytes, the words and the halves.
use super::same;
use std::alloc::Global;
use std::process::Abort;
use table_lines::StateSet;

struct Put {
    states: &'static [u8],
    wanted: &'static [u8],
}

const PUT: [Put; 10] = [
    Put {
        states: &[],
        wanted: &[],
    },
    Put {
        states: &[0],
        wanted: &[0],
    },
    Put {
        states: &[1],
        wanted: &[1],
    },
    Put {
        states: &[63, 64],
        wanted: &[63, 64],
    },
    Put {
        states: &[64, 63],
        wanted: &[63, 64],
    },
    Put {
        states: &[127],
        wanted: &[127],
    },
    Put {
        states: &[128],
        wanted: &[128],
    },
    Put {
        states: &[255],
        wanted: &[255],
    },
    Put {
        states: &[128, 127, 128],
        wanted: &[127, 128],
    },
    Put {
        states: &[255, 128, 127, 64, 63, 1, 0],
        wanted: &[0, 1, 63, 64, 127, 128, 255],
    },
];

struct United {
    states: &'static [u8],
    more: &'static [u8],
    wanted: &'static [u8],
}

const UNITED: [United; 6] = [
    United {
        states: &[],
        more: &[],
        wanted: &[],
    },
    United {
        states: &[],
        more: &[0, 255],
        wanted: &[0, 255],
    },
    United {
        states: &[63],
        more: &[64],
        wanted: &[63, 64],
    },
    United {
        states: &[128],
        more: &[127],
        wanted: &[127, 128],
    },
    United {
        states: &[1, 128],
        more: &[1, 128],
        wanted: &[1, 128],
    },
    United {
        states: &[0, 127],
        more: &[64, 127, 255],
        wanted: &[0, 64, 127, 255],
    },
];

struct Compared {
    left: &'static [u8],
    right: &'static [u8],
    wanted: bool,
}

const COMPARED: [Compared; 8] = [
    Compared {
        left: &[],
        right: &[],
        wanted: true,
    },
    Compared {
        left: &[],
        right: &[0],
        wanted: false,
    },
    Compared {
        left: &[0],
        right: &[128],
        wanted: false,
    },
    Compared {
        left: &[127],
        right: &[255],
        wanted: false,
    },
    Compared {
        left: &[63, 64],
        right: &[64, 63, 64],
        wanted: true,
    },
    Compared {
        left: &[1, 128],
        right: &[1],
        wanted: false,
    },
    Compared {
        left: &[1, 128],
        right: &[128],
        wanted: false,
    },
    Compared {
        left: &[0, 127, 255],
        right: &[255, 127, 0],
        wanted: true,
    },
];

struct Words {
    states: &'static [u8],
    wanted: [u64; 4],
}

const WORDS: [Words; 10] = [
    Words {
        states: &[],
        wanted: [0, 0, 0, 0],
    },
    Words {
        states: &[0],
        wanted: [1, 0, 0, 0],
    },
    Words {
        states: &[63],
        wanted: [0x8000_0000_0000_0000, 0, 0, 0],
    },
    Words {
        states: &[64, 66],
        wanted: [0, 5, 0, 0],
    },
    Words {
        states: &[127],
        wanted: [0, 0x8000_0000_0000_0000, 0, 0],
    },
    Words {
        states: &[129],
        wanted: [0, 0, 2, 0],
    },
    Words {
        states: &[191],
        wanted: [0, 0, 0x8000_0000_0000_0000, 0],
    },
    Words {
        states: &[192],
        wanted: [0, 0, 0, 1],
    },
    Words {
        states: &[255],
        wanted: [0, 0, 0, 0x8000_0000_0000_0000],
    },
    Words {
        states: &[195, 1, 128, 68],
        wanted: [2, 16, 1, 8],
    },
];

fn set_of(states: &[u8]) -> StateSet {
    let mut set = StateSet::empty();
    for state in states {
        set.insert(*state);
    }
    set
}

// The set lists these states, and has them and no others.
fn has_states(rt: &impl Abort, alloc: Global, set: &StateSet, wanted: &[u8]) {
    let states = set.to_vec(alloc).expect(rt, "memory");
    assert!(rt; states.as_slice() == wanted, "{wanted:?} are wanted");
    for state in 0..=u8::MAX {
        same(rt, &set.has(state), &wanted.contains(&state), &state);
    }
}

fn unites(rt: &impl Abort, alloc: Global, case: &United) {
    let mut set = set_of(case.states);
    set.unite(set_of(case.more));
    has_states(rt, alloc, &set, case.wanted);
}

fn compares(rt: &impl Abort, case: &Compared) {
    let left = set_of(case.left);
    let right = set_of(case.right);
    same(rt, &left.equals(&right), &case.wanted, &"equals");
    same(rt, &(left == right), &case.wanted, &"==");
}

fn has_words(rt: &impl Abort, case: &Words) {
    let set = set_of(case.states);
    let words = [set.word(0), set.word(1), set.word(2), set.word(3)];
    same(rt, &words, &case.wanted, &"words");
}

#[test]
fn a_set_has_what_was_put_into_it(rt: HostRuntime) {
    for case in &PUT {
        has_states(&rt, rt.alloc(), &set_of(case.states), case.wanted);
    }
}

#[test]
fn a_set_of_one_state_has_that_state_alone(rt: HostRuntime) {
    for state in [0, 1, 63, 64, 127, 128, 255] {
        has_states(&rt, rt.alloc(), &StateSet::of(state), &[state]);
    }
}

#[test]
fn a_union_has_the_states_of_both(rt: HostRuntime) {
    for case in &UNITED {
        unites(&rt, rt.alloc(), case);
    }
}

#[test]
fn sets_are_equal_where_their_states_are(rt: HostRuntime) {
    for case in &COMPARED {
        compares(&rt, case);
    }
}

#[test]
fn the_words_of_sets(rt: HostRuntime) {
    for case in &WORDS {
        has_words(&rt, case);
    }
}
