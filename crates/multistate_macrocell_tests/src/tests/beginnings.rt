//! Every beginning of one file, with the pattern, the name and the generation that it means.
use super::{Refusal, same};
use multistate_macrocell::{Loaded, McFault, read_mc};
use std::alloc::Global;
use std::process::Abort;
use test_planes::{Row, rows_of};

// Two cells of rule X, of generation 2. The lines end before 23, 28, 33, 43, 53 and 63.
const WHOLE: &[u8] = b"[M2] (experiment desk)\n#R X\n#G 2\n1 1 0 0 0\n2 0 1 0 0\n3 0 0 2 2\n";

/// The number and the line of the fault of the first so many bytes, or 0 where they are read.
fn fault_at(len: usize) -> (u8, Option<u64>) {
    match len {
        0..=3 => (30, None),
        34..=41 => (31, Some(4)),
        44..=51 => (31, Some(5)),
        54..=61 => (31, Some(6)),
        _ => (0, None),
    }
}

/// The cells of the last node that is whole, which is the root.
fn cells_at(len: usize) -> &'static [Row] {
    match len {
        0..=41 => &[],
        42..=51 => &[(-1, -1, 1)],
        52..=61 => &[(0, -2, 1)],
        _ => &[(-2, 0, 1), (2, 0, 1)],
    }
}

fn expect_loaded(rt: &impl Abort, alloc: Global, len: usize, loaded: &Loaded) {
    let found = rows_of(alloc, &loaded.plane).expect(rt, "memory, and few live cells");
    same(rt, &found.as_slice(), &cells_at(len), &len);
    let name: &[u8] = if len < 27 { b"" } else { b"X" };
    same(rt, &loaded.rule_name.as_slice(), &name, &len);
    let generation = if len < 32 { 0 } else { 2 };
    same(rt, &loaded.generation, &generation, &len);
}

fn expect_beginning(rt: &impl Abort, alloc: Global, len: usize) {
    let read: Result<Loaded, McFault> = read_mc(alloc, &WHOLE[..len.min(WHOLE.len())]);
    let found = match &read {
        Ok(_) => (0, None),
        Err(fault) => (fault.reason().number, fault.reason().place),
    };
    same(rt, &found, &fault_at(len), &len);
    if let Ok(loaded) = &read {
        expect_loaded(rt, alloc, len, loaded);
    }
}

#[test]
fn beginnings(rt: HostRuntime) {
    for len in 0..64usize {
        expect_beginning(&rt, rt.alloc(), len);
    }
}
