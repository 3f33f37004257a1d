//! Every beginning of one text.
use super::same;
use macrocell_lines::{McFault, read_macrocell};
use std::alloc::Global;
use std::process::Abort;

const WHOLE: &[u8] = b"[M2] (experiment desk)\n#R X\n#G 2\n1 1 0 0 0\n2 0 1 0 0\n3 0 0 2 2\n";

/// How many nodes the first so many bytes say, or why they are refused.
fn wanted_at(len: usize) -> Result<usize, McFault> {
    match len {
        0..=3 => Err(McFault::NoM2),
        4..=33 => Ok(0),
        34..=41 => Err(McFault::BadRow(4)),
        42..=43 => Ok(1),
        44..=51 => Err(McFault::BadRow(5)),
        52..=53 => Ok(2),
        54..=61 => Err(McFault::BadRow(6)),
        _ => Ok(3),
    }
}

fn expect_beginning(rt: &impl Abort, alloc: Global, text: &[u8]) {
    let found = read_macrocell(alloc, text).map(|said| said.nodes().len());
    same(rt, &found, &wanted_at(text.len()), &text);
}

#[test]
fn beginnings(rt: HostRuntime) {
    for len in 0..WHOLE.len() + 1 {
        expect_beginning(&rt, rt.alloc(), &WHOLE[..len]);
    }
}
