//! Texts that are refused, with the number of the fault and its line.
use super::{expect_fault, expect_outcome, same};
use basics::Refusal;
use macrocell_lines::McFault;
use std::process::Abort;

#[test]
fn first_lines(rt: HostRuntime) {
    let alloc = rt.alloc();
    expect_outcome(&rt, alloc, b"", 30, None);
    expect_outcome(&rt, alloc, b"\n[M2]", 30, None);
    expect_outcome(&rt, alloc, b"[M2 ]", 30, None);
    expect_outcome(&rt, alloc, b"#R a:b", 30, None);
    expect_outcome(&rt, alloc, b"[M2]", 0, None);
    expect_outcome(&rt, alloc, b" [M2]x\n", 0, None);
}

#[test]
fn rows(rt: HostRuntime) {
    let alloc = rt.alloc();
    expect_fault(&rt, alloc, b"x", 31, Some(2));
    expect_fault(&rt, alloc, b"\n \n#\n[M2]", 31, Some(5));
    expect_fault(&rt, alloc, b"0 0 0 0 0", 31, Some(2));
    expect_fault(&rt, alloc, b"1 0 0 0", 31, Some(2));
    expect_fault(&rt, alloc, b"1 0 0 0 0 0", 31, Some(2));
    expect_fault(&rt, alloc, b"1 0 0 0 x", 31, Some(2));
    expect_fault(&rt, alloc, b"1\t0 0 0 0", 31, Some(2));
    expect_fault(&rt, alloc, b"-1 0 0 0 0", 31, Some(2));
    expect_fault(&rt, alloc, b"1 0 256 0 0", 31, Some(2));
    expect_fault(&rt, alloc, b"1 0 0 0 99999999999999999999", 31, Some(2));
    expect_fault(&rt, alloc, b"63 0 0 0", 31, Some(2));
}

#[test]
fn bitmaps(rt: HostRuntime) {
    let alloc = rt.alloc();
    expect_fault(&rt, alloc, b".........", 31, Some(2));
    expect_fault(&rt, alloc, b"$$$$$$$$.", 31, Some(2));
    expect_fault(&rt, alloc, b"$*a", 31, Some(2));
    expect_fault(&rt, alloc, b"* *", 31, Some(2));
    expect_fault(&rt, alloc, b"$\n3 0 1 0 0", 32, Some(3));
}

#[test]
fn quadrants(rt: HostRuntime) {
    let alloc = rt.alloc();
    expect_fault(&rt, alloc, b"2 0 1 0 0", 32, Some(2));
    expect_fault(&rt, alloc, b"1 1 0 0 0\n2 0 0 0 2", 32, Some(3));
    expect_fault(&rt, alloc, b"1 1 0 0 0\n3 0 1 0 0", 32, Some(3));
    expect_fault(&rt, alloc, b"1 1 0 0 0\n2 1 0 0 0\n2 2 0 0 0", 32, Some(4));
    expect_fault(
        &rt,
        alloc,
        b"1 1 0 0 0\n2 18446744073709551617 0 0 0",
        32,
        Some(3),
    );
    expect_fault(&rt, alloc, b"1 1 0 0 0\n2 4294967297 0 0 0", 32, Some(3));
    expect_fault(&rt, alloc, b"63 0 0 0 0", 33, None);
    expect_fault(&rt, alloc, b"99999999999999999999999 1 0 0 0", 33, None);
}

#[test]
fn comments(rt: HostRuntime) {
    let alloc = rt.alloc();
    expect_fault(&rt, alloc, b"#R B3:T10", 23, None);
    expect_fault(&rt, alloc, b"#R :\n#R x", 23, None);
    expect_fault(&rt, alloc, b"#FRAMES 2", 34, None);
    expect_fault(&rt, alloc, b"# FRAME", 0, None);
    expect_fault(&rt, alloc, b"#R a:b\n#FRAME", 23, None);
    expect_fault(&rt, alloc, b"#FRAME\n#R a:b", 34, None);
    expect_fault(&rt, alloc, b"x\n#FRAME", 31, Some(2));
    expect_fault(&rt, alloc, b"2 0 1 0 0\nx", 32, Some(2));
}

fn expect_name(rt: &impl Abort, fault: McFault, name: &str, number: u8) {
    same(rt, &fault.reason().name, &name, &number);
    same(rt, &fault.reason().number, &number, &name);
}

#[test]
fn names(rt: HostRuntime) {
    expect_name(&rt, McFault::BoundedGrid, "BoundedGrid", 23);
    expect_name(&rt, McFault::NoM2, "NoM2", 30);
    expect_name(&rt, McFault::BadRow(7), "BadRow", 31);
    expect_name(&rt, McFault::BadChild(7), "BadChild", 32);
    expect_name(&rt, McFault::TooDeep, "TooDeep", 33);
    expect_name(&rt, McFault::Timeline, "Timeline", 34);
    expect_name(&rt, McFault::NoMemory, "NoMemory", 70);
    expect_name(&rt, McFault::NoRoom, "NoRoom", 71);
}
