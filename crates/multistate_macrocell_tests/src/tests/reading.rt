//! Reading.
use super::{Refusal, read, same};
use multistate_macrocell::{McFault, read_mc};
use std::alloc::Global;
use std::process::Abort;
use test_planes::{Row, rows_of};

/// Stops the test where these lines don't mean exactly these cells, row by row.
fn expect_cells(rt: &impl Abort, alloc: Global, text: &[u8], wanted: &[Row]) {
    let found = rows_of(alloc, &read(rt, alloc, text).plane);
    let found = found.expect(rt, "memory, and at most a thousand live cells");
    same(rt, &found.as_slice(), &wanted, &text);
}

/// Stops the test where the text isn't refused by this number with this line.
fn expect_fault(rt: &impl Abort, alloc: Global, text: &[u8], number: u8, line: Option<u64>) {
    let fault: Option<McFault> = read_mc(alloc, text).err();
    let found = fault.map(|fault| (fault.reason().number, fault.reason().place));
    same(rt, &found, &Some((number, line)), &text);
}

#[test]
fn quadrants_lie_in_their_order(rt: HostRuntime) {
    let cells = [(1, -2, 1), (0, -1, 2), (1, -1, 3)];
    expect_cells(&rt, rt.alloc(), b"[M2]\n1 0 1 2 3\n2 0 1 0 0\n", &cells);
    let cells = [(-2, 0, 1), (1, 1, 2)];
    expect_cells(
        &rt,
        rt.alloc(),
        b"[M2]\n1 1 0 0 0\n1 0 0 0 2\n2 0 0 1 2\n",
        &cells,
    );
}

#[test]
fn bitmaps_lie_as_they_are_drawn(rt: HostRuntime) {
    expect_cells(&rt, rt.alloc(), b"[M2]\n.*$\n", &[(-3, -4, 1)]);
    let cells = [(-4, -2, 1), (3, 3, 1)];
    expect_cells(&rt, rt.alloc(), b"[M2]\n$$*$$$$$.......*$\n", &cells);
    let cells = [(2, 1, 1)];
    expect_cells(&rt, rt.alloc(), b"[M2]\n$..*$\n4 0 0 0 1\n", &cells);
}

#[test]
fn no_node_is_the_empty_pattern(rt: HostRuntime) {
    expect_cells(&rt, rt.alloc(), b"[M2]", &[]);
    expect_cells(&rt, rt.alloc(), b"[M2]\n4 0 0 0 0\n", &[]);
}

#[test]
fn the_name_and_the_generation_are_kept(rt: HostRuntime) {
    let alloc = rt.alloc();
    let loaded = read(&rt, alloc, b"[M2] (golly 3.3)\n#R WireWorld\n#G 12\n#C\n");
    same(
        &rt,
        &loaded.rule_name.as_slice(),
        &b"WireWorld".as_slice(),
        &"name",
    );
    same(&rt, &loaded.generation, &12, &"generation");
    let loaded = read(&rt, alloc, b"[M2]\n1 0 0 0 1\n");
    same(&rt, &loaded.rule_name.as_slice(), &b"".as_slice(), &"name");
    same(&rt, &loaded.generation, &0, &"generation");
}

#[test]
fn faults_are_those_of_the_lines(rt: HostRuntime) {
    let alloc = rt.alloc();
    expect_fault(&rt, alloc, b"", 30, None);
    expect_fault(&rt, alloc, b"[M2]\n2 0 1 0 0\n", 32, Some(2));
    expect_fault(&rt, alloc, b"[M2]\n63 0 0 0 0\n", 33, None);
    expect_fault(&rt, alloc, b"[M2]\n1 0 0 0 1\n1 0 0 256 0\n", 31, Some(3));
}

#[test]
fn doubled_squares_are_kept_once(rt: HostRuntime) {
    let plane = read(&rt, rt.alloc(), DOUBLED).plane;
    let edge = 1i64 << 60;
    same(&rt, &plane.get(0, 0), &1, &0);
    same(&rt, &plane.get(-edge, edge - 1), &1, &edge);
    same(&rt, &plane.get(edge, 0), &0, &edge);
    let rows = plane.squares().expect(&rt, "memory");
    same(&rt, &rows.len(), &61, &"rows");
}

/// The square of level 61 all of whose cells have the state 1.
const DOUBLED: &[u8] = b"[M2]
1 1 1 1 1
2 1 1 1 1
3 2 2 2 2
4 3 3 3 3
5 4 4 4 4
6 5 5 5 5
7 6 6 6 6
8 7 7 7 7
9 8 8 8 8
10 9 9 9 9
11 10 10 10 10
12 11 11 11 11
13 12 12 12 12
14 13 13 13 13
15 14 14 14 14
16 15 15 15 15
17 16 16 16 16
18 17 17 17 17
19 18 18 18 18
20 19 19 19 19
21 20 20 20 20
22 21 21 21 21
23 22 22 22 22
24 23 23 23 23
25 24 24 24 24
26 25 25 25 25
27 26 26 26 26
28 27 27 27 27
29 28 28 28 28
30 29 29 29 29
31 30 30 30 30
32 31 31 31 31
33 32 32 32 32
34 33 33 33 33
35 34 34 34 34
36 35 35 35 35
37 36 36 36 36
38 37 37 37 37
39 38 38 38 38
40 39 39 39 39
41 40 40 40 40
42 41 41 41 41
43 42 42 42 42
44 43 43 43 43
45 44 44 44 44
46 45 45 45 45
47 46 46 46 46
48 47 47 47 47
49 48 48 48 48
50 49 49 49 49
51 50 50 50 50
52 51 51 51 51
53 52 52 52 52
54 53 53 53 53
55 54 54 54 54
56 55 55 55 55
57 56 56 56 56
58 57 57 57 57
59 58 58 58 58
60 59 59 59 59
61 60 60 60 60
";
