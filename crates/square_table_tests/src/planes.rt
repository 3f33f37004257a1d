//! Planes that become squares of a table, and squares that become planes.
ghost use Rattle.std.specs.Prelude.{All, IsTrue};
ghost use Rattle.worlds.specs.Range.{CanBeLaid};

use bumpalo::Bump;
use plane_core::Plane;
use square_table::{SquareTable, TableFault};
use std::alloc::Global;
use std::process::Abort;
use worlds::CellSet;

const EDGE: i64 = 1 << 61;

fn set(x: i64, y: i64, state: u16) -> CellSet {
    CellSet { x, y, state }
}

fn can_be_laid(cell: &CellSet) -> bool
    ensures { IsTrue result → CanBeLaid cell.now }
{
    if cell.x < -EDGE {
        return false;
    }
    if cell.x >= EDGE {
        return false;
    }
    if cell.y < -EDGE {
        return false;
    }
    if cell.y >= EDGE {
        return false;
    }
    cell.state < 256
}

fn all_can_be_laid(cells: &[CellSet]) -> bool
    ensures { IsTrue result → All CanBeLaid cells.now }
{
    cells.iter().all(|cell| can_be_laid(cell))
}

/// The plane with these cells.
fn plane_of(rt: &impl Abort, alloc: Global, cells: &[CellSet]) -> Plane {
    assert!(rt; all_can_be_laid(cells), "a cell that no plane has");
    Plane::empty(alloc).lay(cells).expect(rt, "memory")
}

/// The plane of these cells becomes a square of this level, which becomes the plane again, and that
/// is the same square.
fn comes_back(rt: &impl Abort, alloc: Global, cells: &[CellSet], level: u8) {
    let arena = Bump::new(alloc);
    let mut table = SquareTable::new(alloc, &arena, 10_000).expect(rt, "memory");
    let plane = plane_of(rt, alloc, cells);
    let square = table.load(&plane).expect(rt, "memory");
    assert!(rt; square.level() == level, "another level");
    let _ = plane.bounds();
    let back = table.pack(square).expect(rt, "memory");
    assert!(rt; back.equals(&plane), "another plane");
    let again = table.load(&back).expect(rt, "memory");
    assert!(rt; again.number() == square.number(), "another square");
    let _ = back.bounds();
    let twice = table.pack(again).expect(rt, "memory");
    assert!(rt; twice.equals(&plane), "another plane the second time");
}

#[test]
fn planes_come_back(rt: HostRuntime) {
    let alloc = rt.alloc();
    comes_back(&rt, alloc, &[], 1);
    comes_back(&rt, alloc, &[set(0, 0, 1)], 1);
    comes_back(&rt, alloc, &[set(-1, -1, 255), set(0, -1, 254)], 1);
    comes_back(&rt, alloc, &[set(1, 0, 3)], 2);
    comes_back(&rt, alloc, &[set(-3, 2, 255), set(3, 2, 255)], 3);
}

#[test]
fn planes_with_far_cells_come_back(rt: HostRuntime) {
    let alloc = rt.alloc();
    let far = 1 << 60;
    comes_back(&rt, alloc, &[set(-far, far, 1), set(far, -far, 2)], 62);
    comes_back(&rt, alloc, &[set(EDGE - 1, -EDGE, 7)], 62);
    comes_back(&rt, alloc, &[set(far - 1, 0, 7)], 61);
}

#[test]
fn a_large_pattern_comes_back(rt: HostRuntime) {
    let alloc = rt.alloc();
    let mut cells = Vec::new(alloc);
    for i in 0..400u16 {
        let x = i64::from(i * 7 % 61);
        let y = i64::from(i * 13 % 47);
        cells
            .push(set(x - 30, y - 20, i % 256))
            .expect(&rt, "memory");
    }
    comes_back(&rt, alloc, &cells, 6);
}

/// The rows of the plane of these cells find no room in a table of so many.
fn is_refused(rt: &impl Abort, alloc: Global, cells: &[CellSet], limit: u16) {
    let arena = Bump::new(alloc);
    let limit = u32::from(limit);
    let mut table = SquareTable::new(alloc, &arena, limit).expect(rt, "memory");
    let plane = plane_of(rt, alloc, cells);
    assert!(rt;
        matches!(&table.load(&plane), Err(TableFault::NoRoom)),
        "room"
    );
    assert!(rt; table.len() == limit, "another count");
}

#[test]
fn a_plane_finds_no_room_in_a_full_table(rt: HostRuntime) {
    let alloc = rt.alloc();
    is_refused(&rt, alloc, &[], 0);
    is_refused(&rt, alloc, &[set(0, 0, 1)], 0);
    is_refused(&rt, alloc, &[set(-EDGE, 0, 1)], 100);
}
