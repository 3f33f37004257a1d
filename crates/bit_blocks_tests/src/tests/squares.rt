//! Squares of 16 by 16 cells as rows of bits, of which the highest is the cell on the left.
ghost use Rattle.std.specs.Prelude.{◌<◌, ◌≤◌};

pub type Cells = [u16; 16];

/// Whether the cell lives. No cell outside the square does.
pub fn is_live(cells: &Cells, x: usize, y: usize) -> bool {
    x < 16 && y < 16 && cells[y] >> (15 - x) & 1 == 1
}

/// The number of the block of 4 by 4 cells whose upper left cell is at (x, y).
pub fn block_at(cells: &Cells, x: usize, y: usize) -> u16
    requires { (x ≤ 16) × (y ≤ 16) }
{
    let mut block = 0;
    for bit in 0..16usize {
        let right = 2 * (bit / 4 % 2) + bit % 2;
        let down = 2 * (bit / 8) + bit / 2 % 2;
        if is_live(cells, x + right, y + down) {
            block |= 1u16 << bit;
        }
    }
    block
}

/// The blocks of the square of 8 by 8 cells whose upper left cell is at (x, y).
pub fn four_at(cells: &Cells, x: usize, y: usize) -> [u16; 4]
    requires { (x ≤ 8) × (y ≤ 8) }
{
    [
        block_at(cells, x, y),
        block_at(cells, x + 4, y),
        block_at(cells, x, y + 4),
        block_at(cells, x + 4, y + 4),
    ]
}

/// The blocks of the square.
pub fn quadrants(cells: &Cells) -> [[u16; 4]; 4] {
    [
        four_at(cells, 0, 0),
        four_at(cells, 8, 0),
        four_at(cells, 0, 8),
        four_at(cells, 8, 8),
    ]
}

// How many of the nine cells at and around (x, y) live.
fn live_around(cells: &Cells, x: usize, y: usize) -> u8
    requires { (x < 16) × (y < 16) }
{
    let mut live = 0u8;
    for place in 0..9usize {
        let (column, row) = (x + place % 3, y + place / 3);
        if column > 0 && row > 0 && is_live(cells, column - 1, row - 1) {
            live = live.saturating_add(1);
        }
    }
    live
}

// A row of the next generation of Conway's Life.
fn row_of_life(cells: &Cells, y: usize) -> u16
    requires { y < 16 }
{
    let mut row = 0;
    for x in 0..16usize {
        let live = live_around(cells, x, y);
        if live == 3 || live == 4 && is_live(cells, x, y) {
            row |= 1u16 << (15 - x);
        }
    }
    row
}

/// The next generation of Conway's Life, cell by cell. What is outside the square is taken as dead.
pub fn life(cells: &Cells) -> Cells {
    let mut next = [0; 16];
    for y in 0..16usize {
        next[y] = row_of_life(cells, y);
    }
    next
}

/// A soup by a number.
pub fn soup(seed: u64) -> Cells {
    let mut cells = [0; 16];
    let mut state = seed;
    for y in 0..16usize {
        state = state
            .wrapping_mul(6_364_136_223_846_793_005)
            .wrapping_add(1_442_695_040_888_963_407);
        cells[y] = (state >> 40 & 0xffff) as u16 & (state >> 20 & 0xffff) as u16;
    }
    cells
}
