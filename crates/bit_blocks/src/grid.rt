//! Squares of 16 by 16 cells of two states, by their squares of 2 by 2 cells.
ghost use Rattle.std.specs.Prelude.{◌≡◌, ◌≢◌, ◌+◌, ◌*◌, ◌<◌, ◌≤◌, ℕ, [], ◌∷◌, slice_index};
ghost use Rattle.bit_blocks.specs.Grids.{column_at, block_at, HasBlocks, IsSameBut};

// The rows have so many places.
const WIDTH: usize = 8;

/// Eight rows of eight places, each of which has the number of a square of 2 by 2 cells.
#[derive(Drop)]
pub(crate) struct Grid {
    pub(crate) places: [u8; 64],
    ghost below: { (place : ℕ) → slice_index places place < 16 },
}

impl Grid {
    /// The grid without a live cell.
    pub(crate) fn empty() -> Grid {
        Grid { places: [0; 64] }
    }

    /// Puts a square at a place.
    #[inline(always)]
    pub(crate) fn put(&mut self, place: usize, two: u8)
        requires place { place < 64 }
        requires two { two < 16 }
        ensures there { slice_index self.new.places place ≡ two }
        ensures others { (k : ℕ) → k ≢ place →
            slice_index self.new.places k ≡ slice_index self.old.places k }
    {
        self.places[place] = two;
    }

    /// The two squares at a place and below it, as they stand in a block's number.
    #[inline(always)]
    pub(crate) fn column(&self, place: usize) -> u16
        requires { place < 56 }
        ensures column { result ≡ column_at self.now.places place }
        ensures small { result ≤ 3855 }
    {
        u16::from(self.places[place]) + 256 * u16::from(self.places[place + WIDTH])
    }

    // The block whose upper left square is at a place.
    fn block(&self, place: usize) -> u16
        requires { place < 55 }
        ensures { result ≡ block_at self.now.places place }
    {
        self.column(place) + 16 * self.column(place + 1)
    }

    // Puts the four squares of a block.
    #[inline(always)]
    fn put_block(&mut self, place: usize, block: u16)
        requires { place < 55 }
        ensures there { block_at self.new.places place ≡ block }
        ensures others { IsSameBut place self.old.places self.new.places }
    {
        self.put(place, (block % 16) as u8);
        self.put(place + 1, (block / 16 % 16) as u8);
        self.put(place + WIDTH, (block / 256 % 16) as u8);
        self.put(place + WIDTH + 1, (block / 4096) as u8);
    }

    /// The square of four quadrants, each by its four blocks.
    pub(crate) fn of(blocks: &[[u16; 4]; 4]) -> Grid
        ensures { HasBlocks blocks.now 16 result.places }
    {
        let mut grid = Grid::empty();
        for k in 0..16 {
            let block = blocks[2 * (k / 8) + k % 4 / 2][2 * (k / 4 % 2) + k % 2];
            grid.put_block(16 * (k / 4) + 2 * (k % 4), block);
        }
        grid
    }

    /// The four blocks of the first four places of the first four rows.
    pub(crate) fn eight(&self) -> [u16; 4]
        ensures { let at = block_at self.now.places in
            result ≡ at 0 ∷ at 2 ∷ at 16 ∷ at 18 ∷ [] }
    {
        [
            self.block(0),
            self.block(2),
            self.block(2 * WIDTH),
            self.block(2 * WIDTH + 2),
        ]
    }
}
