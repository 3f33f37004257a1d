//! Results of blocks of 4 by 4 cells that needn't be squares of a table.
ghost use Rattle.std.specs.Prelude.{◌≡◌, ◌+◌, ◌*◌, ◌^◌, ℕ, List, IfSome, IsTrue, []};
ghost use Rattle.hash_engine.specs.Blocks.{AreKnownBlocks, IsRecalledOf, StayKnown, StayKnownWith};

use std::alloc::Global;

/// A block of 4 by 4 cells by the numbers of its quadrants nw, ne, sw and se, and the number of its
/// result, or 0.
#[derive(Clone, Copy)]
pub struct Block {
    pub quadrants: [u32; 4],
    pub result: u32,
}

impl Block {
    /// A block with these quadrants, whose result isn't known.
    pub fn of(quadrants: [u32; 4]) -> Block
        ensures quadrants { result.quadrants ≡ quadrants }
        ensures none { result.result ≡ 0 }
    {
        Block {
            quadrants,
            result: 0,
        }
    }
}

// The list of results begins with so many places, and has no more than so many, which are 1.3 MB.
const FEWEST: usize = 1 << 10;

const MOST: usize = 1 << 16;

// The numbers of two quadrants side by side, which are read at once.
fn side_by_side(left: u32, right: u32) -> u64
    ensures { result ≡ left + right * 2 ^ 32 }
{
    u64::from(left) + (u64::from(right) << 32)
}

// Where the result of a block is kept in a list of so many places, by a mix of the four numbers.
fn place_of(quadrants: &[u32; 4], count: usize) -> usize {
    let [nw, ne, sw, se] = *quadrants;
    let north = side_by_side(nw, ne).wrapping_mul(0x9e37_79b9_7f4a_7c15);
    let south = side_by_side(sw, se).wrapping_mul(0xd1b5_4a32_d192_ed03);
    (north.wrapping_add(south) >> 40) as usize & count.wrapping_sub(1)
}

// Whether two blocks have the same quadrants.
fn is_same(a: &[u32; 4], b: &[u32; 4]) -> bool
    ensures { IsTrue result → a.now ≡ b.now }
{
    let is_north = side_by_side(a[0], a[1]) == side_by_side(b[0], b[1]);
    is_north && side_by_side(a[2], a[3]) == side_by_side(b[2], b[3])
}

/// The results of blocks, as many as there are places. Each block has one place, where what was kept
/// last stands.
#[derive(Drop)]
pub struct Blocks {
    list: Vec<Block>,
    // How many were kept since the list grew.
    kept: usize,
}

impl Blocks {
    /// None.
    pub fn nothing(alloc: Global) -> Blocks
        ensures { result.list.items ≡ [] }
    {
        Blocks {
            list: Vec::new(alloc),
            kept: 0,
        }
    }

    /// Gives up all, and keeps their memory.
    pub fn clear(&mut self)
        ensures { self.new.list.items ≡ [] }
    {
        Vec::clear(&mut self.list);
        self.kept = 0;
    }

    /// The result of a block, where it is kept.
    pub fn recall(&self, quadrants: &[u32; 4]) -> Option<u32>
        ensures { IfSome result (IsRecalledOf self.now.list.items quadrants.now) }
    {
        match self.list.get(place_of(quadrants, self.list.len())) {
            Some(block) if block.result != 0 && is_same(&block.quadrants, quadrants) => {
                Some(block.result)
            }
            _ => None,
        }
    }

    // Twice as many places, all of them empty, where there is memory for them.
    fn grow(&mut self)
        ensures { (next : List ℕ → ℕ) (rows : List (List ℕ)) →
            AreKnownBlocks next rows self.new.list.items }
    {
        let count = (self.list.len() * 2).max(FEWEST);
        self.clear();
        let _ = self.list.resize(count, Block::of([0; 4]));
    }

    // Once as many were kept as there are places, the list grows, so that one that is cleared often is
    // never long.
    fn make_room(&mut self)
        ensures { StayKnown self.old.list.items self.new.list.items }
    {
        if self.kept >= self.list.len() && self.list.len() < MOST {
            self.grow();
        }
    }

    /// Keeps the result of a block in place of the one that stands there, where there is memory for it.
    pub fn keep(&mut self, block: Block)
        ensures { StayKnownWith block self.old.list.items self.new.list.items }
    {
        self.make_room();
        let place = place_of(&block.quadrants, self.list.len());
        if place < self.list.len() {
            self.list[place] = block;
            self.kept = self.kept.saturating_add(1);
        }
    }
}
