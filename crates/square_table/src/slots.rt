//! A hash table by open addressing with linear probing (Knuth, volume 3, section 6.4, algorithm L),
//! whose slots lead to the rows of a table.
ghost use Rattle.std.specs.Prelude.{◌≡◌, ℕ, ◌^◌, ◌<◌, ◌≤◌, ◌+◌, [], ◌∷◌, ◌++◌, length, IfOk, IfErr, IfSome, OnOk, OnErr, vec_len, IsTrue, ◌↔◌};
ghost use Rattle.square_table.specs.Squares.{Lacks};
ghost use Rattle.square_table.specs.Rows.{kids_in, kids_of};
ghost use Rattle.square_table.specs.Slots.{mark_of, side_by_side, tag_of, tag_in, row_in, row_range, first_of, next_of, AreEmpty, AreWithin, FindsRows, IsFreeFor, IsRowOf};

use crate::row::Row;
use std::alloc::{AllocError, Global};

// More slots than this aren't made: a table has no more than about half as many rows.
const MOST_SLOTS: usize = 1 << 25;

// The lower 25 bits of a slot are a row's.
const ROWS: u32 = 1 << 25;

/// A row's place and one more, or 0 where the slot is free; and above it the tag of the row's mark,
/// its upper 7 bits, so that hardly a row is read but the one that is looked for. A mark's first slot
/// goes by the others.
#[derive(Clone, Copy)]
pub struct Slot {
    word: u32,
}

const FREE: Slot = Slot { word: 0 };

impl Slot {
    // One that leads to a row, by its place and one more.
    fn new(mark: u32, row: u32) -> Slot
        requires { row < row_range }
        ensures row { row_in result ≡ row }
        ensures tag { tag_in result ≡ tag_of mark }
    {
        Slot {
            word: mark / ROWS * ROWS + row,
        }
    }

    // The place of its row and one more, or 0.
    fn row(self) -> u32
        ensures value { result ≡ row_in self }
        ensures few { result < row_range }
    {
        self.word % ROWS
    }

    // Whether it has a mark's tag.
    fn has_tag(self, mark: u32) -> bool
        ensures { IsTrue result ↔ tag_in self ≡ tag_of mark }
    {
        self.word / ROWS == mark / ROWS
    }
}

// The numbers of two quadrants side by side.
fn side_by_side(left: u32, right: u32) -> u64
    ensures { result ≡ side_by_side left right }
{
    u64::from(left) + (u64::from(right) << 32)
}

/// A mix of the four numbers, where the way of a row through the slots begins. Two are multiplied at
/// once, as the upper half of the sum has bits of all.
#[tactic(auto, unfolding(crate::specs::Slots::mark_of))]
pub fn mark(kids: &[u32; 4]) -> u32
    ensures { result ≡ mark_of kids.now }
{
    let north = side_by_side(kids[0], kids[1]).wrapping_mul(0x9e37_79b9_7f4a_7c15);
    let south = side_by_side(kids[2], kids[3]).wrapping_mul(0xd1b5_4a32_d192_ed03);
    (north.wrapping_add(south) >> 32) as u32
}

// The first slot of a mark's way, of so many.
fn first(mark: u32, count: usize) -> usize
    requires { 0 < count }
    ensures value { result ≡ first_of mark count }
    ensures within { result < count }
{
    mark as usize & (count - 1)
}

// The slot behind this one; behind the last it is the first of all.
fn next(slot: usize, count: usize) -> usize
    requires { slot < count }
    ensures value { result ≡ next_of slot count }
    ensures within { result < count }
{
    (slot + 1) & (count - 1)
}

/// Whether two squares have the same quadrants.
pub fn is_same(a: &[u32; 4], b: &[u32; 4]) -> bool
    ensures { IsTrue result ↔ a.now ≡ b.now }
{
    a[0] == b[0] && a[1] == b[1] && a[2] == b[2] && a[3] == b[3]
}

/// The first row on a mark's way that has its tag, by its place and one more; 0 where there is none.
pub fn marked(slots: &[Slot], mark: u32) -> u32
    requires { 0 < length slots.now }
    ensures { (n : ℕ) → AreWithin slots.now n → result ≤ n }
{
    let mut at = first(mark, slots.len());
    for _ in 0..slots.len() {
        let slot = slots[at];
        if slot.has_tag(mark) || slot.row() == 0 {
            return slot.row();
        }
        at = next(at, slots.len());
    }
    0
}

/// Goes the way of a mark until it finds the row of these quadrants, which is Ok by its place, or a
/// free slot. Err None where there is neither.
pub fn search(
    rows: &[Row],
    slots: &[Slot],
    mark: u32,
    kids: &[u32; 4],
) -> Result<u32, Option<usize>>
    requires finds { FindsRows (kids_of rows.now) (length rows.now) slots.now }
    requires mark { mark ≡ mark_of kids.now }
    ensures found { IfOk result (IsRowOf (kids_of rows.now) kids.now) }
    ensures absent { IfErr result (λ _. Lacks (kids_of rows.now) kids.now) }
    ensures free { IfErr result (λ free. IfSome free (IsFreeFor slots.now mark)) }
{
    let mut at = first(mark, slots.len());
    for _ in 0..slots.len() {
        let slot = slots[at];
        if slot.row() == 0 {
            return Err(Some(at));
        }
        let place = slot.row() - 1;
        if slot.has_tag(mark) && is_same(&rows[place as usize].kids(), kids) {
            return Ok(place);
        }
        at = next(at, slots.len());
    }
    Err(None)
}

/// Adds a row of quadrants that have none, and leads to it by a free slot of its mark.
pub fn append(
    rows: &mut Vec<Row>,
    slots: &mut [Slot],
    free: usize,
    mark: u32,
    row: Row,
) -> Result<(), AllocError>
    requires finds { FindsRows (kids_of rows.old.items) (length rows.old.items) slots.old }
    requires room { length rows.old.items + 1 < row_range }
    requires free { (mark ≡ mark_of (kids_in row)) × IsFreeFor slots.old mark free }
    ensures finds { FindsRows (kids_of rows.new.items) (length rows.new.items) slots.new }
    ensures ok { OnOk result (rows.new.items ≡ rows.old.items ++ row ∷ []) }
    ensures err { OnErr result ((rows.new.items ≡ rows.old.items) × (slots.new ≡ slots.old)) }
{
    rows.push(row)?;
    slots[free] = Slot::new(mark, rows.len() as u32);
    Ok(())
}

// The first slot on a mark's way that is free.
fn free_slot(slots: &[Slot], mark: u32) -> Option<usize>
    requires { 0 < length slots.now }
    ensures { IfSome result (IsFreeFor slots.now mark) }
{
    let mut at = first(mark, slots.len());
    for _ in 0..slots.len() {
        if slots[at].row() == 0 {
            return Some(at);
        }
        at = next(at, slots.len());
    }
    None
}

// Takes a free slot for each row, and says whether there were enough.
fn spread(rows: &[Row], wider: &mut [Slot]) -> bool
    requires some { 0 < length wider.old }
    requires empty { AreEmpty wider.old }
    requires few { length rows.now < row_range }
    ensures finds { IsTrue result → FindsRows (kids_of rows.now) (length rows.now) wider.new }
    ensures count { length wider.new ≡ length wider.old }
{
    for (place, row) in rows.iter().enumerate() {
        let mark = mark(&row.kids());
        let Some(free) = free_slot(wider, mark) else {
            return false;
        };
        wider[free] = Slot::new(mark, place as u32 + 1);
    }
    true
}

/// So many free slots.
pub fn free_slots(alloc: Global, count: usize) -> Result<Vec<Slot>, AllocError>
    ensures count { IfOk result (λ slots. vec_len slots ≡ count) }
    ensures empty { IfOk result (λ slots. AreEmpty slots.items) }
{
    vec![in alloc; FREE; count]
}

/// Frees all slots.
pub fn empty(slots: &mut [Slot])
    ensures count { length slots.new ≡ length slots.old }
    ensures empty { AreEmpty slots.new }
{
    slots.fill(FREE);
}

/// So many slots, where there is memory for them; a table with too few is only slower.
pub fn widen(alloc: Global, rows: &[Row], slots: &mut Vec<Slot>, count: usize)
    requires finds { FindsRows (kids_of rows.now) (length rows.now) slots.old.items }
    requires few { length rows.now < row_range }
    requires some { 0 < count }
    ensures { FindsRows (kids_of rows.now) (length rows.now) slots.new.items }
{
    if count > MOST_SLOTS {
        return;
    }
    let made = free_slots(alloc, count);
    if let Ok(mut wider) = made
        && spread(rows, &mut wider)
    {
        *slots = wider;
    }
}
