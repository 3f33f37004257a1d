//! The distinct squares of one computation.
ghost use Rattle.std.specs.Prelude.{◌≡◌, ℕ, get_or, ◌+◌, ◌-◌, ◌^◌, ◌<◌, ◌≤◌, length, map, slice_index_or, vec_len, [], ◌∷◌, ◌++◌, IfOk, IfSome, IfNone, OnOk, OnErr, Err};
ghost use Rattle.worlds.specs.Square.{one, empty_square};
ghost use Rattle.square_table.specs.Slots.{FindsRows};
ghost use Rattle.square_table.specs.Squares.{Table, most_squares, no_squares, with_note, without_notes, IsNumber, IsHeld, IsSquareOf, Grows, GrowsBy, KeepsSquares, AreFour, IsJoined, Lacks, Tells, with_row, first_number, kids_at, level_of, number_of, AreDistinct};
ghost use Rattle.square_table.specs.Made.{IsFull};
ghost use Rattle.square_table.specs.Loading.{GrowsFrom};
ghost use Rattle.square_table.specs.declared.square.Square.{Square};

use crate::fault::TableFault;
use crate::renumbering::Renumbering;
use crate::row::{Row, forget, note};
use crate::slots::{Slot, append, empty, free_slots, is_same, mark, marked, search, widen};
use crate::square::Square;
use bumpalo::Bump;
use std::alloc::{AllocError, Global};
use std::marker::Model;

// Below it numbers are those of cells, which are their states.
const FIRST_NUMBER: u32 = 256;

// A table begins with so many slots. Their number is a power of two, and doubles with the rows.
const FEWEST_SLOTS: usize = 1024;

// Fewer slots than these, 4 MB, mostly stand in a cache, so that there are two of them for a row.
const MANY_SLOTS: usize = 1 << 20;

/// The distinct squares of one computation. The arena, which is made before the table, holds the
/// quadrants of its handles.
///
/// Contracts see the quadrants of each square by their numbers, in the order in which the squares
/// were made, how many squares the table may hold, and what is noted of each.
pub struct SquareTable<'a> {
    arena: &'a Bump,
    none: &'a [u32; 4],
    rows: Vec<Row>,
    slots: Vec<Slot>,
    // What a packing renumbers squares by, for the next one.
    numbers: Renumbering,
    // How many rows the packing before made, as the next one may.
    row_count: usize,
    limit: u32,
    alloc: Global,
}

// Written out, as a derived one is proved again in each crate above.
impl Drop for SquareTable<'_> {
    fn drop(self) {
        let SquareTable {
            arena: _,
            none: _,
            rows: _,
            slots: _,
            numbers: _,
            row_count: _,
            limit: _,
            alloc: _,
        } = self;
    }
}

impl<'a> Model for SquareTable<'a> {
    ghost use Rattle.std.specs.Prelude.{◌≤◌, length};
    ghost use Rattle.square_table.specs.Rows.{kids_of, notes_of};
    ghost use Rattle.square_table.specs.Slots.{FindsRows};
    ghost use Rattle.square_table.specs.Squares.{Table, most_squares, no_squares, with_note, without_notes, AreDistinct};

    ghost Value = { Table };

    ghost view = { λ t. record { rows = kids_of t.rows.items; limit = t.limit; notes = notes_of t.rows.items t.limit } };

    ghost invariant = { λ t. FindsRows (kids_of t.rows.items) (length t.rows.items) t.slots.items × AreDistinct (kids_of t.rows.items) × (length t.rows.items ≤ t.limit) × (t.limit ≤ most_squares) };
}

// Four numbers, placed in the arena for good.
fn placed<'a>(arena: &'a Bump, kids: [u32; 4]) -> Result<&'a [u32; 4], AllocError>
    ensures { IfOk result (λ placed. placed.now ≡ kids) }
{
    let placed: &'a [u32] = arena.try_alloc_slice_copy(&kids)?;
    Ok(placed.as_array().unwrap())
}

// The numbers of four squares.
fn numbers(four: &[Square<'_>; 4]) -> [u32; 4]
    requires { length four.now ≡ 4 }
    ensures { result ≡ map number_of four.now }
{
    [
        four[0].number,
        four[1].number,
        four[2].number,
        four[3].number,
    ]
}

impl<'a> SquareTable<'a> {
    /// A table with no square, that may hold up to `limit`, at most 16,842,768.
    pub fn new(alloc: Global, arena: &'a Bump, limit: u32) -> Result<SquareTable<'a>, AllocError>
        requires { limit ≤ most_squares }
        ensures { IfOk result (λ t. t ≡ no_squares limit) }
    {
        Ok(SquareTable {
            arena,
            none: placed(arena, [0; 4])?,
            rows: Vec::new(alloc),
            slots: free_slots(alloc, FEWEST_SLOTS)?,
            numbers: Renumbering::new(alloc),
            row_count: 0,
            limit,
            alloc,
        })
    }

    /// Gives up all squares. It keeps their memory, so that as many more take no more time than those
    /// that they replace, and no slot is made anew.
    pub fn clear(&mut self)
        ensures { self.new ≡ no_squares self.old.limit }
    {
        self.rows.clear();
        empty(&mut self.slots);
    }

    // Where its memory comes from. Who asks makes rows of its squares, which are distinct.
    pub(crate) fn alloc(&self) -> Global
        ensures { AreDistinct self.now.rows }
    {
        self.alloc
    }

    // The number behind those of all squares.
    pub(crate) fn end(&self) -> u32
        ensures { result ≡ first_number + length self.now.rows }
    {
        FIRST_NUMBER + self.rows.len() as u32
    }

    // How many rows the packing before made.
    pub(crate) fn row_count(&self) -> usize {
        self.row_count
    }

    // What the packing before renumbered squares by.
    pub(crate) fn take_numbers(&mut self) -> Renumbering
        ensures { self.new ≡ self.old }
    {
        std::mem::replace(&mut self.numbers, Renumbering::new(self.alloc))
    }

    // The same, for the next packing, and how many rows this one made.
    pub(crate) fn keep_numbers(&mut self, numbers: Renumbering, row_count: usize)
        ensures { self.new ≡ self.old }
    {
        self.numbers = numbers;
        self.row_count = row_count;
    }

    /// How many squares it holds, cells not counted.
    pub fn len(&self) -> u32
        ensures count { result ≡ length self.now.rows }
        ensures within { (result ≤ self.now.limit) × (self.now.limit ≤ most_squares) }
        ensures distinct { AreDistinct self.now.rows }
    {
        self.rows.len() as u32
    }

    /// The square of one cell.
    pub fn cell(&self, state: u8) -> Square<'a>
        ensures { Tells self.now 0 (one state) result }
    {
        Square {
            kids: self.none,
            number: u32::from(state),
            level: 0,
        }
    }

    /// The square of a level with a number. It is refused for memory alone.
    #[tactic(auto, unfolding(crate::specs::Squares::IsNumber))]
    pub fn square(&self, level: u8, number: u32) -> Result<Square<'a>, AllocError>
        requires { IsNumber self.now.rows level number }
        ensures held { IfOk result (IsHeld self.now) }
        ensures level { IfOk result (λ s. level_of s ≡ level) }
        ensures number { IfOk result (λ s. number_of s ≡ number) }
    {
        let kids = if level == 0 {
            self.none
        } else {
            placed(self.arena, self.quadrants(number))?
        };
        Ok(Square {
            kids,
            number,
            level,
        })
    }

    // How many rows the slots serve: half as many where they are few, and three quarters where they
    // are many. With more rows ways become long.
    fn most_rows(&self) -> usize {
        let count = self.slots.len();
        if count < MANY_SLOTS {
            count / 2
        } else {
            count / 4 * 3
        }
    }

    // More slots, where there are too few for one row more.
    fn make_ready(&mut self)
        ensures { self.new ≡ self.old }
    {
        if self.rows.len() >= self.most_rows() {
            let count = self.slots.len().saturating_mul(2).max(FEWEST_SLOTS);
            widen(self.alloc, &self.rows, &mut self.slots, count);
        }
    }

    /// Makes room for up to so many squares at once, where there is memory for it. So the way to a row
    /// isn't looked for again and again while they are made.
    pub fn reserve(&mut self, count: u32)
        ensures { self.new ≡ self.old }
    {
        self.rows.reserve(count as usize).ok();
        let slots = (2 * count as usize).max(FEWEST_SLOTS).next_power_of_two();
        if slots > self.slots.len() {
            widen(self.alloc, &self.rows, &mut self.slots, slots);
        }
    }

    /// The numbers of the quadrants nw, ne, sw and se of the square with this number.
    pub fn quadrants(&self, number: u32) -> [u32; 4]
        requires above { first_number ≤ number }
        requires there { number < first_number + length self.now.rows }
        ensures { result ≡ kids_at self.now.rows number }
    {
        self.rows[(number - FIRST_NUMBER) as usize].kids()
    }

    /// What is noted of the square with this number, or 0.
    pub fn noted(&self, number: u32) -> u32
        requires above { first_number ≤ number }
        requires there { number < first_number + length self.now.rows }
        ensures { result ≡ get_or self.now.notes (number - first_number) 0 }
    {
        self.rows[(number - FIRST_NUMBER) as usize].note()
    }

    /// Notes this number of the square with a number, as long as the table keeps the square. It is one
    /// that a square has, or 0.
    pub fn note(&mut self, number: u32, noted: u32)
        requires above { first_number ≤ number }
        requires there { number < first_number + length self.old.rows }
        requires noted { noted < first_number + length self.old.rows }
        ensures table { self.new ≡ with_note self.old number noted }
        ensures noted { get_or self.new.notes (number - first_number) 0 ≡ noted }
    {
        note(&mut self.rows, (number - FIRST_NUMBER) as usize, noted);
    }

    /// Notes 0 of all squares. It takes a step for each of them.
    pub fn forget_notes(&mut self)
        ensures { self.new ≡ without_notes self.old }
    {
        forget(&mut self.rows);
    }

    /// The number of the square whose quadrants nw, ne, sw and se have these numbers.
    ///
    /// It stands for a square where the four are numbers of one level. NoRoom where it isn't there
    /// yet and the table holds as many as it may; NoMemory where a growth was refused, or where a row
    /// has no room for one of the four, as it has for those of all squares. A refused call leaves the
    /// table as it was.
    pub fn join_numbers(&mut self, kids: [u32; 4]) -> Result<u32, TableFault>
        ensures grows { Grows self.old self.new }
        ensures one { GrowsBy kids self.old self.new }
        ensures square { IfOk result (IsSquareOf self.new.rows kids) }
        ensures unchanged { OnErr result (self.new ≡ self.old) }
        ensures full { result ≡ Err TableFault.NoRoom → IsFull self.new }
    {
        self.make_ready();
        let mark = mark(&kids);
        match search(&self.rows, &self.slots, mark, &kids) {
            Ok(place) => Ok(FIRST_NUMBER + place),
            Err(free) => {
                let count = self.rows.len() as u32;
                if count >= self.limit {
                    return Err(TableFault::NoRoom);
                }
                // (none is free only where more were refused for want of memory)
                let free = free.ok_or(TableFault::NoMemory)?;
                let row = Row::new(kids).ok_or(TableFault::NoMemory)?;
                append(&mut self.rows, &mut self.slots, free, mark, row)?;
                Ok(FIRST_NUMBER + count)
            }
        }
    }

    /// A number that may be that of the square with these quadrants, for `join_guessed`.
    ///
    /// Guesses that are made one after another wait for memory together, and joins don't: so guess
    /// the numbers of several squares before the first of them is joined.
    pub fn guess(&self, kids: [u32; 4]) -> u32
        ensures { result < first_number + length self.now.rows }
    {
        FIRST_NUMBER - 1 + marked(&self.slots, mark(&kids))
    }

    /// As `join_numbers`, and sooner where the guess is right.
    pub fn join_guessed(&mut self, kids: [u32; 4], guess: u32) -> Result<u32, TableFault>
        ensures grows { Grows self.old self.new }
        ensures one { GrowsBy kids self.old self.new }
        ensures square { IfOk result (IsSquareOf self.new.rows kids) }
        ensures unchanged { OnErr result (self.new ≡ self.old) }
        ensures full { result ≡ Err TableFault.NoRoom → IsFull self.new }
    {
        if let Some(at) = guess.checked_sub(FIRST_NUMBER)
            && let Some(row) = self.rows.get(at as usize)
            && is_same(&row.kids(), &kids)
        {
            return Ok(guess);
        }
        self.join_numbers(kids)
    }

    /// The square of four of one level of at most 63, in the order nw, ne, sw, se.
    ///
    /// NoRoom where it isn't there yet and the table holds as many as it may; NoMemory where a growth
    /// was refused. A refused call leaves the table as it was.
    pub fn join(&mut self, four: [Square<'a>; 4]) -> Result<Square<'a>, TableFault>
        requires four { (d : Square) → AreFour self.old (level_of (slice_index_or four 0 d)) four }
        requires level { (d : Square) → level_of (slice_index_or four 0 d) ≤ 63 }
        ensures keeps { KeepsSquares self.old self.new }
        ensures one { GrowsBy (map number_of four.entry) self.old self.new }
        ensures joined { IfOk result (IsJoined self.old four.entry self.new) }
        ensures unchanged { OnErr result (self.new ≡ self.old) }
        ensures full { result ≡ Err TableFault.NoRoom → IsFull self.new }
    {
        let level = four[0].level + 1;
        let kids = numbers(&four);
        let placed = placed(self.arena, kids)?;
        let number = self.join_numbers(kids)?;
        Ok(Square {
            kids: placed,
            number,
            level,
        })
    }

    /// The square of a level of at most 64 with no live cell.
    pub fn blank(&mut self, level: u8) -> Result<Square<'a>, TableFault>
        requires { level ≤ 64 }
        ensures grows { GrowsFrom (level + 1) [] self.old self.new }
        ensures square { IfOk result (Tells self.new level (empty_square level)) }
        ensures full { result ≡ Err TableFault.NoRoom → IsFull self.new }
    {
        let mut number = 0;
        for _ in 0..level {
            number = self.join_numbers([number; 4])?;
        }
        Ok(self.square(level, number)?)
    }
}
