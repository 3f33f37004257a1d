//! Squares of a table as planes.
ghost use Rattle.std.specs.Prelude.{◌≡◌, ◌⊎◌, ℕ, ◌+◌, ◌-◌, ◌<◌, ◌≤◌, ◌^◌, [], true, false, length, None, IfOk, OnOk};
ghost use Rattle.std.specs.List.{list_any};
ghost use Rattle.worlds.specs.World.{World};
ghost use Rattle.worlds.specs.Square.{empty_square};
ghost use Rattle.worlds.specs.Range.{HasMargin};
ghost use Rattle.plane_core.specs.Rows.{number_row, same_row, completed};
ghost use Rattle.plane_core.specs.Walks.{Walks};
ghost use Rattle.square_table.specs.Squares.{IsHeld, IsNumber, AreNumbers, first_number, kids_at, square_in, level_of, cells_of};
ghost use Rattle.square_table.specs.Centred.{IsCentred};
ghost use Rattle.square_table.specs.Renumbering.{known_of, known_range};
ghost use Rattle.square_table.specs.Packing.{IsPackStep, IsPacking, Packs, WalksFour, IsPadded, SharesSquare, IsAlike, square_by};

use crate::renumbering::{RANGE, Renumbering};
use crate::slots::is_same;
use crate::square::Square;
use crate::table::SquareTable;
use plane_core::{Plane, SquareRow};
use std::alloc::AllocError;

// The highest level of a plane's root.
const MOST_LEVEL: u8 = 62;

// A square by the numbers of its quadrants.
#[derive(Clone, Copy, Debug)]
struct Quarters {
    kids: [u32; 4],
    level: u8,
}

// What is found of a square: its number among the rows that are packed, or, where it has none, its
// quadrants.
#[derive(Clone, Copy, Debug)]
enum PackStep {
    Number(u32),
    Quadrants([u32; 4]),
}

// The rows that are packed, and for each square of the table that was seen its number among them.
#[derive(Drop)]
struct Packed {
    squares: Vec<SquareRow>,
    numbers: Renumbering,
}

// The number of a row that isn't among the others, of which it becomes the last; 0 where it is empty.
#[inline(always)]
fn complete(squares: &mut Vec<SquareRow>, row: SquareRow) -> Result<u32, AllocError>
    requires new { list_any (same_row row) squares.old.items ≡ false }
    requires few { length squares.old.items < known_range }
    ensures rows { OnOk result ((number_row row squares.old.items).rows ≡ squares.new.items) }
    ensures number { IfOk result (λ n. (number_row row squares.old.items).number ≡ n) }
    ensures small { IfOk result (λ n. n < known_range) }
    ensures few { OnOk result (length squares.new.items < known_range) }
{
    if is_same(&row.kids, &[0; 4]) {
        return Ok(0);
    }
    let number = squares.len() as u32 + 1;
    if number >= RANGE {
        return Err(AllocError);
    }
    squares.reserve(1)?;
    squares.push_reserved(row);
    Ok(number)
}

impl<'a> SquareTable<'a> {
    // The square of half the side in the middle of one.
    #[tactic(auto, unfolding(crate::specs::Squares::IsNumber))]
    fn middle(&self, whole: Quarters) -> Quarters
        requires level { 2 ≤ whole.level }
        requires numbers { AreNumbers self.now.rows (whole.level - 1) whole.kids }
        ensures level { result.level ≡ whole.level - 1 }
        ensures numbers { AreNumbers self.now.rows (result.level - 1) result.kids }
        ensures centred { (62 < whole.level) ⊎ IsPadded self.now.rows whole →
            SharesSquare self.now.rows whole result }
    {
        let kids = whole.kids;
        let nw = self.quadrants(kids[0])[3];
        let ne = self.quadrants(kids[1])[2];
        let sw = self.quadrants(kids[2])[1];
        let se = self.quadrants(kids[3])[0];
        Quarters {
            kids: [nw, ne, sw, se],
            level: whole.level - 1,
        }
    }

    // Whether a square is empty. Its quadrants are one square then, and so are theirs: it takes a
    // step for each level.
    #[tactic(auto, unfolding(crate::specs::Squares::IsNumber))]
    fn is_blank(&self, level: u8, number: u32) -> bool
        requires { IsNumber self.now.rows level number }
        ensures { result ≡ true → square_in self.now.rows level number ≡ empty_square level }
    {
        if level == 0 {
            return number == 0;
        }
        let kids = self.quadrants(number);
        if kids == [kids[0]; 4] {
            return self.is_blank(level - 1, kids[0]);
        }
        false
    }

    // Whether a square is empty round the one in its middle.
    #[tactic(auto, unfolding(crate::specs::Squares::IsNumber))]
    fn is_padded(&self, whole: Quarters) -> bool
        requires level { 2 ≤ whole.level }
        requires numbers { AreNumbers self.now.rows (whole.level - 1) whole.kids }
        ensures { result ≡ true → IsPadded self.now.rows whole }
    {
        let kids = whole.kids;
        let nw = self.quadrants(kids[0]);
        let ne = self.quadrants(kids[1]);
        let sw = self.quadrants(kids[2]);
        let se = self.quadrants(kids[3]);
        let far = [
            nw[1], nw[2], ne[0], ne[1], ne[3], sw[0], sw[2], sw[3], se[1], se[2], se[3],
        ];
        if far == [nw[0]; 11] {
            return self.is_blank(whole.level - 2, nw[0]);
        }
        false
    }

    // Whether the square in the middle of one has all of a plane's live cells.
    fn is_wide(&self, whole: Quarters) -> bool
        requires level { 1 ≤ whole.level }
        requires numbers { AreNumbers self.now.rows (whole.level - 1) whole.kids }
        ensures level { result ≡ true → 2 ≤ whole.level }
        ensures wide { result ≡ true → (62 < whole.level) ⊎ IsPadded self.now.rows whole }
        ensures high { result ≡ false → whole.level ≤ 62 }
    {
        if whole.level > MOST_LEVEL {
            return true;
        }
        if whole.level == 1 {
            return false;
        }
        self.is_padded(whole)
    }

    // The least square in its middle that has all of a plane's live cells. What a plane keeps has
    // the least root, so no other root has to be found for what is packed.
    fn root(&self, square: Square<'a>) -> Quarters
        requires held { IsHeld self.now square }
        requires level { 1 ≤ level_of square }
        ensures level { (1 ≤ result.level) × (result.level ≤ 62) }
        ensures numbers { AreNumbers self.now.rows (result.level - 1) result.kids }
        ensures centred { IsAlike self.now square.entry result }
    {
        let mut root = Quarters {
            kids: *square.kids,
            level: square.level,
        };
        while self.is_wide(root) {
            root = self.middle(root);
        }
        root
    }

    // What is packed of a square, or its quadrants.
    #[inline(always)]
    fn find(&self, packed: &Packed, number: u32) -> PackStep
        requires above { first_number ≤ number }
        requires there { number < first_number + length self.now.rows }
        requires packed { IsPacking self.now.rows packed.now }
        ensures { (level : ℕ) → 1 ≤ level → IsNumber self.now.rows level number →
            IsPackStep self.now.rows level number packed.now.squares.items result }
    {
        match packed.numbers.get(number) {
            Some(known) => PackStep::Number(known),
            None => PackStep::Quadrants(self.quadrants(number)),
        }
    }

    // Packs the squares of a level that four numbers stand for, and gives their numbers among the rows.
    // All four are found before the first is packed: they lie far apart in memory, which is waited for
    // once then.
    #[cycle(pack)]
    #[inline(always)]
    fn pack_kids(
        &self,
        packed: &mut Packed,
        level: u8,
        kids: [u32; 4],
    ) -> Result<[u32; 4], AllocError>
        requires level { level ≤ 61 }
        requires kids { AreNumbers self.now.rows level kids }
        requires packed { IsPacking self.now.rows packed.old }
        ensures walks { IfOk result (WalksFour self.now.rows level kids
            packed.old.squares.items packed.new.squares.items) }
        ensures packs { OnOk result (Packs self.now.rows level packed.old packed.new) }
    {
        if level == 0 {
            return Ok(kids);
        }
        let nw_found = self.find(packed, kids[0]);
        let ne_found = self.find(packed, kids[1]);
        let sw_found = self.find(packed, kids[2]);
        let se_found = self.find(packed, kids[3]);
        let nw = self.pack_square(packed, level, kids[0], nw_found)?;
        let ne = self.pack_square(packed, level, kids[1], ne_found)?;
        let sw = self.pack_square(packed, level, kids[2], sw_found)?;
        let se = self.pack_square(packed, level, kids[3], se_found)?;
        Ok([nw, ne, sw, se])
    }

    // The number of a divided square among the rows, packed or not. It was looked for before those
    // beside it were packed, and may be among theirs. Most have a number, so that the look-ups stand
    // where four are asked for, and what they lead to doesn't.
    #[tactic(auto, unfolding(crate::specs::Squares::IsNumber))]
    #[cycle(pack)]
    #[inline(always)]
    fn pack_square(
        &self,
        packed: &mut Packed,
        level: u8,
        number: u32,
        found: PackStep,
    ) -> Result<u32, AllocError>
        requires level { (1 ≤ level) × (level ≤ 61) }
        requires number { IsNumber self.now.rows level number }
        requires packed { IsPacking self.now.rows packed.old }
        requires found { IsPackStep self.now.rows level number packed.old.squares.items found }
        ensures walks { IfOk result (Walks level (square_in self.now.rows level number)
            packed.old.squares.items packed.new.squares.items) }
        ensures packs { OnOk result (Packs self.now.rows level packed.old packed.new) }
    {
        let quadrants = match found {
            PackStep::Number(known) => return Ok(known),
            PackStep::Quadrants(quadrants) => quadrants,
        };
        if let Some(known) = packed.numbers.get(number) {
            return Ok(known);
        }
        self.pack_new(packed, level, number, quadrants)
    }

    // Packs a square of these quadrants that wasn't seen, and gives its number among the rows. Its row
    // is a new one, since the table's squares are distinct.
    #[tactic(auto, unfolding(crate::specs::Squares::IsNumber))]
    #[cycle(pack)]
    #[inline(never)]
    fn pack_new(
        &self,
        packed: &mut Packed,
        level: u8,
        number: u32,
        quadrants: [u32; 4],
    ) -> Result<u32, AllocError>
        requires level { (1 ≤ level) × (level ≤ 61) }
        requires number { IsNumber self.now.rows level number }
        requires quadrants { quadrants ≡ kids_at self.now.rows number }
        requires packed { IsPacking self.now.rows packed.old }
        requires new { known_of packed.old.numbers number ≡ None }
        ensures walks { IfOk result (Walks level (square_in self.now.rows level number)
            packed.old.squares.items packed.new.squares.items) }
        ensures packs { OnOk result (Packs self.now.rows level packed.old packed.new) }
    {
        let kids = self.pack_kids(packed, level - 1, quadrants)?;
        let known = complete(&mut packed.squares, SquareRow { level, kids })?;
        packed.numbers.insert(number, known);
        Ok(known)
    }

    // Nothing is packed yet. It has room for as many rows as the packing before made, and some more.
    fn nothing(&self, mut numbers: Renumbering) -> Result<Packed, AllocError>
        ensures packing { IfOk result (IsPacking self.now.rows) }
        ensures none { IfOk result (λ packed. packed.squares.items ≡ []) }
    {
        numbers.begin(self.end() as usize)?;
        let count = self.row_count();
        Ok(Packed {
            squares: Vec::with_capacity(self.alloc(), count.saturating_add(count / 8))?,
            numbers,
        })
    }

    // The rows that a walk of a square completes, packed by a list that may have served before.
    fn pack_rows(&self, root: Quarters, numbers: Renumbering) -> Result<Packed, AllocError>
        requires level { (1 ≤ root.level) × (root.level ≤ 62) }
        requires numbers { AreNumbers self.now.rows (root.level - 1) root.kids }
        ensures { IfOk result (λ packed.
            completed root.level (square_by self.now.rows root) ≡ packed.squares.items) }
    {
        let mut packed = self.nothing(numbers)?;
        let kids = self.pack_kids(&mut packed, root.level - 1, root.kids)?;
        let row = SquareRow {
            level: root.level,
            kids,
        };
        complete(&mut packed.squares, row)?;
        Ok(packed)
    }

    /// The plane whose cells round (0, 0) are those of the square, of a level of at least 1.
    ///
    /// It costs a step and some bytes for each distinct square in it, however many others the table
    /// holds; but those that came since the packing before cost four bytes each. It is refused for
    /// memory alone, and leaves the table as it was.
    pub fn pack(&mut self, square: Square<'a>) -> Result<Plane, AllocError>
        requires held { IsHeld self.old square }
        requires level { 1 ≤ level_of square }
        requires world { (w : World) × HasMargin 0 w
            × IsCentred w (level_of square) (cells_of self.old square) }
        ensures plane { IfOk result (λ plane.
            IsCentred plane (level_of square.entry) (cells_of self.old square.entry)) }
        ensures same { self.new ≡ self.old }
    {
        let numbers = self.take_numbers();
        let packed = self.pack_rows(self.root(square), numbers)?;
        self.keep_numbers(packed.numbers, packed.squares.len());
        Plane::from_walked(self.alloc(), packed.squares)
    }
}
