//! Planes as squares of a table.
ghost use Rattle.std.specs.Prelude.{◌≡◌, ◌+◌, ◌<◌, ◌≤◌, [], ◌∷◌, ◌++◌, length, IfOk, OnOk, Err};
ghost use Rattle.worlds.specs.Square.{empty_square};
ghost use Rattle.plane_core.specs.Rows.{AreRows, root_level, root_of};
ghost use Rattle.square_table.specs.Squares.{Tells};
ghost use Rattle.square_table.specs.Made.{IsFull};
ghost use Rattle.square_table.specs.Loading.{AreBlanks, AreLoaded, IsLoading, GrowsFrom, GrowsFor, KeepsStates, TellsWorld, LevelsUpTo, number_in, empty_below};

use crate::fault::TableFault;
use crate::square::Square;
use crate::table::SquareTable;
use plane_core::{Plane, SquareRow};
use std::alloc::AllocError;

// The number of the square of a level that a kid of a plane's row stands for.
fn number_in(blanks: &[u32], numbers: &[u32], level: u8, kid: u32) -> u32
    requires level { level < length blanks.now }
    requires listed { 1 ≤ level → kid ≤ length numbers.now }
    ensures { result ≡ number_in blanks.now numbers.now level kid }
{
    if level == 0 {
        return kid;
    }
    if kid == 0 {
        return blanks[level as usize];
    }
    numbers[kid as usize - 1]
}

// One more number.
fn push(numbers: &mut Vec<u32>, number: u32) -> Result<(), AllocError>
    ensures { OnOk result (numbers.new.items ≡ numbers.old.items ++ number ∷ []) }
{
    numbers.push(number)?;
    Ok(())
}

impl<'a> SquareTable<'a> {
    // Adds the blank square of one level more than the last.
    fn push_blank(&mut self, blanks: &mut Vec<u32>) -> Result<(), TableFault>
        requires blanks { AreBlanks self.old.rows blanks.old.items }
        requires some { 0 < length blanks.old.items }
        ensures grows { GrowsFrom (length blanks.old.items + 1) [] self.old self.new }
        ensures blanks { OnOk result (AreBlanks self.new.rows blanks.new.items) }
        ensures count { OnOk result (length blanks.new.items ≡ length blanks.old.items + 1) }
        ensures full { result ≡ Err TableFault.NoRoom → IsFull self.new }
    {
        let blank = blanks[blanks.len() - 1];
        let next = self.join_numbers([blank; 4])?;
        Ok(push(blanks, next)?)
    }

    // The numbers of the blank squares of the levels below this one.
    fn blanks(&mut self, level: u8) -> Result<Vec<u32>, TableFault>
        requires { 1 ≤ level }
        ensures grows { GrowsFrom level [] self.old self.new }
        ensures count { IfOk result (λ blanks. length blanks.items ≡ level) }
        ensures blanks { IfOk result (λ blanks. AreBlanks self.new.rows blanks.items) }
        ensures full { result ≡ Err TableFault.NoRoom → IsFull self.new }
    {
        let mut blanks = Vec::with_capacity(self.alloc(), level as usize)?;
        push(&mut blanks, 0)?;
        for _ in 1..level {
            self.push_blank(&mut blanks)?;
        }
        Ok(blanks)
    }

    // Adds the number of the square of the next row.
    fn push_next(
        &mut self,
        squares: &[SquareRow],
        blanks: &[u32],
        numbers: &mut Vec<u32>,
    ) -> Result<(), TableFault>
        requires loading { IsLoading squares.now blanks.now self.old.rows numbers.old.items }
        requires more { length numbers.old.items < length squares.now }
        ensures grows { GrowsFrom 0 squares.now self.old self.new }
        ensures loaded { OnOk result (AreLoaded squares.now self.new.rows numbers.new.items) }
        ensures count { OnOk result (length numbers.new.items ≡ length numbers.old.items + 1) }
        ensures full { result ≡ Err TableFault.NoRoom → IsFull self.new }
    {
        let row = squares[numbers.len()];
        let level = row.level - 1;
        let nw = number_in(blanks, numbers, level, row.kids[0]);
        let ne = number_in(blanks, numbers, level, row.kids[1]);
        let sw = number_in(blanks, numbers, level, row.kids[2]);
        let se = number_in(blanks, numbers, level, row.kids[3]);
        let next = self.join_numbers([nw, ne, sw, se])?;
        Ok(push(numbers, next)?)
    }

    // The numbers of the squares of a plane's rows, in the order of the rows.
    fn load_rows(&mut self, squares: &[SquareRow], blanks: &[u32]) -> Result<Vec<u32>, TableFault>
        requires squares { AreRows squares.now × LevelsUpTo (length blanks.now) squares.now }
        requires blanks { AreBlanks self.old.rows blanks.now }
        ensures grows { GrowsFrom 0 squares.now self.old self.new }
        ensures count { IfOk result (λ numbers. length numbers.items ≡ length squares.now) }
        ensures loaded { IfOk result
            (λ numbers. AreLoaded squares.now self.new.rows numbers.items) }
        ensures full { result ≡ Err TableFault.NoRoom → IsFull self.new }
    {
        let mut numbers = Vec::with_capacity(self.alloc(), squares.len())?;
        while numbers.len() < squares.len() {
            self.push_next(squares, blanks, &mut numbers)?;
        }
        Ok(numbers)
    }

    // The blank square of level 1.
    fn load_none(&mut self) -> Result<Square<'a>, TableFault>
        ensures grows { GrowsFrom 2 [] self.old self.new }
        ensures square { IfOk result (Tells self.new 1 (empty_square 1)) }
        ensures full { result ≡ Err TableFault.NoRoom → IsFull self.new }
    {
        let number = self.join_numbers([0; 4])?;
        Ok(self.square(1, number)?)
    }

    // The square of the root of a plane's rows.
    fn load_root(&mut self, squares: &[SquareRow]) -> Result<Square<'a>, TableFault>
        requires { AreRows squares.now × LevelsUpTo (root_level squares.now) squares.now }
        ensures grows { GrowsFrom (empty_below squares.now) squares.now self.old self.new }
        ensures square { IfOk result
            (Tells self.new (root_level squares.now) (root_of squares.now)) }
        ensures full { result ≡ Err TableFault.NoRoom → IsFull self.new }
    {
        let Some(root) = squares.last() else {
            return self.load_none();
        };
        let level = root.level;
        let blanks = self.blanks(level)?;
        let numbers = self.load_rows(squares, &blanks)?;
        let number = numbers[squares.len() - 1];
        Ok(self.square(level, number)?)
    }

    /// The square of a plane, whose middle is the cell (0, 0), at the least level from 1 to 62 that
    /// holds the live cells.
    ///
    /// It costs one look-up for each row of the plane. NoRoom where a square isn't there yet and the
    /// table holds as many as it may; NoMemory where a growth was refused. The squares that a refused
    /// call has made stay.
    pub fn load(&mut self, plane: &Plane) -> Result<Square<'a>, TableFault>
        ensures grows { GrowsFor plane.now self.old self.new }
        ensures square { IfOk result (TellsWorld self.new plane.now) }
        ensures states { KeepsStates plane.now self.old self.new }
        ensures full { result ≡ Err TableFault.NoRoom → IsFull self.new }
    {
        let squares = plane.squares()?;
        self.load_root(&squares)
    }
}
