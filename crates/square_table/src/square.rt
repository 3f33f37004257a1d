//! The handle of a square.

/// A square of a table: of one cell at level 0, and of four squares of one level less above it.
///
/// It is as good as its number: in one table squares have equal numbers exactly where they have equal
/// levels and equal cells.
#[derive(Clone, Copy, Debug)]
pub struct Square<'a> {
    // At level 0 four zeros that mean nothing.
    pub(crate) kids: &'a [u32; 4],
    pub(crate) number: u32,
    pub(crate) level: u8,
}

impl<'a> Square<'a> {
    ghost use Rattle.std.specs.Prelude.{◌≡◌};
    ghost use Rattle.square_table.specs.Squares.{level_of, number_of};

    /// How often its side is doubled from one cell.
    pub fn level(self) -> u8
        ensures { result ≡ level_of self.entry }
    {
        self.level
    }

    /// The number that it has in its table: that of its state at level 0, above it one from 256 on.
    pub fn number(self) -> u32
        ensures { result ≡ number_of self.entry }
    {
        self.number
    }
}
