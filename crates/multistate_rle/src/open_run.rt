//! The run that is being counted.
ghost use Rattle.std.specs.Prelude.{◌≡◌, ◌<◌, ◌+◌, ◌^◌, ◌↔◌, IsTrue, ℤ, pos, ◌<ℤ◌, ◌+ℤ◌};
ghost use Rattle.multistate_rle.specs.Listed.{IsListed};
ghost use Rattle.multistate_rle.specs.declared.token.Token.TheVariants.{Run};

use crate::token::Token;
use plane_core::Cell;

/// Live cells of one state side by side, of which more may come.
#[derive(Clone, Copy, Debug)]
pub(crate) struct OpenRun {
    /// The row.
    pub(crate) y: i64,
    /// The column behind the last cell.
    pub(crate) next: i64,
    pub(crate) count: u64,
    pub(crate) state: u8,
    ghost live: { 0 < state },
}

impl OpenRun {
    /// The run of one cell.
    pub(crate) fn of(cell: &Cell) -> OpenRun
        requires { IsListed cell.now }
        ensures place { (result.y ≡ cell.now.y) × (result.next ≡ (cell.now.x +ℤ pos 1)) }
        ensures cells { (result.count ≡ 1) × (result.state ≡ cell.now.state) }
    {
        OpenRun {
            y: cell.y,
            next: cell.x + 1,
            count: 1,
            state: cell.state,
        }
    }

    /// Whether the run goes on with the cell.
    pub(crate) fn goes_on_with(&self, cell: &Cell) -> bool
        ensures { IsTrue result ↔ ((self.now.y ≡ cell.now.y)
            × (self.now.next ≡ cell.now.x) × (self.now.state ≡ cell.now.state)) }
    {
        self.y == cell.y && self.next == cell.x && self.state == cell.state
    }

    /// The run with one cell more.
    pub(crate) fn extended(self) -> OpenRun
        requires { (self.count + 1 < 2 ^ 64) × (self.next <ℤ pos (2 ^ 61)) }
        ensures { result ≡ record self { next = self.next +ℤ pos 1; count = self.count + 1 } }
    {
        OpenRun {
            y: self.y,
            next: self.next + 1,
            count: self.count + 1,
            state: self.state,
        }
    }

    /// Its token, once no more cells come.
    pub(crate) fn token(self) -> Token
        ensures { result ≡ Run self.count self.state }
    {
        Token::Run {
            count: self.count,
            state: self.state,
        }
    }
}
