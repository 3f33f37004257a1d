//! The body of a pattern's text, as far as it is written.
ghost use Rattle.std.specs.Prelude.{◌≡◌, ◌∷◌, [], ◌++◌, ◌+◌, ◌<◌, ◌≤◌, ◌^◌, ℕ, List, All, map, IfOk, OnOk, length};
ghost use Rattle.worlds.specs.World.{Place};
ghost use Rattle.worlds.specs.Live.{of_cell, place_of};
ghost use Rattle.multistate_rle.specs.declared.token.Token.{Token};
ghost use Rattle.multistate_rle.specs.declared.token.Token.TheVariants.{End};
ghost use Rattle.multistate_rle.specs.Token.{way, tokens, zeros};
ghost use Rattle.multistate_rle.specs.Writing.{finished, tokens_on};
ghost use Rattle.multistate_rle.specs.Listed.{IsListed};

use crate::frame::Frame;
use crate::open_run::OpenRun;
use crate::token::{Token, push_token};
use plane_core::Cell;
use std::alloc::AllocError;

/// A line of a body has at most so many bytes.
const LINE: usize = 70;

/// The text as far as it is written. Tokens are packed into lines as they come.
#[derive(Drop)]
pub(crate) struct Body {
    pub(crate) text: Vec<u8>,
    /// How many bytes fit on the present line yet.
    pub(crate) room: usize,
    /// How many states the rule has.
    pub(crate) states: u16,
}

impl Body {
    /// An empty body behind the text.
    pub(crate) fn behind(text: Vec<u8>, states: u16) -> Body
        ensures { result ≡ record { text = text; room = 70; states = states } }
    {
        Body {
            text,
            room: LINE,
            states,
        }
    }

    // Writes a token, on the present line if it fits whole, else on the next.
    fn push(&mut self, token: Token) -> Result<(), AllocError>
        ensures { OnOk result
            ((ts : List Token) → finished self.new ts ≡ finished self.old (token ∷ ts)) }
    {
        let start = self.text.len();
        push_token(&mut self.text, token, self.states)?;
        let len = self.text.len() - start;
        if len > self.room {
            self.text.insert(start, b'\n')?;
            self.room = LINE;
        }
        self.room = self.room.saturating_sub(len);
        Ok(())
    }

    // Writes so many cells of state 0.
    fn push_zeros(&mut self, count: u64) -> Result<(), AllocError>
        ensures { OnOk result
            ((ts : List Token) → finished self.new ts ≡ finished self.old (zeros count ++ ts)) }
    {
        if count == 0 {
            return Ok(());
        }
        self.push(Token::Run { count, state: 0 })
    }

    // Writes what leads from the place (x, y) to the cell.
    fn push_way(&mut self, left: i64, x: i64, y: i64, cell: &Cell) -> Result<(), AllocError>
        ensures { OnOk result ((ts : List Token) →
            finished self.new ts ≡ finished self.old (way left (y, x) (place_of cell.now) ++ ts)) }
    {
        let count = cell.y.abs_diff(y);
        if count == 0 {
            return self.push_zeros(cell.x.abs_diff(x));
        }
        self.push(Token::RowEnds { count })?;
        self.push_zeros(cell.x.abs_diff(left))
    }

    // Goes on with the cell: the open run, which is written where it doesn't hold the cell.
    #[tactic(auto, using(crate::proofs::Runs::goes_on))]
    fn advance(&mut self, left: i64, run: OpenRun, cell: &Cell) -> Result<OpenRun, AllocError>
        requires { (run.count + 1 < 2 ^ 64) × IsListed cell.now }
        ensures written { IfOk result (λ next. (cells : List (Place × ℕ)) →
            finished self.new (tokens_on left next cells)
            ≡ finished self.old (tokens_on left run (of_cell cell.now ∷ cells))) }
        ensures count { IfOk result (λ next. next.count ≤ run.count + 1) }
    {
        if run.goes_on_with(cell) {
            return Ok(run.extended());
        }
        self.push(run.token())?;
        self.push_way(left, run.next, run.y, cell)?;
        Ok(OpenRun::of(cell))
    }

    // Writes the open run, the cells behind it and the end of the pattern.
    fn push_rest(&mut self, left: i64, mut run: OpenRun, cells: &[Cell]) -> Result<(), AllocError>
        requires few { run.count + length cells.now < 2 ^ 64 }
        requires listed { All IsListed cells.now }
        ensures { OnOk result (finished self.new []
            ≡ finished self.old (tokens_on left run (map of_cell cells.now))) }
    {
        for cell in cells {
            run = self.advance(left, run, cell)?;
        }
        self.push(run.token())?;
        self.push(Token::End)
    }

    /// Writes the tokens of the cells and the end of the pattern. The cells are those of a plane,
    /// row by row, and the frame is theirs.
    pub(crate) fn push_cells(&mut self, frame: &Frame, cells: &[Cell]) -> Result<(), AllocError>
        requires { All IsListed cells.now }
        ensures { OnOk result (finished self.new [] ≡ finished self.old
            (tokens frame.now.left (frame.now.top, frame.now.left) (map of_cell cells.now))) }
    {
        let Some((first, rest)) = cells.split_first() else {
            return self.push(Token::End);
        };
        self.push_way(frame.left, frame.left, frame.top, first)?;
        self.push_rest(frame.left, OpenRun::of(first), rest)
    }

    /// The text, with its last line closed.
    pub(crate) fn close(self) -> Result<Vec<u8>, AllocError>
        ensures { IfOk result (λ text. text.items ≡ finished self []) }
    {
        let mut text = self.text;
        text.push(b'\n')?;
        Ok(text)
    }
}
