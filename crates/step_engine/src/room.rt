//! The table that an engine begins with.
ghost use Rattle.std.specs.Prelude.{◌≡◌, min, IfOk};
ghost use Rattle.square_table.specs.Squares.{no_squares};

use bumpalo::Bump;
use square_table::SquareTable;
use std::alloc::{AllocError, Global};

/// A table may hold no more squares.
pub(crate) const MOST_SQUARES: u32 = 1 << 24;

/// A table with no square, that may hold up to `limit`, at most 16,777,216.
pub fn no_squares<'a>(
    alloc: Global,
    arena: &'a Bump,
    limit: u32,
) -> Result<SquareTable<'a>, AllocError>
    ensures { IfOk result (λ t. t ≡ no_squares (min limit 16777216)) }
{
    SquareTable::new(alloc, arena, limit.min(MOST_SQUARES))
}
