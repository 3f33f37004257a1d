//! Rows of squares.
ghost use Rattle.std.specs.Prelude.{◌≡◌, ◌↔◌, ◌+◌, ◌*◌, ◌^◌, IsTrue};

/// A square of side `2^level` by its four quadrants, in the order nw, ne, sw, se.
///
/// At level 1 the kids are states. Above, each is 0, which stands for a square with no live cell,
/// or the number, counted from 1, of an earlier row of one level less.
#[derive(Clone, Copy, Debug, PartialEq, Eq, Hash)]
pub struct SquareRow {
    pub level: u8,
    pub kids: [u32; 4],
}

// Two kids side by side, which are read at once.
#[inline(always)]
fn side_by_side(left: u32, right: u32) -> u64
    ensures { result ≡ left + right * 2 ^ 32 }
{
    u64::from(left) + (u64::from(right) << 32)
}

// Whether two pairs of kids are the same.
#[inline(always)]
fn is_pair(left: u32, right: u32, other_left: u32, other_right: u32) -> bool
    ensures { IsTrue result ↔ ((left ≡ other_left) × (right ≡ other_right)) }
{
    side_by_side(left, right) == side_by_side(other_left, other_right)
}

// Whether two rows are the same.
#[inline(always)]
fn is_same(a: &SquareRow, b: &SquareRow) -> bool
    ensures { IsTrue result ↔ (a.now ≡ b.now) }
{
    a.level == b.level
        && is_pair(a.kids[0], a.kids[1], b.kids[0], b.kids[1])
        && is_pair(a.kids[2], a.kids[3], b.kids[2], b.kids[3])
}

/// Whether two lists of rows are the same.
pub fn are_same(a: &[SquareRow], b: &[SquareRow]) -> bool
    ensures { IsTrue result ↔ (a.now ≡ b.now) }
{
    if a.len() != b.len() {
        return false;
    }
    for i in 0..a.len() {
        if !is_same(&a[i], &b[i]) {
            return false;
        }
    }
    true
}
