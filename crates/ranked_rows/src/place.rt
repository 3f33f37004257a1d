//! The row of a rank.
ghost use Rattle.std.specs.Prelude.{◌≡◌, MatchOption, None, Some};
ghost use Rattle.schedule.specs.Ids.{IdsRise};
ghost use Rattle.ranked_rows.specs.Rows.{IsAt, place_in, row_at};

use crate::ranked::Ranked;

/// How many rows stand before the place of a rank.
pub fn place_in<T: Ranked>(rows: &[T], rank: u128) -> usize
    requires { IdsRise T.rank rows.now }
    ensures { result ≡ place_in T.rank rank rows.now }
{
    rows.partition_point(|row| row.rank() < rank)
}

/// The same, where it may well be `guess`, which is looked at first.
pub fn place_near<T: Ranked>(rows: &[T], rank: u128, guess: usize) -> usize
    requires { IdsRise T.rank rows.now }
    ensures { result ≡ place_in T.rank rank rows.now }
{
    if guess < rows.len() && rows[guess].rank() == rank {
        guess
    } else {
        place_in(rows, rank)
    }
}

/// The place of the row of a rank, if there is one.
pub fn find<T: Ranked>(rows: &[T], rank: u128) -> Option<usize>
    requires { IdsRise T.rank rows.now }
    ensures { MatchOption result (row_at T.rank rank rows.now ≡ None)
        (λ place. IsAt T.rank rank rows.now place) }
{
    taken_by(rows, rank, place_in(rows, rank))
}

/// The row of a rank, if there is one.
pub fn get<T: Ranked>(rows: &[T], rank: u128) -> Option<&T>
    requires { IdsRise T.rank rows.now }
    ensures { MatchOption result (row_at T.rank rank rows.now ≡ None)
        (λ row. row_at T.rank rank rows.now ≡ Some row.now) }
{
    match find(rows, rank) {
        Some(place) => Some(&rows[place]),
        None => None,
    }
}

/// The same, where it may well stand at the place `guess`, which is looked at first.
pub fn get_near<T: Ranked>(rows: &[T], rank: u128, guess: usize) -> Option<&T>
    requires { IdsRise T.rank rows.now }
    ensures { MatchOption result (row_at T.rank rank rows.now ≡ None)
        (λ row. row_at T.rank rank rows.now ≡ Some row.now) }
{
    match taken_by(rows, rank, place_near(rows, rank, guess)) {
        Some(place) => Some(&rows[place]),
        None => None,
    }
}

// The place of a rank, if a row of the rank stands there.
fn taken_by<T: Ranked>(rows: &[T], rank: u128, place: usize) -> Option<usize>
    requires { place ≡ place_in T.rank rank rows.now × IdsRise T.rank rows.now }
    ensures { MatchOption result (row_at T.rank rank rows.now ≡ None)
        (λ place. IsAt T.rank rank rows.now place) }
{
    if place < rows.len() && rows[place].rank() == rank {
        Some(place)
    } else {
        None
    }
}
