//! Rows made anew from keys.
ghost use Rattle.std.specs.Prelude.{◌≡◌, ℕ, ◌≤◌, ◌+◌, [], drop, length, vec_capacity};
ghost use Rattle.std.specs.Prelude.{Option, None, Some};
ghost use Rattle.std.specs.List.{AllByRecursion};
ghost use Rattle.schedule.specs.Ids.{IdsRise};
ghost use Rattle.ranked_rows.specs.Rows.{remade, row_at, rows_from};

use crate::ranked::Ranked;
use std::marker::Model;

/// How rows are made of keys and of old rows.
pub trait Remakes<K, T> {
    ghost key_rank: { K → ℕ };

    ghost made: { Self → K → Option T → T };

    ghost may_go: { Self → T → Type 0 };

    /// The rank of a key's row.
    fn key_rank(&self, key: &K) -> u128
        ensures { result ≡ key_rank key.now };

    /// The row of a key, where no old row has its rank.
    fn anew(&self, key: &K) -> T
        ensures { result ≡ made self.now key.now None };

    /// The row of a key, where an old row has its rank.
    fn of_old(&self, key: &K, old: &mut T) -> T
        requires { may_go self.now old.old }
        ensures { result ≡ made self.now key.now (Some old.old) };

    /// Lets go of an old row whose rank no key has.
    fn gone(&self, old: &T)
        requires { may_go self.now old.now };
}

/// The row of each key, made of the key and of the old row of its rank, if there is one. They stand
/// in the room, which is empty and has a place for each. An old row whose rank no key has goes.
pub fn remade<K, T: Ranked + Drop, M: Remakes<K, T>>(
    maker: &M,
    room: Vec<T>,
    keys: &[K],
    old: Vec<T>,
) -> Vec<T>
    requires room { room.items ≡ [] × length keys.now ≤ vec_capacity room }
    requires ranked { IdsRise T.rank old.items × IdsRise M.key_rank keys.now }
    requires may_go { AllByRecursion (M.may_go maker.now) old.items }
    ensures { result.items ≡ remade M.key_rank T.rank (M.made maker.now) old.items keys.now }
{
    let mut rows = room;
    let mut left = Left::all(old);
    for key in keys {
        rows.push_reserved(left.row(maker, key));
    }
    left.release(maker);
    rows
}

// Old rows, of which those before a place were passed. Contracts see those that are left.
#[derive(Drop)]
struct Left<T> {
    rows: Vec<T>,
    place: usize,
}

impl<T> Model for Left<T> {
    ghost use Rattle.std.specs.Prelude.{List, drop};

    ghost Value = { List T };

    ghost view = { λ left. drop left.place left.rows.items };
}

impl<T: Ranked + Drop> Left<T> {
    // All rows are left.
    fn all(rows: Vec<T>) -> Left<T>
        ensures { result ≡ rows.items }
    {
        Left { rows, place: 0 }
    }

    // The row of a key, made of the one of its rank that is left, if there is one. It isn't left
    // any more, nor are those of lesser ranks, which go.
    fn row<K, M: Remakes<K, T>>(&mut self, maker: &M, key: &K) -> T
        requires ranked { IdsRise T.rank self.old }
        requires may_go { AllByRecursion (M.may_go maker.now) self.old }
        ensures row { result
            ≡ M.made maker.now key.now (row_at T.rank (M.key_rank key.now) self.old) }
        ensures left { self.new ≡ rows_from T.rank (M.key_rank key.now + 1) self.old }
    {
        let rank = maker.key_rank(key);
        self.pass(maker, rank);
        let place = self.place;
        if place < self.rows.len() && self.rows[place].rank() == rank {
            self.place = place + 1;
            maker.of_old(key, &mut self.rows[place])
        } else {
            maker.anew(key)
        }
    }

    // Passes the rows of lesser ranks, which go.
    fn pass<K, M: Remakes<K, T>>(&mut self, maker: &M, rank: u128)
        requires { AllByRecursion (M.may_go maker.now) self.old }
        ensures { self.new ≡ rows_from T.rank rank self.old }
    {
        let from = self.place;
        for place in from..self.rows.len() {
            if self.rows[place].rank() >= rank {
                self.place = place;
                return;
            }
            maker.gone(&self.rows[place]);
        }
        self.place = self.rows.len();
    }

    // Lets go of all that are left.
    fn release<K, M: Remakes<K, T>>(self, maker: &M)
        requires { AllByRecursion (M.may_go maker.now) self }
    {
        for place in self.place..self.rows.len() {
            maker.gone(&self.rows[place]);
        }
    }
}
