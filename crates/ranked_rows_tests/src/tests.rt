//! Finding shelves, and making them anew.
ghost use Rattle.schedule.specs.Ids.{IdsRise};

use ranked_rows::{Ranked, Remakes, find, get, get_near, place_in, remade};
use std::alloc::Global;
use std::cell::Cell;
use std::fmt::Debug;
use std::process::Abort;

/// A shelf, with what lies on it.
#[derive(Clone, Copy, Debug, PartialEq, Eq)]
struct Shelf {
    mark: u32,
    load: u32,
}

impl Ranked for Shelf {
    ghost rank = { λ s. s.mark };

    fn rank(&self) -> u128 {
        u128::from(self.mark)
    }
}

/// Moves to new shelves what weighs no more than a limit, and weighs what goes.
#[derive(Drop)]
struct Mover {
    limit: u32,
    gone: Cell<u32>,
}

impl Remakes<u32, Shelf> for Mover {
    ghost use Rattle.ranked_rows_tests.specs.Moved.{moved};
    ghost use Rattle.std.specs.Option.{option_map};
    ghost use Rattle.std.specs.Prelude.{⊤};

    ghost key_rank = { λ mark. mark };

    ghost made = { λ mover mark old.
        record { mark = mark; load = moved mover.limit (option_map (λ shelf. shelf.load) old) } };

    ghost may_go = { λ mover old. ⊤ };

    fn key_rank(&self, mark: &u32) -> u128 {
        u128::from(*mark)
    }

    fn anew(&self, mark: &u32) -> Shelf {
        Shelf {
            mark: *mark,
            load: 0,
        }
    }

    fn of_old(&self, mark: &u32, old: &mut Shelf) -> Shelf {
        let load = if old.load <= self.limit { old.load } else { 0 };
        Shelf { mark: *mark, load }
    }

    fn gone(&self, old: &Shelf) {
        self.gone.set(self.gone.get().saturating_add(old.load));
    }
}

/// Stops the test where what was found isn't what was wanted.
fn same<T: PartialEq + Debug, A: Debug>(rt: &impl Abort, found: &T, wanted: &T, at: &A) {
    assert!(rt; *found == *wanted, "{at:?}: {found:?} is not {wanted:?}");
}

/// Looks for a mark among shelves, and by each guess.
fn finds(rt: &impl Abort, shelves: &[Shelf], mark: u32, place: usize, wanted: Option<u32>)
    requires { IdsRise (λ s. s.mark) shelves.now }
{
    let rank = u128::from(mark);
    same(rt, &place_in(shelves, rank), &place, &mark);
    same(rt, &find(shelves, rank), &wanted.map(|_| place), &mark);
    same(rt, &get(shelves, rank).map(|s| s.load), &wanted, &mark);
    for guess in 0..5 {
        let near = get_near(shelves, rank, guess);
        same(rt, &near.map(|s| s.load), &wanted, &(mark, guess));
    }
}

/// Makes shelves of these marks of old ones, and weighs what went.
fn makes(rt: &impl Abort, alloc: Global, marks: &[u32], old: &[Shelf], wanted: &[Shelf], gone: u32)
    requires marks { IdsRise (λ mark. mark) marks.now }
    requires old { IdsRise (λ s. s.mark) old.now }
{
    let mover = Mover {
        limit: 20,
        gone: Cell::new(0),
    };
    let room = Vec::with_capacity(alloc, marks.len()).expect(rt, "memory");
    let rows = remade(&mover, room, marks, old.to_vec(alloc).expect(rt, "memory"));
    same(rt, &rows.as_slice(), &wanted, &marks);
    same(rt, &mover.gone.get(), &gone, &marks);
}

#[test]
fn finds_each_shelf_by_its_mark(rt: HostRuntime) {
    let shelves = [
        Shelf { mark: 2, load: 20 },
        Shelf { mark: 5, load: 50 },
        Shelf { mark: 9, load: 90 },
    ];
    finds(&rt, &shelves, 0, 0, None);
    finds(&rt, &shelves, 2, 0, Some(20));
    finds(&rt, &shelves, 4, 1, None);
    finds(&rt, &shelves, 9, 2, Some(90));
    finds(&rt, &shelves, 10, 3, None);
    finds(&rt, &[], 5, 0, None);
}

#[test]
fn makes_shelves_of_old_ones(rt: HostRuntime) {
    let old = [
        Shelf { mark: 2, load: 7 },
        Shelf { mark: 5, load: 20 },
        Shelf { mark: 6, load: 21 },
        Shelf { mark: 7, load: 3 },
        Shelf { mark: 9, load: 1 },
    ];
    // 2, 7 and 9 go.
    let wanted = [
        Shelf { mark: 1, load: 0 },
        Shelf { mark: 5, load: 20 },
        Shelf { mark: 6, load: 0 },
    ];
    makes(&rt, rt.alloc(), &[1, 5, 6], &old, &wanted, 11);
    makes(&rt, rt.alloc(), &[], &old, &[], 52);
    makes(&rt, rt.alloc(), &[1], &[], &[Shelf { mark: 1, load: 0 }], 0);
}
