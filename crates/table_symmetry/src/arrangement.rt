//! The arrangements in which the neighbours of a transition may stand.
//!
//! A list is kept once, where it came first. Turns and reflections give 16 at most, each of which
//! is compared with those before it. Under `permute` each set is put in at each place of the orders
//! of those after it, and whether a list is there is seen by its hash, so the cost is in proportion
//! to the lists that are looked at.
ghost use Rattle.std.specs.Prelude.{◌≡◌, ◌≤◌, ◌++◌, ◌∷◌, length, take, drop, IfOk, OnOk};
ghost use Rattle.std.specs.List.{flat_map};
ghost use Rattle.table_symmetry.specs.Circle as maps;
ghost use Rattle.table_symmetry.specs.Expanded.{distinct, same_sets};
ghost use Rattle.table_symmetry.specs.Grown.{lists_in, with_all, with_one};

use indexmap::IndexSet;
use std::alloc::{AllocError, Global};
use table_lines::{StateSet, Symmetry};

/// Lists of sets of states, one for each neighbour.
pub type Circles = Vec<Vec<StateSet>>;

// The same, each list once.
struct DistinctLists {
    lists: IndexSet<Vec<StateSet>>,
}

// Written out, as a set's own is proved again at each exit of a function that has one.
impl Drop for DistinctLists {
    fn drop(self) {
        let DistinctLists { lists: _ } = self;
    }
}

impl DistinctLists {
    fn into_lists(self) -> IndexSet<Vec<StateSet>>
        ensures { result ≡ self.lists }
    {
        let DistinctLists { lists } = self;
        lists
    }
}

/// The circle as the maps of the symmetry put it, each arrangement once.
pub fn arrangements(
    alloc: Global,
    symmetry: Symmetry,
    circle: &[StateSet],
) -> Result<Circles, AllocError>
    ensures { IfOk result (λ lists. lists_in lists.items
        ≡ distinct same_sets (maps.arrangements symmetry circle.now)) }
{
    match symmetry {
        Symmetry::None => turns(alloc, 1, circle),
        Symmetry::Rotate2 => turns(alloc, 2, circle),
        Symmetry::Rotate3 => turns(alloc, 3, circle),
        Symmetry::Rotate4 => turns(alloc, 4, circle),
        Symmetry::Rotate6 => turns(alloc, 6, circle),
        Symmetry::Rotate8 => turns(alloc, 8, circle),
        Symmetry::Rotate4Reflect => turns_and_reflections(alloc, 4, circle),
        Symmetry::Rotate6Reflect => turns_and_reflections(alloc, 6, circle),
        Symmetry::Rotate8Reflect => turns_and_reflections(alloc, 8, circle),
        Symmetry::ReflectHorizontal => turns_and_reflections(alloc, 1, circle),
        Symmetry::Reflect => turns(alloc, 2, circle),
        Symmetry::Permute => all_orders(alloc, circle),
    }
}

// The circle as equal turns put it.
fn turns(alloc: Global, count: usize, circle: &[StateSet]) -> Result<Circles, AllocError>
    requires { 1 ≤ count }
    ensures { IfOk result (λ lists. lists_in lists.items
        ≡ distinct same_sets (maps.turns count circle.now)) }
{
    let mut lists = Vec::new(alloc);
    add_turns(alloc, &mut lists, count, circle)?;
    Ok(lists)
}

// The circle as equal turns put it, and its mirror image as they put that.
fn turns_and_reflections(
    alloc: Global,
    count: usize,
    circle: &[StateSet],
) -> Result<Circles, AllocError>
    requires { 1 ≤ count }
    ensures { IfOk result (λ lists. lists_in lists.items
        ≡ distinct same_sets
        (maps.turns count circle.now ++ maps.turns count (maps.mirrored circle.now))) }
{
    let mut lists = turns(alloc, count, circle)?;
    let image = mirrored(alloc, circle)?;
    add_turns(alloc, &mut lists, count, &image)?;
    Ok(lists)
}

// Adds what equal turns make of the circle and isn't there yet.
fn add_turns(
    alloc: Global,
    lists: &mut Circles,
    count: usize,
    circle: &[StateSet],
) -> Result<(), AllocError>
    requires { 1 ≤ count }
    ensures { OnOk result (lists_in lists.new.items
        ≡ with_all same_sets (lists_in lists.old.items) (maps.turns count circle.now)) }
{
    for turn in 0..count {
        let places = turn * (circle.len() / count);
        add_other(lists, joined(alloc, &circle[places..], &circle[..places])?)?;
    }
    Ok(())
}

// Adds the list to few, unless it is there.
fn add_other(lists: &mut Circles, list: Vec<StateSet>) -> Result<(), AllocError>
    ensures { OnOk result (lists_in lists.new.items
        ≡ with_one same_sets (lists_in lists.old.items) list.items) }
{
    if lists.contains(&list) {
        return Ok(());
    }
    lists.push(list)?;
    Ok(())
}

// Adds the list to any number, unless it is there.
fn add_new(lists: &mut IndexSet<Vec<StateSet>>, list: Vec<StateSet>) -> Result<(), AllocError>
    ensures { OnOk result (lists_in lists.new.keys
        ≡ with_one same_sets (lists_in lists.old.keys) list.items) }
{
    lists.insert(list)?;
    Ok(())
}

// The circle the other way round, from the same first place.
fn mirrored(alloc: Global, circle: &[StateSet]) -> Result<Vec<StateSet>, AllocError>
    ensures { IfOk result (λ image. image.items ≡ maps.mirrored circle.now) }
{
    let mut image = circle.to_vec(alloc)?;
    if let [_, others @ ..] = image.as_mut_slice() {
        others.reverse();
    }
    Ok(image)
}

// All orders of the circle, each once.
fn all_orders(alloc: Global, circle: &[StateSet]) -> Result<Circles, AllocError>
    ensures { IfOk result (λ lists. lists_in lists.items
        ≡ distinct same_sets (maps.permutations circle.now)) }
{
    orders(alloc, circle)?
        .into_lists()
        .into_iter()
        .collect(alloc)
}

// The same, as they are found.
fn orders(alloc: Global, circle: &[StateSet]) -> Result<DistinctLists, AllocError>
    ensures { IfOk result (λ orders. lists_in orders.lists.keys
        ≡ distinct same_sets (maps.permutations circle.now)) }
{
    match circle.split_first() {
        None => {
            let mut orders = DistinctLists {
                lists: IndexSet::new(alloc),
            };
            orders.lists.insert(Vec::new(alloc))?;
            Ok(orders)
        }
        Some((first, others)) => {
            let shorter = orders(alloc, others)?;
            longer_orders(alloc, *first, &shorter)
        }
    }
}

// The orders with one more set, put in at each place, each once.
fn longer_orders(
    alloc: Global,
    set: StateSet,
    orders: &DistinctLists,
) -> Result<DistinctLists, AllocError>
    ensures { IfOk result (λ longer. lists_in longer.lists.keys
        ≡ distinct same_sets (flat_map (maps.insertions set) (lists_in orders.now.lists.keys))) }
{
    let mut longer = DistinctLists {
        lists: IndexSet::new(alloc),
    };
    for list in orders.lists.as_slice() {
        add_insertions(alloc, &mut longer.lists, set, list)?;
    }
    Ok(longer)
}

// Adds the list with one more set, put in at each place, where that isn't there yet.
fn add_insertions(
    alloc: Global,
    lists: &mut IndexSet<Vec<StateSet>>,
    set: StateSet,
    list: &[StateSet],
) -> Result<(), AllocError>
    ensures { OnOk result (lists_in lists.new.keys
        ≡ with_all same_sets (lists_in lists.old.keys) (maps.insertions set list.now)) }
{
    for place in 0..list.len() + 1 {
        add_new(lists, inserted(alloc, set, list, place)?)?;
    }
    Ok(())
}

// The list with one more set, put in at this place.
fn inserted(
    alloc: Global,
    set: StateSet,
    list: &[StateSet],
    place: usize,
) -> Result<Vec<StateSet>, AllocError>
    requires { place ≤ length list.now }
    ensures { IfOk result (λ longer.
        longer.items ≡ take place list.now ++ set ∷ drop place list.now) }
{
    let mut longer = list.to_vec(alloc)?;
    longer.insert(place, set)?;
    Ok(longer)
}

/// One list and then the other.
pub fn joined(
    alloc: Global,
    front: &[StateSet],
    back: &[StateSet],
) -> Result<Vec<StateSet>, AllocError>
    ensures { IfOk result (λ list. list.items ≡ front.now ++ back.now) }
{
    let mut list = Vec::with_capacity(alloc, front.len().saturating_add(back.len()))?;
    list.extend_from_slice(front)?;
    list.extend_from_slice(back)?;
    Ok(list)
}
