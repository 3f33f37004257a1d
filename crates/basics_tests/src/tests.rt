use basics::Listing;
use std::alloc::Global;
use std::fmt::Debug;
use std::process::Abort;

/// Stops the test where what was found isn't what is wanted.
fn same<T: PartialEq + Debug, A: Debug>(rt: &impl Abort, found: &T, wanted: &T, at: &A) {
    assert!(rt; *found == *wanted, "{at:?}: {found:?} is not {wanted:?}");
}

fn expect_kept(rt: &impl Abort, alloc: Global, items: &[u8]) {
    let listing = Listing::from_vec(items.to_vec(alloc).expect(rt, "memory"));
    let copy = listing.copy(alloc).expect(rt, "memory");
    same(rt, &listing.as_slice(), &items, &"shown");
    same(rt, &copy.as_slice(), &items, &"copied");
    same(rt, &listing.into_vec().as_slice(), &items, &"given back");
}

#[test]
fn keeps_its_items_in_order(rt: HostRuntime) {
    expect_kept(&rt, rt.alloc(), &[]);
    expect_kept(&rt, rt.alloc(), &[7]);
    expect_kept(&rt, rt.alloc(), &[3, 1, 2]);
}
