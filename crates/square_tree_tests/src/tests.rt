mod arenas;
mod edges;

ghost use Rattle.std.specs.Prelude.{◌≡◌};

use square_tree::Patch;
use std::alloc::Allocator;
use std::fmt::Debug;
use std::process::Abort;

// Stops the test where what was found isn't what is wanted.
fn same<T: PartialEq + Debug, A: Debug>(rt: &impl Abort, found: &T, wanted: &T, at: &A) {
    assert!(rt; found == wanted, "{found:?} at {at:?}, wanted {wanted:?}");
}

// A patch of the level 4 after (-3, 5) is set to 0.
fn cleared<A: Allocator + Clone>(rt: &impl Abort, alloc: A) -> Patch<A>
    ensures { result.level ≡ 4 }
{
    let mut patch = Patch::new(alloc, 4);
    patch.set(-3, 5, 0).expect(rt, "memory");
    patch
}

// A patch of the level 4 with (-3, 5)=2 and (0, 0)=1.
fn live<A: Allocator + Clone>(rt: &impl Abort, alloc: A) -> Patch<A>
    ensures { result.level ≡ 4 }
{
    let mut patch = Patch::new(alloc, 4);
    patch.set(-3, 5, 2).expect(rt, "memory");
    patch.set(0, 0, 1).expect(rt, "memory");
    patch
}

// Stops the test where the patch doesn't say that (-3, 5) is 0, and nothing else there.
fn says_cleared<A: Allocator + Clone>(rt: &impl Abort, patch: &Patch<A>)
    requires { patch.now.level ≡ 4 }
{
    same(rt, &patch.get(-3, 5), &Some(0), &(-3, 5));
    same(rt, &patch.get(0, 0), &None, &(0, 0));
    let window = patch.window(-3, 5, 2, 1).expect(rt, "memory");
    same(rt, &window.as_slice(), &[0u8, 0].as_slice(), &"the window");
}

// Lays one patch on the other, and stops the test where its 0 doesn't win.
fn lays<A: Allocator + Clone, B: Allocator>(rt: &impl Abort, patch: &mut Patch<A>, other: &Patch<B>)
    requires levels { patch.old.level ≡ 4 }
    requires other { other.now.level ≡ 4 }
{
    patch.lay(other).expect(rt, "memory");
    same(rt, &patch.get(-3, 5), &Some(0), &(-3, 5));
    same(rt, &patch.get(0, 0), &Some(1), &(0, 0));
}
