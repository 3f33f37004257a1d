use super::{cleared, lays, live, says_cleared};
use bumpalo::Bump;

#[test]
fn a_patch_in_memory_says_what_was_set(rt: HostRuntime) {
    let patch = cleared(&rt, rt.alloc());
    says_cleared(&rt, &patch);
    lays(&rt, &mut live(&rt, rt.alloc()), &patch);
}

#[test]
fn a_patch_in_an_arena_says_what_was_set(rt: HostRuntime) {
    let bump = Bump::new(rt.alloc());
    let patch = cleared(&rt, &bump);
    says_cleared(&rt, &patch);
    lays(&rt, &mut live(&rt, &bump), &patch);
}

#[test]
fn a_patch_is_copied_into_an_arena(rt: HostRuntime) {
    let bump = Bump::new(rt.alloc());
    let patch = cleared(&rt, rt.alloc());
    let copy = patch.copy_to(&bump).expect(&rt, "memory");
    says_cleared(&rt, &copy);
    lays(&rt, &mut live(&rt, rt.alloc()), &copy);
}

#[test]
fn a_patch_is_copied_out_of_an_arena(rt: HostRuntime) {
    let bump = Bump::new(rt.alloc());
    let patch = cleared(&rt, &bump);
    let copy = patch.copy_to(rt.alloc()).expect(&rt, "memory");
    says_cleared(&rt, &copy);
    lays(&rt, &mut live(&rt, &bump), &copy);
}
