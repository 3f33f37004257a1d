//! Equal trees under another allocator.
ghost use Rattle.std.specs.Prelude.{◌≡◌, IfOk};
ghost use Rattle.square_tree.specs.Quadtree.{quadtree, quadtree_of_four};

use crate::tree::{Four, PatchTree};
use std::alloc::{AllocError, Allocator};

impl<A: Allocator> PatchTree<A> {
    // The tree that says the same, with the memory of `alloc`.
    #[cycle(copy)]
    pub(crate) fn copy_to<B: Allocator + Clone>(
        &self,
        alloc: &B,
    ) -> Result<PatchTree<B>, AllocError>
        ensures { IfOk result (λ tree. quadtree tree ≡ quadtree self.now) }
    {
        match self {
            PatchTree::Keep => Ok(PatchTree::Keep),
            PatchTree::Cell(state) => Ok(PatchTree::Cell(*state)),
            PatchTree::Quad(four) => {
                let four = four.copy_to(alloc)?;
                Ok(PatchTree::Quad(Box::new(alloc.clone()?, four)?))
            }
        }
    }
}

impl<A: Allocator> Four<A> {
    // The quadrants that say the same.
    #[cycle(copy)]
    fn copy_to<B: Allocator + Clone>(&self, alloc: &B) -> Result<Four<B>, AllocError>
        ensures { IfOk result (λ four. quadtree_of_four four ≡ quadtree_of_four self.now) }
    {
        Ok(Four {
            nw: self.nw.copy_to(alloc)?,
            ne: self.ne.copy_to(alloc)?,
            sw: self.sw.copy_to(alloc)?,
            se: self.se.copy_to(alloc)?,
        })
    }
}
