//! Laws of the definitions, each the contract of a function that does nothing.
ghost use Rattle.decision_tree.specs.Laws.{DescriptorsInAnyOrder, NumbersDoNotMatter, TreesOfFilesAreSound};
ghost use Rattle.decision_tree.specs.Laws.{WrittenIsItsFile, WrittenMeansTheSame};

/// A tree that a file says keeps a cell of state 0 among such cells, and gives states alone.
#[tactic(auto, using(crate::proofs::Shared::SaidNodes::sound_sections))]
pub fn trees_of_files_are_sound()
    ensures { TreesOfFilesAreSound }
{}

/// Lines that say a tree say it under other numbers too: blank lines and comments between them
/// change nothing.
#[tactic(auto, using(crate::proofs::Shared::Renumbered::renumbered))]
pub fn numbers_do_not_matter()
    ensures { NumbersDoNotMatter }
{}

/// Two descriptors, one after the other, may stand in the other order, and so all three in any.
#[tactic(auto, using(crate::proofs::Reordered::descriptors_swapped))]
pub fn descriptors_stand_in_any_order()
    ensures { DescriptorsInAnyOrder }
{}

/// The lines that are written for a tree mean this tree again.
pub fn written_means_the_same()
    ensures { WrittenMeansTheSame }
{}

/// The text that is written for a name and a tree is the rule file of this name and this tree.
#[tactic(auto, using(crate::proofs::Shared::WrittenFiles::written_files))]
pub fn written_is_its_file()
    ensures { WrittenIsItsFile }
{}
