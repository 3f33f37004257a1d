//! Laws of the definitions, each the contract of a function that does nothing.
ghost use Rattle.table_symmetry.specs.Generators.{PermuteTakesAllOrders, SymmetriesAreGenerated};
ghost use Rattle.table_symmetry.specs.Laws.{TablesOfFilesAreSound, TablesOfFilesAreWritten, WrittenMeansTheSame};

/// The maps of each symmetry that a neighbourhood has, but `permute`, are all compositions of its
/// turns and reflections, of which each is undone by another.
pub fn symmetries_are_generated()
    ensures { SymmetriesAreGenerated }
{}

/// `permute` takes the neighbours in exactly all orders.
#[tactic(auto, using(crate::proofs::Orders::permute_orders))]
pub fn permute_takes_all_orders()
    ensures { PermuteTakesAllOrders }
{}

/// A table that the lines of a section mean is sound: a cell of state 0 among such cells keeps it,
/// and whatever a transition gives is a state. So its next state needs no guard.
#[tactic(auto, using(crate::proofs::Shared::SaidTables::sound_tables))]
pub fn tables_of_files_are_sound()
    ensures { TablesOfFilesAreSound }
{}

/// The lines that are written for a table mean this table again.
pub fn written_means_the_same()
    ensures { WrittenMeansTheSame }
{}

/// For each table that the lines of a section mean lines are written.
#[tactic(auto, using(crate::proofs::Shared::WrittenTables::table_of_written))]
pub fn tables_of_files_are_written()
    ensures { TablesOfFilesAreWritten }
{}
