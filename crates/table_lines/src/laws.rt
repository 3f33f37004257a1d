//! Laws of the definitions, each the contract of a function that does nothing.
ghost use Rattle.table_lines.specs.LineLaws.{DescriptorsInAnyOrder, NumbersDoNotMatter, TablesOfLinesAreRead, TablesOfLinesAreWritten, WrittenIsItsFile, WrittenTablesAreRead};

/// Lines that say a table say it under other numbers too: blank lines and comments between them
/// change nothing.
pub fn numbers_do_not_matter()
    ensures { NumbersDoNotMatter }
{}

/// Two descriptors, one after the other, may stand in the other order, and so all three in any.
#[tactic(auto, using(crate::proofs::Reordered::descriptors_swapped))]
pub fn descriptors_stand_in_any_order()
    ensures { DescriptorsInAnyOrder }
{}

/// A table that lines say has from 2 to 256 states, and its transitions name no others and have an
/// input for the cell and each neighbour.
pub fn tables_of_lines_are_read()
    ensures { TablesOfLinesAreRead }
{}

/// The lines that are written for a table say this table again.
pub fn written_tables_are_read()
    ensures { WrittenTablesAreRead }
{}

/// A table that lines say is one for which lines are written.
pub fn tables_of_lines_are_written()
    ensures { TablesOfLinesAreWritten }
{}

/// The text that is written for a name and a table is the rule file of this name and this table.
pub fn written_is_its_file()
    ensures { WrittenIsItsFile }
{}
