//! Laws of the definitions, each the contract of a function that does nothing.
ghost use Rattle.rule_tree.specs.Laws.{EqualRulesAreAlike, RulesAreWhatIsSaid, RulesOfFilesArePlain};
ghost use Rattle.rule_tree.specs.Laws.{WrittenTablesAreRules, WrittenTreesAreRules};

/// The next state under the rule that a file means is that of its table or tree.
pub fn rules_of_files_are_plain()
    ensures { RulesOfFilesArePlain }
{}

/// Equal rules, names aside, have the same states and give the same next state of every cell.
pub fn equal_rules_are_alike()
    ensures { EqualRulesAreAlike }
{}

/// Texts that say the same mean the same rule, whichever of their lines say it: where blank lines
/// and comments stand doesn't matter.
pub fn rules_are_what_is_said()
    ensures { RulesAreWhatIsSaid }
{}

/// The text that is written for a name and a table means the rule of this name and this table.
pub fn written_tables_are_rules()
    ensures { WrittenTablesAreRules }
{}

/// The text that is written for a name and a tree means the rule of this name and this tree.
pub fn written_trees_are_rules()
    ensures { WrittenTreesAreRules }
{}
