//! Rules as files have them.
ghost use Rattle.std.specs.Prelude.{◌≡◌, ◌↔◌, ◌<◌, All, Err, IfOk, IsOk, IsTrue};
ghost use Rattle.std.specs.Option.{option_map};
ghost use Rattle.rule_file.specs.Results.{Gives};
ghost use Rattle.rule_file.specs.RuleFile.{file_of};
ghost use Rattle.rule_tree.specs.Rule.{AreAlike, AreEqual, IsAsked, is_sound, kind_of, name_of, next_of, plain_next, rule_of, states_of, still};

use crate::asked_table::AskedTable;
use basics::Listing;
use decision_tree::{TreeRule, read_tree};
use plane_core::{Around, Next};
use rule_file::{RuleFault, RuleText, SectionKind, cut};
use std::alloc::{AllocError, Global};
use std::marker::Model;
use table_symmetry::{SoundTable, read_expanded};

/// What says what a rule does.
#[derive(Debug, Drop)]
pub enum Kind {
    Table(AskedTable),
    Tree(TreeRule),
}

impl Kind {
    // Whether the other is of the same kind with equal parts.
    fn equals(&self, other: &Kind) -> bool
        ensures { IsTrue result ↔ (self.now ≡ other.now) }
    {
        match (self, other) {
            (Kind::Table(table), Kind::Table(other)) => table.table().equals(other.table()),
            (Kind::Tree(tree), Kind::Tree(other)) => tree.equals(other),
            _ => false,
        }
    }
}

/// A rule of a cellular automaton: a table or a tree with a name.
///
/// A table is translated to a tree where that has at most 1,000,000 nodes, and then the tree is
/// asked for the next states.
#[derive(Debug)]
pub struct Rule {
    name: Listing<u8>,
    kind: Kind,
}

// Written out, as a derived one is proved again in each crate above.
impl Drop for Rule {
    fn drop(self) {
        let Rule { name: _, kind: _ } = self;
    }
}

impl Model for Rule {
    ghost use Rattle.rule_tree.specs.NamedRule.{NamedRule};

    ghost Value = { NamedRule };

    ghost use Rattle.std.specs.Prelude.{IsTrue};
    ghost use Rattle.rule_tree.specs.Rule.{is_sound};

    ghost view = { λ rule. record { name = rule.name; kind = rule.kind } };

    ghost invariant = { λ rule. IsTrue (is_sound rule.kind) };
}

impl Rule {
    /// Reads a `.rule` file: its first line that isn't blank names the rule, and its first table
    /// or tree says what the rule does.
    ///
    /// A file that means no rule is refused by the one fault that it has. NoMemory comes only
    /// where memory ran out, and never where the file has no name or neither a table nor a tree.
    pub fn read(alloc: Global, text: &[u8]) -> Result<Rule, RuleFault>
        ensures rule { Gives result (rule_of text.now) }
        ensures plain { IfOk result (λ rule. next_of rule ≡ plain_next rule.kind) }
        ensures no_memory { result ≡ Err RuleFault.NoMemory → IsOk (file_of text.now) }
    {
        let file = cut(alloc, text)?;
        let kind = read_kind(alloc, &file)?;
        let name = Listing::from_vec(file.name().to_vec(alloc)?);
        Ok(Rule { name, kind })
    }

    /// The rule named `still`, of two states, under which each cell keeps its own.
    pub fn still(alloc: Global) -> Result<Rule, AllocError>
        ensures { IfOk result (λ rule. rule ≡ still) }
    {
        let name = Listing::from_vec(b"still".to_vec(alloc)?);
        let table = SoundTable::still(alloc);
        let rows = table.expand()?;
        let kind = Kind::Table(AskedTable::new(alloc, table, rows)?);
        Ok(Rule { name, kind })
    }

    /// The rule's name, of bytes from 33 to 126 without the colon.
    pub fn name(&self) -> &[u8]
        ensures { result.now ≡ name_of self.now }
    {
        self.name.as_slice()
    }

    /// Whether the other rule is the same but for its name: both are tables with equal parts, or
    /// both are trees with equal parts. Takes no memory.
    ///
    /// Equal rules have the same states, and give the same next state of every cell.
    pub fn equals(&self, other: &Rule) -> bool
        ensures same { IsTrue result ↔ AreEqual self.now other.now }
        ensures alike { IsTrue result → AreAlike self.now other.now }
    {
        self.kind.equals(&other.kind)
    }

    /// The tree that is asked for the next states: the rule's own, or the translation of its table.
    /// None where each tree that does what the table does has more than 1,000,000 nodes.
    pub fn tree(&self) -> Option<&TreeRule>
        ensures { IsAsked self.now.kind (option_map (λ tree. tree.now) result) }
    {
        match &self.kind {
            Kind::Table(table) => table.tree(),
            Kind::Tree(tree) => Some(tree),
        }
    }
}

// The table or the tree that a section says.
fn read_kind(alloc: Global, file: &RuleText) -> Result<Kind, RuleFault>
    ensures kind { Gives result (kind_of file.now.section) }
    ensures sound { IfOk result (λ kind. IsTrue (is_sound kind)) }
{
    match file.kind() {
        SectionKind::Table => {
            let (table, rows) = read_expanded(alloc, file)?;
            Ok(Kind::Table(AskedTable::new(alloc, table, rows)?))
        }
        SectionKind::Tree => Ok(Kind::Tree(read_tree(alloc, file)?)),
    }
}

impl Next for Rule {
    ghost use Rattle.rule_tree.specs.Rule.{states_of, next_of};
    ghost use Rattle.rule_tree.specs.RuleLaws.{next_of-quiet, next_of-below};

    ghost state_count = { states_of };

    ghost meaning = { next_of };

    ghost quiet = { next_of-quiet };

    ghost below = { next_of-below };

    fn states(&self) -> u16 {
        match &self.kind {
            Kind::Table(table) => table.table().states(),
            Kind::Tree(tree) => tree.states(),
        }
    }

    fn next(&self, around: &Around) -> u8
        requires { All (λ s. s < states_of self.now) around.now.0 }
        ensures value { result ≡ next_of self.now around.now.0 }
        ensures plain { result ≡ plain_next self.now.kind around.now.0 }
    {
        match &self.kind {
            Kind::Table(table) => table.next(around),
            Kind::Tree(tree) => tree.next(around),
        }
    }
}
