//! The transitions of a table, as its lines say them.
ghost use Rattle.std.specs.Prelude.{◌≡◌};
ghost use Rattle.std.specs.List.{list_any};
ghost use Rattle.table_lines.specs.Transitions.{is_variable};

use crate::state_set::StateSet;
use basics::Listing;

/// A variable: the number of its definition among those of the table, by which it is told from
/// others, and the states that it stands for.
#[derive(Clone, Copy, Debug, PartialEq, Eq)]
pub struct Variable {
    pub number: u64,
    pub states: StateSet,
}

impl Variable {
    /// Whether the entry is this variable.
    pub fn stands_at(&self, entry: &Entry) -> bool
        ensures { result ≡ is_variable self.now entry.now }
    {
        match entry {
            Entry::State(_) => false,
            Entry::OneOf(other) => self.number == other.number,
        }
    }

    /// Whether one of the entries is this variable.
    pub fn stands_among(&self, entries: &[Entry]) -> bool
        ensures { result ≡ list_any (is_variable self.now) entries.now }
    {
        entries.iter().any(|entry| self.stands_at(entry))
    }
}

/// What stands at one place of a transition: a state, or a variable.
#[derive(Clone, Copy, Debug, PartialEq, Eq)]
pub enum Entry {
    State(u8),
    OneOf(Variable),
}

/// A transition: what the cell and its neighbours are to be, and what the cell becomes then.
#[derive(Debug, Drop)]
pub struct Transition {
    pub inputs: Listing<Entry>,
    pub result: Entry,
}

impl PartialEq for Transition {
    ghost use Rattle.table_lines.specs.Equality.{partial_laws, same_transition};

    ghost eq = { same_transition };

    ghost laws = { partial_laws };

    fn eq(&self, other: &Transition) -> bool {
        self.inputs.as_slice() == other.inputs.as_slice() && self.result == other.result
    }
}

impl Eq for Transition {
    ghost use Rattle.table_lines.specs.Equality.{laws};

    ghost laws = { laws };
}
