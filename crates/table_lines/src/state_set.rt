//! Sets of states.
ghost use Rattle.std.specs.Prelude.{◌≡◌, ◌∷◌, [], ◌==◌, ◌||◌, ◌<◌, IfOk};
ghost use Rattle.table_lines.specs.States.{has, rising, same_set, word_of};

use std::alloc::{AllocError, Global};
use std::hash::{Hash, Hasher};
use std::marker::Model;

/// A set of states, a bit each, 64 in a word. Contracts see the list of its states, rising.
#[derive(Clone, Copy, Debug)]
pub struct StateSet {
    words: [u64; 4],
}

impl Model for StateSet {
    ghost use Rattle.std.specs.Prelude.{List, ℕ};
    ghost use Rattle.table_lines.specs.States.{AreWords, is_bit_set, rising, words_of};
    ghost use Rattle.table_lines.specs.StateWords.{same_words};

    ghost Value = { List ℕ };

    ghost view = { λ set. rising (is_bit_set set.words) };

    ghost invariant = { λ set. AreWords set.words };

    ghost inverse = { λ states. record { words = words_of states } };

    ghost inverse_ok = { λ set h. same_words set h };
}

impl StateSet {
    /// The set without states.
    pub fn empty() -> StateSet
        ensures { result ≡ [] }
    {
        StateSet { words: [0; 4] }
    }

    /// The set of one state.
    pub fn of(state: u8) -> StateSet
        ensures { result ≡ state ∷ [] }
    {
        let mut set = StateSet::empty();
        set.insert(state);
        set
    }

    /// Whether the state is in the set.
    pub fn has(&self, state: u8) -> bool
        ensures { result ≡ has self.now state }
    {
        (self.words[usize::from(state / 64)] >> (state % 64)) & 1 == 1
    }

    /// Puts one more state into the set.
    pub fn insert(&mut self, state: u8)
        ensures { self.new ≡ rising (λ s. (s == state) || has self.old s) }
    {
        self.words[usize::from(state / 64)] |= 1 << (state % 64);
    }

    /// Puts the states of another set into this one.
    pub fn unite(&mut self, other: StateSet)
        ensures { self.new ≡ rising (λ s. has self.old s || has other s) }
    {
        let [a, b, c, d] = self.words;
        let [e, f, g, h] = other.words;
        self.words = [a | e, b | f, c | g, d | h];
    }

    /// Whether the other set has the same states.
    pub fn equals(&self, other: &StateSet) -> bool
        ensures { result ≡ same_set self.now other.now }
    {
        self.words == other.words
    }

    /// The states, rising. Fails if memory runs out.
    pub fn to_vec(&self, alloc: Global) -> Result<Vec<u8>, AllocError>
        ensures { IfOk result (λ states. states.items ≡ self.now) }
    {
        // A field is read so that the proof knows what holds of the words.
        let _ = &self.words;
        let mut states = Vec::new(alloc);
        for state in 0..256_u16 {
            if self.has(state as u8) {
                states.push(state as u8)?;
            }
        }
        Ok(states)
    }

    /// The bits of 64 states, the first in the lowest bit: the word of this number, from 0 to 3.
    pub fn word(&self, number: usize) -> u64
        requires { number < 4 }
        ensures { result ≡ word_of self.now number }
    {
        self.words[number]
    }
}

impl PartialEq for StateSet {
    ghost use Rattle.std.specs.Cmp.{partial_equiv_from_equiv};
    ghost use Rattle.std.specs.Cmp.Lexicographic.{nat_list_eq_equiv};
    ghost use Rattle.table_lines.specs.States.{same_set};

    ghost eq = { same_set };

    ghost laws = { partial_equiv_from_equiv nat_list_eq_equiv };

    fn eq(&self, other: &StateSet) -> bool {
        self.equals(other)
    }
}

impl Eq for StateSet {
    ghost use Rattle.std.specs.Cmp.Lexicographic.{nat_list_eq_equiv};

    ghost laws = { nat_list_eq_equiv };
}

impl Hash for StateSet {
    ghost use Rattle.table_lines.specs.StateHashes.{hash_input_of, same_input};

    ghost hash_input = { hash_input_of };

    ghost respects_eq = { same_input };

    fn hash<H: Hasher>(&self, state: &mut H) {
        state.write_u64(self.word(0));
        state.write_u64(self.word(1));
        state.write_u64(self.word(2));
        state.write_u64(self.word(3));
    }
}
