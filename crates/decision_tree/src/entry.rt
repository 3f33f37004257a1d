//! The entries of a tree's nodes.
ghost use Rattle.std.specs.Prelude.{◌≡◌, ◌<◌, ◌++◌, All, OnOk};
ghost use Rattle.decision_tree.specs.Entry.{entry_range};

use std::alloc::AllocError;
use std::fmt;
use std::hash::{Hash, Hasher};
use std::marker::Model;

/// The number of a node, or a state. Contracts see the number, which is below 2^24.
///
/// A tree may have four million nodes with 256 entries each, so an entry takes three bytes and no more,
/// of which the lowest is the first.
#[derive(Clone, Copy)]
pub struct Entry {
    low: u8,
    middle: u8,
    high: u8,
}

impl Model for Entry {
    ghost use Rattle.std.specs.Prelude.{ℕ};

    ghost Value = { ℕ };

    ghost use Rattle.decision_tree.specs.Entry.{AreBytes, bytes_of, number_in, same_bytes};

    ghost view = { number_in };

    ghost invariant = { AreBytes };

    ghost inverse = { bytes_of };

    ghost inverse_ok = { same_bytes };
}

impl Entry {
    /// The entry of this number.
    #[inline]
    pub fn of(number: u32) -> Entry
        requires { number < entry_range }
        ensures { result ≡ number }
    {
        Entry {
            low: (number % 256) as u8,
            middle: (number / 256 % 256) as u8,
            high: (number / 65_536) as u8,
        }
    }

    /// The number.
    #[inline]
    pub fn number(self) -> u32
        ensures number { result ≡ self }
        ensures range { result < entry_range }
    {
        u32::from(self.low) + 256 * u32::from(self.middle) + 65_536 * u32::from(self.high)
    }
}

/// Puts the entries of these numbers behind others.
pub fn add_entries(entries: &mut Vec<Entry>, numbers: &[u32]) -> Result<(), AllocError>
    requires { All (λ n. n < entry_range) numbers.now }
    ensures { OnOk result (entries.new.items ≡ entries.old.items ++ numbers.now) }
{
    for number in numbers {
        entries.push(Entry::of(*number))?;
    }
    Ok(())
}

impl PartialEq for Entry {
    ghost use Rattle.std.specs.Prelude.{nat_eq};
    ghost use Rattle.std.specs.Cmp.{nat_eq_equiv, partial_equiv_from_equiv};

    ghost eq = { nat_eq };

    ghost laws = { partial_equiv_from_equiv nat_eq_equiv };

    fn eq(&self, other: &Entry) -> bool {
        self.number() == other.number()
    }
}

impl Eq for Entry {
    ghost use Rattle.std.specs.Cmp.{nat_eq_equiv};

    ghost laws = { nat_eq_equiv };
}

impl Hash for Entry {
    ghost use Rattle.std.specs.Hash as fed;
    ghost use Rattle.decision_tree.specs.EntryHashes.{same_input};

    ghost hash_input = { fed.u32 };

    ghost respects_eq = { same_input };

    fn hash<H: Hasher>(&self, state: &mut H) {
        state.write_u32(self.number());
    }
}

impl fmt::Debug for Entry {
    fn fmt<W: fmt::Write>(&self, f: &mut fmt::Formatter<W>) -> fmt::Result {
        fmt::Debug::fmt(&self.number(), f)
    }
}
