//! The rule of the channel that brings answers back.

use crossbeam_channel::protocol::{Lesson, Outcome, Protocol, Split};
use revision_jobs::{Entries, Worked};
use std::marker::{Brand, PhantomData};

/// What an end knows of the answers: their table, and how many squares a step may keep. It stands
/// in proofs alone; no value of it is made.
pub(crate) struct Terms {
    pub(crate) table: Entries,
    pub(crate) limit: u32,
}

/// The rule: each answer is of the table and at the limit that all ends know. The type of what is
/// sent keeps that no answer says that its job was stopped where no flag was seen raised.
pub(crate) struct OfTable;

impl Protocol<Worked, Option<Terms>> for OfTable {
    ghost use Rattle.std.specs.Prelude.{None};
    ghost use Rattle.job_pool.specs.Home.{IsHome};

    ghost holds = { IsHome };

    ghost first = { None };
}

/// Picks the terms that the ends of a channel know, when it is made.
pub(crate) trait Naming {
    ghost use Rattle.job_pool.specs.declared.answer_rule.Terms.{Terms};

    ghost terms: { Terms };
}

impl Naming for Brand {
    ghost use Rattle.job_pool.specs.Home.{no_terms};

    ghost terms = { no_terms };
}

/// The first split, at which the terms are named.
pub(crate) struct NamesTerms<K> {
    of: PhantomData<K>,
}

impl<K: Naming> Split<Option<Terms>> for NamesTerms<K> {
    ghost use Rattle.std.specs.Prelude.{Some};

    ghost left = { λ v. Some K.terms };

    ghost right = { λ v. Some K.terms };
}

/// The split that makes another end.
pub(crate) struct MakesEnd;

impl Split<Option<Terms>> for MakesEnd {
    ghost left = { λ v. v };

    ghost right = { λ v. v };
}

/// A send or a receive: the end knows what it knew, and the answer is of its table and limit.
pub(crate) struct Passes;

impl Outcome<Worked, Option<Terms>> for Passes {
    ghost use Rattle.std.specs.Prelude.{◌≡◌};
    ghost use Rattle.job_pool.specs.Home.{IsAnswerOf};

    ghost then = { λ v answer w. (w ≡ v) × IsAnswerOf v answer };
}

impl Lesson<Worked, Option<Terms>> for Passes {
    ghost use Rattle.std.specs.Prelude.{⊤};

    ghost fact = { λ _ _. ⊤ };
}
