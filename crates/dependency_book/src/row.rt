//! Rows: what is known, or under way, of what stands at keys.
ghost use Rattle.std.specs.Prelude.{◌≡◌, ℕ, IfSome, MatchOption, None, Some, is_some};
ghost use Rattle.revision_jobs.specs.Entries.{IsOf};
ghost use Rattle.dependency_book.specs.RowState.{OutsAreOf, any_out, is_empty, is_known};
ghost use Rattle.dependency_book.specs.RowState.{job_of, known};
ghost use Rattle.dependency_book.specs.RowState.{least_out, lesser, number_of, row_for};
ghost use Rattle.dependency_book.specs.Rows.{IsRanked, put};

use ranked_rows::{Ranked, find};
use revision_jobs::{Entries, Job, Place};

/// What stands in a row.
pub(crate) enum RowState<V> {
    /// Nothing is known, and no job is out.
    Empty,
    /// A job is out whose answer gives the value.
    Expected(Job),
    /// The value.
    Known(V),
}

// Written out, as a derived one is proved again wherever a row is dropped.
impl<V: Drop> Drop for RowState<V> {
    fn drop(self) {
        match self {
            RowState::Empty => {}
            RowState::Expected(_) => {}
            RowState::Known(_) => {}
        }
    }
}

/// What stands at a key.
pub(crate) struct Row<K, V> {
    pub(crate) key: K,
    pub(crate) state: RowState<V>,
}

// Written out, as a derived one is proved again wherever a row is dropped.
impl<K: Drop, V: Drop> Drop for Row<K, V> {
    fn drop(self) {
        let Row { key: _, state: _ } = self;
    }
}

/// A key of rows, which stand in the order of their keys' ranks.
pub(crate) trait Key {
    ghost rank: { Self → ℕ };

    fn rank(&self) -> u128
        ensures { result ≡ rank self.now };
}

impl<K: Key, V> Ranked for Row<K, V> {
    ghost use Rattle.dependency_book.specs.Rows.{by_key};

    ghost rank = { by_key K.rank };

    fn rank(&self) -> u128 {
        self.key.rank()
    }
}

impl<V> RowState<V> {
    /// The value, if it is known.
    pub(crate) fn known(&self) -> Option<&V>
        ensures { MatchOption result (known self.now ≡ None) (λ v. known self.now ≡ Some v.now) }
    {
        match self {
            RowState::Known(value) => Some(value),
            RowState::Empty | RowState::Expected(_) => None,
        }
    }

    /// Whether the value is known.
    pub(crate) fn is_known(&self) -> bool
        ensures { result ≡ is_known self.now }
    {
        matches!(self, RowState::Known(_))
    }

    /// Whether nothing is known and no job is out.
    pub(crate) fn is_empty(&self) -> bool
        ensures { result ≡ is_empty self.now }
    {
        matches!(self, RowState::Empty)
    }

    /// Whether a job is out.
    pub(crate) fn is_expected(&self) -> bool
        ensures { result ≡ is_some (job_of self.now) }
    {
        matches!(self, RowState::Expected(_))
    }

    /// Asks whoever works the job that is out to stop, if one is.
    pub(crate) fn raise(&self, entries: &Entries)
        requires { IfSome (job_of self.now) (λ job. IsOf entries.now job.place) }
    {
        if let RowState::Expected(job) = self {
            entries.raise(&job.place);
        }
    }

    // The number of the job that is out, if one is.
    fn number_out(&self) -> Option<u32>
        ensures { result ≡ number_of (job_of self.now) }
    {
        match self {
            RowState::Expected(job) => Some(job.number),
            RowState::Empty | RowState::Known(_) => None,
        }
    }
}

/// Puts what stands in the row of a rank, if there is one.
pub(crate) fn put<K: Key, V: Drop>(rows: &mut Vec<Row<K, V>>, rank: u128, state: RowState<V>)
    requires { IsRanked K.rank rows.old.items }
    ensures { rows.new.items ≡ put K.rank rank state rows.old.items }
{
    if let Some(place) = find(rows, rank) {
        rows[place].state = state;
    }
}

/// The key of the row that expects the job of this number, with the place of the job's entry.
pub(crate) fn row_for<K: Copy, V>(rows: &[Row<K, V>], number: u32) -> Option<(K, &Place)>
    ensures { MatchOption result
        (row_for number rows.now ≡ None)
        (λ row. row_for number rows.now ≡ Some (row.0, row.1.now)) }
{
    for row in rows {
        if let RowState::Expected(job) = &row.state {
            if job.number == number {
                return Some((row.key, &job.place));
            }
        }
    }
    None
}

/// Whether a row expects a job.
pub(crate) fn any_out<K, V>(rows: &[Row<K, V>]) -> bool
    ensures { result ≡ any_out rows.now }
{
    rows.iter().any(|row| row.state.is_expected())
}

/// Asks whoever works a job that a row expects to stop.
pub(crate) fn raise_all<K, V>(entries: &Entries, rows: &[Row<K, V>])
    requires { OutsAreOf entries.now rows.now }
{
    for row in rows {
        row.state.raise(entries);
    }
}

/// The lesser of two numbers, if there is any.
pub(crate) fn lesser(a: Option<u32>, b: Option<u32>) -> Option<u32>
    ensures { result ≡ lesser a b }
{
    match (a, b) {
        (Some(a), Some(b)) => Some(a.min(b)),
        (Some(a), None) => Some(a),
        (None, b) => b,
    }
}

/// The least number of the jobs that rows expect.
pub(crate) fn least_out<K, V>(rows: &[Row<K, V>]) -> Option<u32>
    ensures { result ≡ least_out rows.now }
{
    let mut least = None;
    for row in rows {
        least = lesser(least, row.state.number_out());
    }
    least
}
