//! When interventions act.
ghost use Rattle.std.specs.Prelude.{◌≡◌, ◌-◌, ◌^◌, ◌%◌, ◌==◌, min};
ghost use Rattle.schedule.specs.Acts.{first_of, last_of, acts_on, marks_to, repeats, count_between};

/// When an intervention acts: once, or from a first generation on at each that is a multiple of
/// `every` above it, up to a last one.
#[derive(Clone, Copy, Debug, PartialEq, Eq)]
pub enum Acts {
    Once { generation: u64 },
    Every { first: u64, every: u64, last: u64 },
}

impl Acts {
    /// Once, at this generation.
    pub fn once(generation: u64) -> Acts
        ensures { result ≡ Acts.Once generation }
    {
        Acts::Once { generation }
    }

    /// At `first + i * every` for each i from 0, up to `last`.
    pub fn every(first: u64, every: u64, last: u64) -> Acts
        ensures { result ≡ Acts.Every first every last }
    {
        Acts::Every { first, every, last }
    }

    /// The first generation at which it acts.
    pub fn first(&self) -> u64
        ensures { result ≡ first_of self.now }
    {
        match *self {
            Acts::Once { generation } => generation,
            Acts::Every { first, .. } => first,
        }
    }

    /// A generation beyond which it doesn't act.
    pub fn last(&self) -> u64
        ensures { result ≡ last_of self.now }
    {
        match *self {
            Acts::Once { generation } => generation,
            Acts::Every { last, .. } => last,
        }
    }

    /// Whether it repeats.
    pub fn repeats(&self) -> bool
        ensures { result ≡ repeats self.now }
    {
        match self {
            Acts::Once { .. } => false,
            Acts::Every { .. } => true,
        }
    }

    /// Whether it acts at this generation.
    pub fn acts_at(&self, generation: u64) -> bool
        ensures { result ≡ acts_on self.now generation }
    {
        match *self {
            Acts::Once { generation: own } => own == generation,
            Acts::Every { first, every, last } => {
                first <= generation && generation <= last && is_multiple(generation - first, every)
            }
        }
    }

    /// At how many generations up to `far` it acts, if it repeats: these are
    /// `first + i * every` for each i below that number. 0 if it acts once, and u64::MAX where
    /// there are more.
    pub fn marks_to(&self, far: u64) -> u64
        ensures { result ≡ min (marks_to far self.now) (2 ^ 64 - 1) }
    {
        match *self {
            Acts::Once { .. } => 0,
            Acts::Every { first, every, last } => marks_between(first, every, far.min(last)),
        }
    }
}

// Whether a number is a multiple of `every`.
fn is_multiple(number: u64, every: u64) -> bool
    ensures { result ≡ (number % every == 0) }
{
    number.is_multiple_of(every)
}

// How many numbers from `first` up to `most` are a multiple of `every` above `first`; u64::MAX
// where there are more.
fn marks_between(first: u64, every: u64, most: u64) -> u64
    ensures { result ≡ min (count_between first every most) (2 ^ 64 - 1) }
{
    if most < first {
        return 0;
    }
    match (most - first).checked_div(every) {
        Some(times) => times.saturating_add(1),
        None => 1,
    }
}
