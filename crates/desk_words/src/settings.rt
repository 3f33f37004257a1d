//! What the words choose.
ghost use Rattle.std.specs.Prelude.{◌≡◌};
ghost use Rattle.desk_words.specs.Setting.{name_of, usual_options};

use crate::bounded::Bounded;

/// How many workers compute, from 1 to 8.
pub type Workers = Bounded<1, 8>;

/// How many results of steps a desk may keep, from 1 to 4096.
pub type Facts = Bounded<1, 4096>;

/// How many squares an engine may hold, from 64 to 16777216.
pub type Squares = Bounded<64, 16_777_216>;

/// What the program is started with. Each number is of a type of its own, so that none is taken for
/// another.
#[derive(Clone, Copy, Debug, PartialEq, Eq)]
pub struct Options {
    /// How many workers compute.
    pub workers: Workers,
    /// How many results of steps a desk may keep.
    pub facts: Facts,
    /// How many squares an engine may hold.
    pub squares: Squares,
    /// Whether progress is shown wherever standard error goes.
    pub progress: bool,
}

/// What is chosen where no option is used.
impl Default for Options {
    ghost is_default = { λ options. options ≡ usual_options };

    fn default() -> Options {
        Options {
            workers: Bounded::new(2),
            facts: Bounded::new(64),
            squares: Bounded::new(4_194_304),
            progress: false,
        }
    }
}

/// An option of the command, whose value is a number.
#[derive(Clone, Copy, Debug, PartialEq, Eq)]
pub(crate) enum Setting {
    /// How many workers compute.
    Workers,
    /// How many results of steps a desk may keep.
    Facts,
    /// How many squares an engine may hold.
    Squares,
}

impl Setting {
    /// The name behind the dashes.
    pub(crate) fn name(self) -> &'static str
        ensures { result.now ≡ name_of self }
    {
        match self {
            Setting::Workers => "workers",
            Setting::Facts => "facts",
            Setting::Squares => "squares",
        }
    }

    /// What the help says of it.
    pub(crate) fn help(self) -> &'static str {
        match self {
            Setting::Workers => "How many workers compute, from 1 to 8 [default: 2]",
            Setting::Facts => {
                "How many results of steps a desk may keep, with their patterns, from 1 to 4096 [default: 64]"
            }
            Setting::Squares => {
                "How many squares the engine of a worker may hold, from 64 to 16777216. A square takes about 48 bytes: 4194304 take about 200 MB [default: 4194304]"
            }
        }
    }
}
