//! Words that commands share.
ghost use Rattle.std.specs.Prelude.{◌≡◌, Some};
ghost use Rattle.script_lines.specs.Words.{words};
ghost use Rattle.desk_script.specs.View.{alone};
ghost use Rattle.desk_script.specs.Command.{count_of, one_count};

use script_lines::{next_word, unsigned};

/// What no word follows.
pub(crate) fn alone<T: Drop>(named: T, rest: &[u8]) -> Option<T>
    ensures { result ≡ alone (Some named) (words rest.now) }
{
    if next_word(rest).is_none() {
        Some(named)
    } else {
        None
    }
}

/// An id or a generation.
pub(crate) fn count(word: &[u8]) -> Option<u64>
    ensures { result ≡ count_of word.now }
{
    unsigned(word, u64::MAX)
}

/// One such number, and no other word.
pub(crate) fn one_count(bytes: &[u8]) -> Option<u64>
    ensures { result ≡ one_count (words bytes.now) }
{
    let (word, rest) = next_word(bytes)?;
    alone(count(word)?, rest)
}
