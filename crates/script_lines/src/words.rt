//! The words of a line.
ghost use Rattle.std.specs.Prelude.{◌≡◌, ◌∷◌, [], ◌<◌, ◌≤◌, length, take, drop, true, MatchOption};
ghost use Rattle.script_lines.specs.Words.{words, starts_in_word, FirstWord};

/// The first word and the bytes behind it, or None where there is no word. Words are separated by
/// spaces alone.
pub fn next_word(bytes: &[u8]) -> Option<(&[u8], &[u8])>
    ensures { MatchOption result (words bytes.now ≡ [])
        (λ pair. FirstWord bytes.now pair.0.now pair.1.now) }
{
    let bytes = skip_spaces(bytes);
    if bytes.is_empty() {
        return None;
    }
    Some(bytes.split_at(word_len(bytes)))
}

// The bytes from the first that is no space.
fn skip_spaces(bytes: &[u8]) -> &[u8]
    ensures same { words result.now ≡ words bytes.now }
    ensures starts { 0 < length result.now → starts_in_word result.now ≡ true }
    ensures shorter { length result.now ≤ length bytes.now }
{
    let mut left = bytes;
    while let [b' ', rest @ ..] = left {
        left = rest;
    }
    left
}

// How many bytes stand before the first space, or how many there are if there is none.
fn word_len(bytes: &[u8]) -> usize
    requires { starts_in_word bytes.now ≡ true }
    ensures some { 0 < result }
    ensures within { result ≤ length bytes.now }
    ensures split { words bytes.now ≡ take result bytes.now ∷ words (drop result bytes.now) }
{
    for (i, byte) in bytes.iter().enumerate() {
        if *byte == b' ' {
            return i;
        }
    }
    bytes.len()
}
