//! Lines that were meant to end a text.

// The bytes from the first letter on.
fn from_letter(bytes: &[u8]) -> &[u8] {
    let mut left = bytes;
    while let [first, rest @ ..] = left {
        if first.is_ascii_alphabetic() {
            break;
        }
        left = rest;
    }
    left
}

// The bytes up to the last letter.
fn up_to_letter(bytes: &[u8]) -> &[u8] {
    let mut left = bytes;
    while let [rest @ .., last] = left {
        if last.is_ascii_alphabetic() {
            break;
        }
        left = rest;
    }
    left
}

// Whether these letters stand in the word in this order, with others between them or not.
fn stand_in(word: &[u8], letters: &[u8]) -> bool {
    let mut left = letters;
    for letter in word {
        if let [first, rest @ ..] = left {
            if first == letter {
                left = rest;
            }
        }
    }
    left.is_empty()
}

/// Whether a line looks like a mistyped `end`: with capitals, with other signs around it, or with one
/// letter that lacks, is wrong, stands elsewhere or is too many. A row of a pattern has other letters.
pub(crate) fn is_mistyped_end(line: &[u8]) -> bool {
    let word = up_to_letter(from_letter(line));
    match word.len() {
        2 | 3 => {
            word.eq_ignore_ascii_case(b"end")
                || stand_in(word, b"en")
                || stand_in(word, b"ed")
                || stand_in(word, b"nd")
        }
        4 => stand_in(word, b"end"),
        _ => false,
    }
}
