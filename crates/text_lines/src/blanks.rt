//! Blanks, and what lies between them.
ghost use Rattle.std.specs.Prelude.{◌≡◌};
ghost use Rattle.text_lines.specs.Blanks.{is_blank, trim, trim_end, trim_start};

/// Whether the byte is a blank, a space or a tab.
pub fn is_blank(byte: u8) -> bool
    ensures { result ≡ is_blank byte }
{
    byte == b' ' || byte == b'\t'
}

/// The bytes from the first that is no blank.
pub fn trim_start(bytes: &[u8]) -> &[u8]
    ensures { result.now ≡ trim_start bytes.now }
{
    let mut left = bytes;
    while let [first, rest @ ..] = left {
        if !is_blank(*first) {
            break;
        }
        left = rest;
    }
    left
}

/// The bytes up to the last that is no blank.
#[tactic(auto, using(crate::proofs::Shared::Trims::trim_end_at))]
pub fn trim_end(bytes: &[u8]) -> &[u8]
    ensures { result.now ≡ trim_end bytes.now }
{
    let mut left = bytes;
    while let [rest @ .., last] = left {
        if !is_blank(*last) {
            break;
        }
        left = rest;
    }
    left
}

/// The bytes from the first to the last that is no blank.
pub fn trim(bytes: &[u8]) -> &[u8]
    ensures { result.now ≡ trim bytes.now }
{
    trim_end(trim_start(bytes))
}
