//! Where a byte stands.
ghost use Rattle.std.specs.Prelude.{◌≡◌, ◌==◌, position};

/// The place of the first byte that equals this one, counted from 0.
pub fn find_byte(bytes: &[u8], byte: u8) -> Option<usize>
    ensures { result ≡ position (λ b. b == byte) bytes.now }
{
    bytes.iter().position(|b| *b == byte)
}
