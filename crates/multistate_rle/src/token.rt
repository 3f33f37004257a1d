//! The tokens of a body.
ghost use Rattle.std.specs.Prelude.{◌≡◌, ◌++◌, ◌<◌, OnOk};
ghost use Rattle.multistate_rle.specs.Token.{token_text, count_text, state_text, multi_state_text, prefix_text};

use crate::numbers::push_number;
use std::alloc::AllocError;

/// What a body is made of.
#[derive(Clone, Copy, Debug, PartialEq, Eq)]
pub(crate) enum Token {
    /// So many cells of a state, side by side.
    Run { count: u64, state: u8 },
    /// The ends of so many rows.
    RowEnds { count: u64 },
    /// The end of the pattern.
    End,
}

/// Adds the token's text under a rule of so many states.
pub(crate) fn push_token(text: &mut Vec<u8>, token: Token, states: u16) -> Result<(), AllocError>
    ensures { OnOk result (text.new.items ≡ text.old.items ++ token_text states token) }
{
    match token {
        Token::Run { count, state } => {
            push_count(text, count)?;
            push_state(text, state, states)
        }
        Token::RowEnds { count } => {
            push_count(text, count)?;
            text.extend_from_slice(b"$")
        }
        Token::End => text.extend_from_slice(b"!"),
    }
}

// Adds the count, unless it is 1.
fn push_count(text: &mut Vec<u8>, count: u64) -> Result<(), AllocError>
    ensures { OnOk result (text.new.items ≡ text.old.items ++ count_text count) }
{
    if count == 1 {
        return Ok(());
    }
    push_number(text, count)
}

// Adds the letters of a state under a rule of so many states.
fn push_state(text: &mut Vec<u8>, state: u8, states: u16) -> Result<(), AllocError>
    ensures { OnOk result (text.new.items ≡ text.old.items ++ state_text states state) }
{
    if states != 2 {
        return push_multi_state(text, state);
    }
    if state == 0 {
        return text.extend_from_slice(b"b");
    }
    text.extend_from_slice(b"o")
}

// Adds the letters of a state under a rule of other than two states.
fn push_multi_state(text: &mut Vec<u8>, state: u8) -> Result<(), AllocError>
    ensures { OnOk result (text.new.items ≡ text.old.items ++ multi_state_text state) }
{
    if state == 0 {
        return text.extend_from_slice(b".");
    }
    let above = state - 1;
    push_prefix(text, above / 24)?;
    text.push(b'A' + above % 24)?;
    Ok(())
}

// Adds the prefix for so many times 24 states.
fn push_prefix(text: &mut Vec<u8>, times: u8) -> Result<(), AllocError>
    requires { times < 11 }
    ensures { OnOk result (text.new.items ≡ text.old.items ++ prefix_text times) }
{
    if times > 0 {
        text.push(b'p' + (times - 1))?;
    }
    Ok(())
}
