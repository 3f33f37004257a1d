//! How many states a rule has.
ghost use Rattle.std.specs.Prelude.{◌≡◌, IfSome};
ghost use Rattle.rule_file.specs.States.{MayHaveStates, states_in};

use text_lines::number;

/// The fewest states that a rule may have.
const LEAST_STATES: u64 = 2;

/// The most states that a rule may have.
const MOST_STATES: u64 = 256;

/// The number of states that a value says in decimal, where it is one from 2 to 256.
pub fn states_in(value: &[u8]) -> Option<u16>
    ensures number { result ≡ states_in value.now }
    ensures within { IfSome result (λ states. MayHaveStates states) }
{
    match number(value)? {
        states @ LEAST_STATES..=MOST_STATES => Some(states as u16),
        _ => None,
    }
}
