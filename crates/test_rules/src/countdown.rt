//! A stop that says yes at a given poll.
ghost use Rattle.std.specs.Prelude.{◌≡◌};

use worlds::Stop;

/// Says yes once, at the poll after `left - 1` others.
#[derive(Clone, Copy)]
pub struct Countdown {
    pub left: u64,
}

impl Stop for Countdown {
    ghost use Rattle.std.specs.Prelude.{◌==◌, if◌then◌else◌};

    ghost yes_count = { λ stop. if stop.left == 0 then 1 else 0 };

    fn poll(&mut self) -> bool {
        match self.left {
            0 => false,
            1 => {
                self.left = 0;
                true
            }
            left => {
                self.left = left - 1;
                false
            }
        }
    }
}
