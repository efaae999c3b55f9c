// The clock of a running module. It does not pass the last tick, so a tick and a deadline always add up.
ghost use Rattle.std.specs.Prelude.{◌≡◌, ◌≤◌, min};
ghost use Rattle.model.specs.Machine.{last_tick};
ghost use Rattle.jobs.specs.Ticks.{next_tick};

use std::marker::Model;

const LAST_TICK: u64 = 1_000_000_000_000;

#[derive(Clone, Copy)]
pub struct Clock {
    tick: u64,
}

// A clock is seen as the tick that comes next.
impl Model for Clock {
    ghost use Rattle.std.specs.Prelude.{ℕ, ◌≤◌};
    ghost use Rattle.model.specs.Machine.{last_tick};

    ghost Value = { ℕ };

    ghost view = { λ c. c.tick };

    ghost invariant = { λ c. c.tick ≤ last_tick };

    ghost inverse = { λ u. record { tick = u } };
}

impl Clock {
    // A clock at the start tick, or at the last tick if that is lower.
    pub fn at(start: u64) -> Clock
        ensures { result ≡ min start last_tick }
    {
        Clock {
            tick: start.min(LAST_TICK),
        }
    }

    // The tick that comes next.
    pub fn now(self) -> u64
        ensures tick { result ≡ self }
        ensures within { result ≤ last_tick }
    {
        self.tick
    }

    // The clock one tick on; none at the last tick.
    pub fn next(self) -> Option<Clock>
        ensures { result ≡ next_tick self }
    {
        if self.tick < LAST_TICK {
            Some(Clock {
                tick: self.tick + 1,
            })
        } else {
            None
        }
    }
}
