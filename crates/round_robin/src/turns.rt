// So many partitions, so many ticks each.
ghost use Rattle.std.specs.Prelude.{◌≡◌, ◌*◌, ◌≤◌};

use timetable::Timetable;

#[derive(Drop)]
pub struct RoundRobin {
    partitions: u8,
    turn: u16,
    ghost some: { 1 ≤ partitions },
    ghost few: { partitions ≤ 8 },
    ghost tick: { 1 ≤ turn },
    ghost short: { partitions * turn ≤ 1024 },
}

impl RoundRobin {
    ghost use Rattle.round_robin.specs.Turns.{made, allowed_turns};

    // None unless there are 1 to 8 partitions with at least a tick each, and the frame has at most 1,024 ticks.
    pub fn new(partitions: u8, turn: u16) -> Option<RoundRobin>
        ensures { made result ≡ allowed_turns partitions turn }
    {
        let frame = u32::from(partitions) * u32::from(turn);
        if !(1..=8).contains(&partitions) || turn < 1 || frame > 1024 {
            return None;
        }
        Some(RoundRobin { partitions, turn })
    }
}

impl Timetable for RoundRobin {
    ghost use Rattle.round_robin.specs.Turns.{meaning};
    ghost use Rattle.round_robin.specs.EqualTurns.{turns_lawful};

    ghost means = { meaning };

    ghost lawful = { λ t. turns_lawful t.partitions t.turn t.some t.few t.tick t.short };

    fn frame(&self) -> u16 {
        u16::from(self.partitions) * self.turn
    }

    #[tactic(auto, unfolding(model::specs::Timetables::owner_at))]
    fn owner(&self, tick: u64) -> Option<u8> {
        let place = tick % u64::from(self.frame());
        Some((place / u64::from(self.turn)) as u8)
    }
}
