// The timetable that is dearest to examine: eight partitions own every place of the longest frame in turn.
ghost use Rattle.planning_bench.specs.Alternation.{alternation};
ghost use Rattle.std.proofs.Common.{rules};

use timetable::Timetable;

#[derive(Drop)]
pub struct Alternating;

impl Timetable for Alternating {
    ghost means = { λ _. alternation };

    ghost lawful = { Prim.search rules };

    fn frame(&self) -> u16 {
        1024
    }

    #[tactic(auto, unfolding(model::specs::Timetables::owner_at))]
    fn owner(&self, tick: u64) -> Option<u8> {
        Some((tick % 1024 % 8) as u8)
    }
}
