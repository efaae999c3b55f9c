// A shift over any timetable: place i is the place i + k below, counted round the frame.
ghost use Rattle.std.specs.Prelude.{◌≡◌};
ghost use Rattle.model.specs.Timetables.{shifted};
ghost use Rattle.model.proofs.Timetables.{timetables_lawful};

use super::Timetable;

#[derive(Drop)]
pub struct Shift<T> {
    pub below: T,
    pub by: u16,
}

impl<T: Timetable> Timetable for Shift<T> {
    ghost means = { λ t. shifted (T.Timetable.means t.below) t.by };

    ghost lawful = { λ t. timetables_lawful.shifts (T.Timetable.means t.below) t.by (T.Timetable.lawful t.below) };

    fn frame(&self) -> u16 {
        self.below.frame()
    }

    #[tactic(auto, unfolding(model::specs::Timetables::owner_at))]
    fn owner(&self, tick: u64) -> Option<u8> {
        let place = tick % u64::from(self.below.frame());
        self.below.owner(place + u64::from(self.by))
    }
}
