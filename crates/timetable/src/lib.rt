// Timetables: who owns each place of a frame that repeats. What stands above uses a timetable's meaning and law alone, so
// an airframe maker can add one.
#![tactic(auto)]

mod share_cycle;
mod shift;
mod stretch;
mod window_list;

ghost use Rattle.std.specs.Prelude.{◌≡◌};
ghost use Rattle.model.specs.Timetables.{Timetable as Meaning, LawfulTimetable, owner_at};

pub use share_cycle::{CycleRefusal, ShareCycle};
pub use shift::Shift;
pub use stretch::supply;
pub use window_list::WindowList;

pub trait Timetable {
    // The timetable's meaning: how many places its frame has, and who owns each.
    ghost means: { Self → Meaning };

    fn frame(&self) -> u16
        ensures { result ≡ (means self.now).frame };

    // The owner of place `tick` mod F, if it has one.
    fn owner(&self, tick: u64) -> Option<u8>
        ensures { result ≡ owner_at (means self.now) tick };

    // The frame has 1 to 1,024 places, and owners are partitions 0 to 7.
    ghost lawful: { (t : Self) → LawfulTimetable (means t) };
}
