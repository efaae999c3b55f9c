// The places of a frame that one partition owns.
ghost use Rattle.std.specs.Prelude.{◌≤◌};

use crate::owners::Owners;
use crate::response::Wanted;

#[derive(Drop)]
pub struct Places {
    pub(crate) frame: u16,
    owned: [bool; 1024],
    ghost framed: { (1 ≤ frame) × (frame ≤ 1024) },
}

impl Places {
    ghost use Rattle.std.specs.Prelude.{◌≡◌, ℕ, ◌+◌, ◌%◌, ◌<◌};
    ghost use Rattle.std.specs.Option.{option_map};
    ghost use Rattle.model.specs.Timetables.{owned_by, owner_at};
    ghost use Rattle.analysis.specs.Owners.{drawn};
    ghost use Rattle.analysis.specs.Places.{ticks_of, first_ticks};
    ghost use Rattle.analysis.specs.Responses.{tried, wants_first};

    // The places 0 to `count` - 1 of a frame; none unless the frame has 1 to 1,024 places.
    pub fn first(frame: u16, count: u16) -> Option<Places>
        ensures { option_map ticks_of result ≡ first_ticks frame count }
    {
        if frame < 1 || frame > 1024 {
            return None;
        }
        let mut owned = [false; 1024];
        owned[..usize::from(count.min(frame))].fill(true);
        Some(Places { frame, owned })
    }

    // The places that a partition owns.
    pub(crate) fn of(partition: u8, owners: &Owners) -> Places
        ensures frame { result.frame ≡ owners.now.frame }
        ensures ticks { (u : ℕ) → ticks_of result u ≡ owned_by partition (owner_at (drawn owners.now) u) }
    {
        let frame = owners.frame;
        let mut owned = [false; 1024];
        for (place, owner) in owners.places[..usize::from(frame)].iter().enumerate() {
            owned[place] = owner.is_some_and(|other| other == partition);
        }
        Places { frame, owned }
    }

    // The place of a tick.
    pub(crate) fn place(&self, tick: u16) -> usize
        ensures { result ≡ tick % self.now.frame }
    {
        usize::from(tick % self.frame)
    }

    // Whether a place is owned.
    pub(crate) fn owns(&self, place: usize) -> bool
        requires { place < self.now.frame }
        ensures { result ≡ ticks_of self.now place }
    {
        self.owned[place]
    }

    // The place after a place; after the last comes the first.
    pub(crate) fn after(&self, place: usize) -> usize
        requires { place < self.now.frame }
        ensures { result ≡ (place + 1) % self.now.frame }
    {
        let next = place + 1;
        if next < usize::from(self.frame) {
            next
        } else {
            0
        }
    }

    // Whether a start has to be tried. What passes at 0 and wherever a gap begins passes everywhere. Where the first start that
    // fails is wanted, all are tried but those after a place that is not owned: what passes there passes at the next.
    pub(crate) fn tries(&self, start: u16, wanted: Wanted) -> bool
        requires { start < self.now.frame }
        ensures { result ≡ tried (ticks_of self.now) (wants_first wanted) start }
    {
        start == 0
            || self.owns(usize::from(start - 1))
                && (wanted == Wanted::First || !self.owns(usize::from(start)))
    }
}
