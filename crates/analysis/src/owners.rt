// The owners of a timetable's places, drawn from it once.
ghost use Rattle.std.specs.Prelude.{◌≤◌};

use timetable::Timetable;

#[derive(Drop)]
pub struct Owners {
    pub(crate) frame: u16,
    pub(crate) places: [Option<u8>; 1024],
    ghost framed: { (1 ≤ frame) × (frame ≤ 1024) },
}

impl Owners {
    ghost use Rattle.std.specs.Prelude.{◌≡◌, ◌<◌, None, slice_index_or};
    ghost use Rattle.analysis.specs.Owners.{DrawnFrom};

    pub(crate) fn draw<T: Timetable>(table: &T) -> Owners
        ensures { DrawnFrom (T.Timetable.means table.now) result }
    {
        let frame = table.frame();
        let mut places = [None; 1024];
        for place in 0..frame {
            places[usize::from(place)] = table.owner(u64::from(place));
        }
        Owners { frame, places }
    }

    // Who owns a place.
    pub(crate) fn at(&self, place: u16) -> Option<u8>
        requires { place < self.now.frame }
        ensures { result ≡ slice_index_or self.now.places place None }
    {
        self.places[usize::from(place)]
    }
}
