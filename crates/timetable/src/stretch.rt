// How many ticks of a stretch a partition owns, under any timetable.
ghost use Rattle.std.specs.Prelude.{◌≡◌};
ghost use Rattle.model.specs.InTime.{supply};
ghost use Rattle.model.specs.Timetables.{owned_by};
ghost use Rattle.timetable.specs.Owned.{owning};

use super::Timetable;

#[tactic(auto, unfolding(model::specs::Timetables::owned_by))]
fn is_owner(partition: u8, owner: Option<u8>) -> bool
    ensures { result ≡ owned_by partition owner }
{
    owner.is_some_and(|other| other == partition)
}

// Of the ticks `start` to `start + length - 1`, those that the partition owns.
pub fn supply<T: Timetable>(table: &T, partition: u8, start: u64, length: u16) -> u16
    ensures { result ≡ supply (owning (T.Timetable.means table.now) partition) start length }
{
    let place = start % u64::from(table.frame());
    let mut count = 0;
    for i in 0..length {
        if is_owner(partition, table.owner(place + u64::from(i))) {
            count += 1;
        }
    }
    count
}
