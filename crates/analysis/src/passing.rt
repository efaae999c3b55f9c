// Whether a task passes at a start, and the first start at which it does not.
ghost use Rattle.std.specs.Prelude.{◌≡◌};
ghost use Rattle.model.specs.Modules.{tasks_of};
ghost use Rattle.model.specs.InTime.{partition as partition_in, partition_of, passes as passes_at};
ghost use Rattle.model.specs.Verdicts.{failing_start};
ghost use Rattle.draft.specs.Drafts.{module_of};
ghost use Rattle.analysis.specs.Places.{ticks_of};

use crate::local_task::LocalTask;
use crate::owners::Owners;
use crate::partition::Partition;
use crate::places::Places;
use draft::Draft;
use order::LocalOrder;
use timetable::Timetable;

// Whether the task passes at the start, when its partition owns these places. A task that is not there never does.
pub fn passes<O: LocalOrder>(
    draft: &Draft,
    order: &O,
    partition: u8,
    task: u8,
    places: &Places,
    start: u16,
) -> bool
    ensures { result ≡ passes_at (partition_of (O.LocalOrder.order order.now) partition (tasks_of (module_of draft.now) partition) (ticks_of places.now)) task start }
{
    let partition = Partition::of(draft, order, partition, places);
    partition
        .task(usize::from(task))
        .is_some_and(|task| task.passes(start))
}

// The first start of the frame at which a task does not pass; none if it is in time. A task that is not there never passes.
pub fn failing_start<T: Timetable, O: LocalOrder>(
    draft: &Draft,
    table: &T,
    order: &O,
    partition: u8,
    task: u8,
) -> Option<u16>
    ensures { result ≡ failing_start (partition_in (T.Timetable.means table.now) (O.LocalOrder.order order.now) (module_of draft.now) partition) (T.Timetable.means table.now).frame task }
{
    let number = usize::from(task);
    if number >= draft.tasks(partition).len() {
        return Some(0);
    }
    let owners = Owners::draw(table);
    let places = Places::of(partition, &owners);
    let partition = Partition::of(draft, order, partition, &places);
    let task = LocalTask {
        partition: &partition,
        number,
    };
    task.first_failing_start()
}
