// The choice by any order: of some tasks of a partition, the one that goes first.
ghost use Rattle.std.specs.Prelude.{◌≡◌, None};
ghost use Rattle.order.specs.Choices.{first_of, GoesFirst};

use super::LocalOrder;
use model::TaskRecord;

// The task that goes first, if there is one.
pub fn first<O: LocalOrder>(order: &O, partition: u8, tasks: &[TaskRecord]) -> Option<TaskRecord>
    ensures is { result ≡ first_of (O.LocalOrder.order order.now partition) None tasks.now }
    ensures goes { GoesFirst (O.LocalOrder.order order.now) partition tasks.now result }
{
    tasks.iter().copied().reduce(|best, task| {
        if order.before(order.key(partition, task), order.key(partition, best)) {
            task
        } else {
            best
        }
    })
}
