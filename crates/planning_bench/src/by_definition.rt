// The test of the rules, read directly: demand and supply are summed anew for each length.
use model::{Task, TaskRecord};
use order::LocalOrder;
use timetable::{Timetable, supply};

// Demand(i, t) of task i.
fn demand<O: LocalOrder>(
    tasks: &[Task],
    order: &O,
    partition: u8,
    own: TaskRecord,
    length: u16,
) -> u64 {
    (0..16u8)
        .zip(tasks)
        .map(|(number, task)| {
            let other = TaskRecord {
                number,
                task: *task,
            };
            let goes_first = order.before(order.key(partition, other), order.key(partition, own));
            if goes_first && task.period > 0 {
                u64::from(task.cost) * u64::from(length.div_ceil(task.period))
            } else {
                0
            }
        })
        .fold(u64::from(own.task.cost), u64::saturating_add)
}

// Whether task i passes at a start. With `any` over the lengths it takes twice as long, and the verdict's speed is compared
// with this.
pub(crate) fn passes<T: Timetable, O: LocalOrder>(
    tasks: &[Task],
    table: &T,
    order: &O,
    partition: u8,
    own: TaskRecord,
    start: u64,
) -> bool {
    for length in 1..=own.task.deadline {
        let needed = demand(tasks, order, partition, own, length);
        if needed <= u64::from(supply(table, partition, start, length)) {
            return true;
        }
    }
    false
}
