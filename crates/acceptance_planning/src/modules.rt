// The modules that are planned, partition by partition.
use draft::{Draft, DraftRefusal};
use model::Window;
use std::alloc::Global;

// The tasks of a partition by cost, period and deadline.
pub(crate) type Tasks = &'static [(u16, u16, u16)];

// Module A.
pub(crate) const A: [Tasks; 2] = [&[(2, 10, 10), (3, 20, 19)], &[(1, 10, 10)]];

// Module A with deadline 18 for 19.
pub(crate) const TIGHT: [Tasks; 2] = [&[(2, 10, 10), (3, 20, 18)], &[(1, 10, 10)]];

// Module A with partition 0's tasks exchanged.
pub(crate) const EXCHANGED: [Tasks; 2] = [&[(3, 20, 19), (2, 10, 10)], &[(1, 10, 10)]];

pub(crate) fn draft_of(heap: Global, partitions: &[Tasks]) -> Result<Draft, DraftRefusal> {
    let mut draft = Draft::new(heap);
    for tasks in partitions {
        let partition = draft.add_partition()?;
        for &(cost, period, deadline) in *tasks {
            draft.add_task(partition, cost, period, deadline)?;
        }
    }
    Ok(draft)
}

pub(crate) fn window(partition: u8, start: u16, length: u16) -> Window {
    Window {
        partition,
        start,
        length,
    }
}
