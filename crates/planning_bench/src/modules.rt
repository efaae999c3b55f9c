// The largest modules: 8 partitions with 16 tasks, periods 4,096, and deadlines 4,096 but for one.
use draft::{Draft, DraftRefusal};
use std::alloc::Global;

// Each task costs `cost` ticks, but for the last of all, which is given by its cost and deadline.
pub(crate) fn largest(heap: Global, cost: u16, last: (u16, u16)) -> Result<Draft, DraftRefusal> {
    let mut draft = Draft::new(heap);
    for p in 0..8u8 {
        draft.add_partition()?;
        for i in 0..16u8 {
            let (cost, deadline) = if p == 7 && i == 15 {
                last
            } else {
                (cost, 4096)
            };
            draft.add_task(p, cost, 4096, deadline)?;
        }
    }
    Ok(draft)
}
