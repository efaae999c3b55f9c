// The calls that release each task as early as allowed before each tick.
ghost use Rattle.std.specs.Prelude.{◌≡◌, ◌≤◌, ◌++◌, length, IfOk, OnOk};
ghost use Rattle.draft.specs.Drafts.{module_of};
ghost use Rattle.schedule.specs.Earliest.{partition_releases, calls_at, earliest_calls, AsEarlyAsAllowed};

use draft::Draft;
use model::{Call, Request, Task};
use std::alloc::{AllocError, Global};

// The releases of a partition's tasks at a tick, of those for which one is allowed.
fn push_releases(
    calls: &mut Vec<Call>,
    tick: u16,
    partition: u8,
    tasks: &[Task],
) -> Result<(), AllocError>
    requires { length tasks.now ≤ 16 }
    ensures { OnOk result (calls.new.items ≡ calls.old.items ++ partition_releases tick partition 0 tasks.now) }
{
    for (number, task) in tasks.iter().enumerate() {
        if tick.is_multiple_of(task.period) {
            calls.push(Call::Of(partition, Request::Release(number as u8)))?;
        }
    }
    Ok(())
}

// The calls of a tick: the releases, then the tick.
fn push_calls(calls: &mut Vec<Call>, tick: u16, draft: &Draft) -> Result<(), AllocError>
    ensures { OnOk result (calls.new.items ≡ calls.old.items ++ calls_at (module_of draft.now) tick) }
{
    for partition in 0..draft.partition_count() {
        push_releases(calls, tick, partition, draft.tasks(partition))?;
    }
    calls.push(Call::Tick)?;
    Ok(())
}

// The calls of the first `frame` ticks: before each, every task is released that may be.
pub fn earliest_releases(heap: Global, draft: &Draft, frame: u16) -> Result<Vec<Call>, AllocError>
    ensures calls { IfOk result (λ cs. cs.items ≡ earliest_calls (module_of draft.now) frame) }
    ensures early { IfOk result (λ cs. AsEarlyAsAllowed (module_of draft.now) frame cs.items) }
{
    let mut calls = Vec::new(heap);
    for tick in 0..frame {
        push_calls(&mut calls, tick, draft)?;
    }
    Ok(calls)
}
