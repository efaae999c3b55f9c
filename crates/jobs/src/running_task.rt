// A task while a module runs.
use model::{Task, TaskState};
use std::alloc::{AllocError, Global};

// A task with its state.
#[derive(Clone, Copy)]
pub(crate) struct RunningTask {
    pub task: Task,
    pub state: TaskState,
}

impl RunningTask {
    ghost use Rattle.std.specs.Prelude.{◌≡◌, IfOk, map};
    ghost use Rattle.jobs.specs.Events.{resting};

    // A task that was never released.
    fn resting(task: Task) -> RunningTask
        ensures { result ≡ resting task }
    {
        RunningTask {
            task,
            state: TaskState {
                last: None,
                job: None,
            },
        }
    }

    // Tasks of which none was ever released.
    pub(crate) fn all_resting(heap: Global, tasks: &[Task]) -> Result<Vec<RunningTask>, AllocError>
        ensures { IfOk result (λ v. v.items ≡ map resting tasks.now) }
    {
        let mut list = Vec::with_capacity(heap, tasks.len())?;
        list.extend(tasks.iter().map(|task| RunningTask::resting(*task)))?;
        Ok(list)
    }
}
