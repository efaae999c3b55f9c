// The choice of the open job that goes first.
ghost use Rattle.std.specs.Prelude.{◌≡◌, ◌≤◌, length};
ghost use Rattle.model.specs.Machine.{chosen};
ghost use Rattle.model.specs.Promises.{executive};
ghost use Rattle.model.specs.Timetables.{bare_frame};
ghost use Rattle.jobs.specs.Choices.{better_by};
ghost use Rattle.jobs.specs.Events.{states_of, tasks_of_list};

use crate::running_task::RunningTask;
use dispatch::Dispatch;
use model::{Job, TaskRecord};

// The best so far, with one task more: its open job, if it has one, or the best so far, whichever goes first.
fn better<D: Dispatch>(
    dispatch: &D,
    partition: u8,
    task: TaskRecord,
    job: Option<Job>,
    best: Option<(u8, D::Key)>,
) -> Option<(u8, D::Key)>
    ensures { result ≡ better_by (D.Dispatch.precedes dispatch.now) (D.Dispatch.keyed dispatch.now partition) task job best }
{
    let Some(job) = job else {
        return best;
    };
    let key = dispatch.key(partition, task, job.released);
    if best.is_none_or(|(_, held)| dispatch.before(key, held)) {
        Some((task.number, key))
    } else {
        best
    }
}

// The number of the task whose open job goes first; none where no job is open.
pub(crate) fn first_open<D: Dispatch>(
    dispatch: &D,
    partition: u8,
    tasks: &[RunningTask],
) -> Option<u8>
    requires { length tasks.now ≤ 16 }
    ensures { result ≡ chosen (executive bare_frame (D.Dispatch.rule dispatch.now)) partition (tasks_of_list tasks.now) (states_of tasks.now) }
{
    let mut best: Option<(u8, D::Key)> = None;
    for (number, running) in tasks.iter().enumerate() {
        let task = TaskRecord {
            number: number as u8,
            task: running.task,
        };
        best = better(dispatch, partition, task, running.state.job, best);
    }
    best.map(|(number, _)| number)
}
