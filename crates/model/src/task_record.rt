// A task as a local order sees it.
use crate::task::Task;

// A task with its number in its partition.
#[derive(Clone, Copy)]
pub struct TaskRecord {
    pub number: u8,
    pub task: Task,
}
