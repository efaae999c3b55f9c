// Jobs, and what is known of a task while a module runs.

// An open job: the tick of its release, and how many ticks it has run.
#[derive(Clone, Copy)]
pub struct Job {
    pub released: u64,
    pub ran: u16,
}

// A task that runs: the tick of its last release and its open job, if there are such.
#[derive(Clone, Copy)]
pub struct TaskState {
    pub last: Option<u64>,
    pub job: Option<Job>,
}
