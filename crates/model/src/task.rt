// A task by its three numbers.
ghost use Rattle.std.specs.Prelude.{◌≡◌};
ghost use Rattle.model.specs.Modules.{task_within};

// Each job runs at most `cost` ticks, two releases are at least `period` ticks apart, and a job has `deadline` ticks from its
// release.
#[derive(Clone, Copy, PartialEq, Eq, Debug)]
pub struct Task {
    pub cost: u16,
    pub period: u16,
    pub deadline: u16,
}

impl Task {
    // The task, if its numbers are within the limits 1 ≤ cost ≤ deadline ≤ period ≤ 4,096.
    pub fn within_limits(cost: u16, period: u16, deadline: u16) -> Option<Task>
        ensures { result ≡ task_within cost period deadline }
    {
        if 1 <= cost && cost <= deadline && deadline <= period && period <= 4096 {
            Some(Task {
                cost,
                period,
                deadline,
            })
        } else {
            None
        }
    }
}
