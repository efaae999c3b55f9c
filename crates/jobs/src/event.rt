// What can happen to a task. The task's state, resting or open, is matched together with the event and changed in its
// place.
ghost use Rattle.std.specs.Prelude.{◌≡◌, ◌<◌, MatchResult, length, nat_le};
ghost use Rattle.model.specs.Machine.{ready, released, progress};
ghost use Rattle.jobs.specs.Events.{changed, outcome_in, task_at, with_event};

use crate::running_task::RunningTask;
use model::{Job, Progress, Refusal, Task, TaskState};

// A release at a tick, the end of the task's job, and a tick in which its job runs.
#[derive(Clone, Copy)]
pub(crate) enum Event {
    Release { now: u64 },
    End,
    Tick,
}

// Whether a task of that period may be released, by the tick of its last release.
#[tactic(auto, unfolding(model::specs::Machine::ready))]
fn may_release(last: Option<u64>, period: u16, tick: u64) -> bool
    ensures { result ≡ nat_le (ready period last) tick }
{
    last.is_none_or(|last| last <= tick && u64::from(period) <= tick - last)
}

// A task that is released now: a job opens that has run no tick.
#[tactic(auto, unfolding(model::specs::Machine::released))]
fn released(now: u64) -> TaskState
    ensures { result ≡ released now }
{
    TaskState {
        last: Some(now),
        job: Some(Job {
            released: now,
            ran: 0,
        }),
    }
}

// The event happens to a task. A release answers in how many ticks the job is due, the other events how many ticks the
// job had run before.
#[tactic(auto, unfolding(model::specs::Machine::closed, model::specs::Machine::one_on, model::specs::Machine::ran_of, model::specs::Machine::released))]
pub(crate) fn happen(tasks: &mut [RunningTask], task: u8, event: Event) -> Result<u16, Refusal>
    ensures answer { result ≡ outcome_in tasks.old task event }
    ensures after { MatchResult result (λ _. tasks.new ≡ with_event tasks.old task event) (λ _. tasks.new ≡ tasks.old) }
{
    let number = task as usize;
    if number >= tasks.len() {
        return Err(Refusal::NoSuchTask);
    }
    let running = &mut tasks[number];
    let Task {
        cost,
        period,
        deadline,
    } = running.task;
    match (&mut running.state.job, event) {
        (_, Event::Release { now }) => {
            if !may_release(running.state.last, period, now) {
                return Err(Refusal::TooSoon);
            }
            running.state = released(now);
            Ok(deadline)
        }
        (None, Event::End) => Err(Refusal::NoOpenJob),
        (Some(job), Event::End) => {
            let count = job.ran;
            running.state.job = None;
            Ok(count)
        }
        (None, Event::Tick) => Ok(0),
        (Some(job), Event::Tick) => {
            let ran = job.ran;
            if ran < cost.saturating_sub(1) {
                job.ran = ran + 1;
            } else {
                running.state.job = None;
            }
            Ok(ran)
        }
    }
}

// The open job of a task runs one tick; the answer is how it then stands: spent, if it is open no more.
#[tactic(auto, unfolding(model::specs::Machine::progress))]
pub(crate) fn run(tasks: &mut [RunningTask], task: u8) -> Progress
    requires { task < length tasks.old }
    ensures answer { result ≡ progress (changed (task_at tasks.old task) Event.Tick).job }
    ensures after { tasks.new ≡ with_event tasks.old task Event.Tick }
{
    let _ = happen(tasks, task, Event::Tick);
    tasks[task as usize]
        .state
        .job
        .map_or(Progress::Spent, |_| Progress::Open)
}
