// What is known of one partition while a module runs. None of its calls but `new` allocates.
ghost use Rattle.std.specs.Prelude.{◌≡◌, ℕ, ◌≤◌, IfOk, Ok, Some, vec_len};

use crate::choice::first_open;
use crate::clock::Clock;
use crate::event::{Event, happen, run};
use crate::fault_log::FaultLog;
use crate::running_task::RunningTask;
use dispatch::Dispatch;
use draft::Draft;
use model::{Fault, Progress, Refusal};
use std::alloc::{AllocError, Global};

// The tasks, at most 16, with their states, and the fault entries.
#[derive(Drop)]
pub struct JobTable {
    tasks: Vec<RunningTask>,
    faults: FaultLog,
    ghost few: { vec_len tasks ≤ 16 },
}

impl JobTable {
    ghost use Rattle.draft.specs.Drafts.{module_of};
    ghost use Rattle.model.specs.Machine.{untouched, chosen, turn_reply, ticked};
    ghost use Rattle.model.specs.Modules.{tasks_of};
    ghost use Rattle.model.specs.Promises.{executive};
    ghost use Rattle.model.specs.Timetables.{Timetable, owner_at};
    ghost use Rattle.model.specs.declared.call.Request.TheVariants as request;
    ghost use Rattle.model.specs.declared.reply.Reply.TheVariants as reply;
    ghost use Rattle.jobs.specs.Events.{outcome_in};
    ghost use Rattle.jobs.specs.Tables.{tasks_in, state_of, reply_of, tick_reply_of, Answered, Leaves, OnlyRunnerWritten};

    // A table for the tasks of a partition of the draft, in which nothing has happened.
    pub fn new(heap: Global, draft: &Draft, partition: u8) -> Result<JobTable, AllocError>
        ensures { IfOk result (λ t. (tasks_in t ≡ tasks_of (module_of draft.now) partition) × (state_of t ≡ untouched)) }
    {
        let tasks = RunningTask::all_resting(heap, draft.tasks(partition))?;
        let faults = FaultLog::new(heap)?;
        Ok(JobTable { tasks, faults })
    }

    // The event happens to a task at the tick `now`. If it is refused, that is noted.
    fn ask(&mut self, now: u64, task: u8, event: Event) -> Result<u16, Refusal>
        ensures answer { result ≡ outcome_in self.old.tasks.items task event }
        ensures after { Leaves self.old now task event result self.new }
        ensures tasks { tasks_in self.new ≡ tasks_in self.old }
    {
        let answer = happen(&mut self.tasks, task, event);
        if let Err(refusal) = answer {
            self.faults.note(Fault {
                refusal,
                task,
                tick: now,
            });
        }
        answer
    }

    // Releases a task; the answer is the tick at which its job is due. Refused with 32 and 33, checked in that order.
    pub fn release(&mut self, clock: Clock, task: u8) -> Result<u64, Refusal>
        ensures { Answered self.old self.new clock (request.Release task) (reply_of reply.Due result) }
    {
        let now = clock.now();
        let deadline = self.ask(now, task, Event::Release { now })?;
        Ok(now + u64::from(deadline))
    }

    // Ends the job of a task; the answer is how many ticks it ran. Refused with 32 and 34, checked in that order.
    pub fn end(&mut self, clock: Clock, task: u8) -> Result<u16, Refusal>
        ensures { Answered self.old self.new clock (request.End task) (reply_of reply.Count result) }
    {
        self.ask(clock.now(), task, Event::End)
    }

    // A fault entry, the oldest first; it only looks. Refused with 35.
    #[tactic(auto, unfolding(model::specs::Machine::refusal, model::specs::Machine::unless, model::specs::Machine::told, model::specs::Machine::answered, model::specs::Machine::asked, model::specs::Machine::obeyed, model::specs::Machine::refused_of))]
    pub fn fault(&self, entry: u8) -> Result<Fault, Refusal>
        ensures { (u : ℕ) → Answered self.now self.now u (request.Fault entry) (reply_of reply.Entry result) }
    {
        self.faults.get(entry).ok_or(Refusal::NoSuchFault)
    }

    // Empties the fault entries and the lost count; the answer is how many there were of each.
    #[tactic(auto, unfolding(model::specs::Machine::refusal, model::specs::Machine::told, model::specs::Machine::answered, model::specs::Machine::asked, model::specs::Machine::obeyed))]
    pub fn clear(&mut self) -> (u8, u16)
        ensures { (u : ℕ) → Answered self.old self.new u request.Clear (Ok (reply.Emptied result.0 result.1)) }
    {
        self.faults.clear()
    }

    // A tick of the partition: of its open jobs the one that goes first runs. The answer is its task, and how it then
    // stands; none where no job is open.
    pub fn work<D: Dispatch>(&mut self, dispatch: &D, partition: u8) -> Option<(u8, Progress)>
        ensures answer { (t : Timetable) → tick_reply_of partition result ≡ turn_reply partition (tasks_in self.old) (state_of self.old).tasks (chosen (executive t (D.Dispatch.rule dispatch.now)) partition (tasks_in self.old) (state_of self.old).tasks) }
        ensures after { (t : Timetable) (u : ℕ) → owner_at t u ≡ Some partition → state_of self.new ≡ ticked (executive t (D.Dispatch.rule dispatch.now)) partition (tasks_in self.old) u (state_of self.old) }
        ensures tasks { tasks_in self.new ≡ tasks_in self.old }
        ensures only { OnlyRunnerWritten self.old self.new result }
    {
        let task = first_open(dispatch, partition, &self.tasks)?;
        Some((task, run(&mut self.tasks, task)))
    }
}
