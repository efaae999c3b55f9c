// A running module: the sealed one, its clock, and a job table for each partition. Starting it is all that allocates.
ghost use Rattle.std.specs.Prelude.{◌≡◌, ◌+◌, ◌<◌, ◌≤◌, MatchResult, Ok, length, map};
ghost use Rattle.draft.specs.Drafts.{module_of};
ghost use Rattle.executive.specs.Starts.{Fresh};
ghost use Rattle.jobs.specs.Tables.{tasks_in};

use crate::sealed::Sealed;
use dispatch::Dispatch;
use draft::Draft;
use jobs::{Clock, JobTable};
use model::{Fault, Refusal, Turn};
use std::alloc::{AllocError, Global};
use timetable::Timetable;

// The tables have the tasks of the sealed module.
#[derive(Drop)]
pub struct Running<T, D> {
    sealed: Sealed<T, D>,
    clock: Clock,
    tables: Vec<JobTable>,
    ghost level: { map tasks_in tables.items ≡ module_of sealed.draft },
}

// A job table for each partition of the draft, in which nothing has happened.
fn fresh_tables(heap: Global, draft: &Draft) -> Result<Vec<JobTable>, AllocError>
    ensures { MatchResult result (λ ts. Fresh (module_of draft.now) ts.items) (λ _. 1 ≤ length (module_of draft.now)) }
{
    let mut tables = Vec::new(heap);
    for partition in 0..draft.partition_count() {
        let table = JobTable::new(heap, draft, partition)?;
        tables.push(table)?;
    }
    Ok(tables)
}

impl<T: Timetable, D: Dispatch> Sealed<T, D> {
    ghost use Rattle.executive.specs.Sealing.{NotStarted, Started};

    // Starts the module at a tick, or at the last tick if that is lower. Where memory is wanting it is given back.
    pub fn start(self, heap: Global, tick: u64) -> Result<Running<T, D>, Sealed<T, D>>
        ensures { MatchResult result (Started T.Timetable.means D.Dispatch.rule self tick) (λ s. NotStarted T.Timetable.means D.Dispatch.rule s self) }
    {
        let Ok(tables) = fresh_tables(heap, &self.draft) else {
            return Err(self);
        };
        Ok(Running {
            sealed: self,
            clock: Clock::at(tick),
            tables,
        })
    }
}

impl<T: Timetable, D: Dispatch> Running<T, D> {
    ghost use Rattle.model.specs.Machine.{after as state_after, last_tick, reply as reply_to};
    ghost use Rattle.model.specs.declared.call.Call.TheVariants as call;
    ghost use Rattle.model.specs.declared.call.Request.TheVariants as request;
    ghost use Rattle.model.specs.declared.reply.Reply.TheVariants as reply;
    ghost use Rattle.jobs.specs.Tables.{reply_of};
    ghost use Rattle.executive.specs.Calls.{Answered, OnlyRunnerWritten, admitted, emptied_of};
    ghost use Rattle.executive.specs.States.{engine_of, partitions_of, sealed_module, state_in};

    // The owner of the clock's place has its turn: its job that goes first, if one is open, runs.
    fn turn(&mut self) -> Turn
        ensures answer { self.old.clock < last_tick → Ok (reply.Turn result) ≡ reply_to (engine_of T.Timetable.means D.Dispatch.rule self.old.sealed) (sealed_module self.old.sealed) (state_in self.old) call.Tick }
        ensures after { self.old.clock < last_tick → record { now = self.old.clock + 1; partitions = partitions_of self.new.tables.items } ≡ state_after (engine_of T.Timetable.means D.Dispatch.rule self.old.sealed) (sealed_module self.old.sealed) (state_in self.old) call.Tick }
        ensures same { self.new.sealed ≡ self.old.sealed }
        ensures clock { self.new.clock ≡ self.old.clock }
    {
        let Some(partition) = self.sealed.table.owner(self.clock.now()) else {
            return Turn::Spare;
        };
        if partition as usize >= self.tables.len() {
            return Turn::Idle(partition);
        }
        self.tables[partition as usize]
            .work(&self.sealed.dispatch, partition)
            .map_or(Turn::Idle(partition), |(task, progress)| {
                Turn::Ran(partition, task, progress)
            })
    }

    // One tick: the owner of the clock's place has its turn. It looks for no late job, and writes no job but the one that
    // runs. Refused with 30 and 41.
    pub fn tick(&mut self) -> Result<Turn, Refusal>
        ensures answered { Answered T.Timetable.means D.Dispatch.rule self.old self.new call.Tick (reply_of reply.Turn result) }
        ensures only { OnlyRunnerWritten (state_in self.old) (state_in self.new) (reply_of reply.Turn result) }
    {
        if !self.sealed.is_cleared() {
            return Err(Refusal::NotCleared);
        }
        let next = self.clock.next().ok_or(Refusal::LastTick)?;
        let turn = self.turn();
        self.clock = next;
        Ok(turn)
    }

    // The number of the table that a request to a partition goes to. Refused with 30 and 31, checked in that order.
    fn admitted(&self, partition: u8) -> Result<usize, Refusal>
        ensures { result ≡ admitted self.now partition }
    {
        if !self.sealed.is_cleared() {
            return Err(Refusal::NotCleared);
        }
        if partition as usize >= self.tables.len() {
            return Err(Refusal::NoSuchPartition);
        }
        Ok(partition as usize)
    }

    // Releases a task of a partition; the answer is the tick at which its job is due. Refused with 30, 31, 32 and 33.
    pub fn release(&mut self, partition: u8, task: u8) -> Result<u64, Refusal>
        ensures { Answered T.Timetable.means D.Dispatch.rule self.old self.new (call.Of partition (request.Release task)) (reply_of reply.Due result) }
    {
        let number = self.admitted(partition)?;
        self.tables[number].release(self.clock, task)
    }

    // Ends the job of a task of a partition; the answer is how many ticks it ran. Refused with 30, 31, 32 and 34.
    pub fn end(&mut self, partition: u8, task: u8) -> Result<u16, Refusal>
        ensures { Answered T.Timetable.means D.Dispatch.rule self.old self.new (call.Of partition (request.End task)) (reply_of reply.Count result) }
    {
        let number = self.admitted(partition)?;
        self.tables[number].end(self.clock, task)
    }

    // A fault entry of a partition, the oldest first; it only looks. Refused with 30, 31 and 35.
    pub fn fault(&self, partition: u8, entry: u8) -> Result<Fault, Refusal>
        ensures { Answered T.Timetable.means D.Dispatch.rule self.now self.now (call.Of partition (request.Fault entry)) (reply_of reply.Entry result) }
    {
        let number = self.admitted(partition)?;
        self.tables[number].fault(entry)
    }

    // Empties a partition's fault entries and lost count; the answer is how many there were of each. Refused with 30, 31.
    pub fn clear(&mut self, partition: u8) -> Result<(u8, u16), Refusal>
        ensures { Answered T.Timetable.means D.Dispatch.rule self.old self.new (call.Of partition request.Clear) (reply_of emptied_of result) }
    {
        let number = self.admitted(partition)?;
        Ok(self.tables[number].clear())
    }

    // The sealed module again, without its jobs.
    pub fn stop(self) -> Sealed<T, D>
        ensures { result ≡ self.sealed }
    {
        self.sealed
    }
}
