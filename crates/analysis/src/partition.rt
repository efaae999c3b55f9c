// A partition as the analysis sees it: its tasks, the order that they stand in, and the places that it owns.
ghost use Rattle.std.specs.Prelude.{◌≡◌, true};
ghost use Rattle.model.specs.Modules.{partition_within};

use crate::local_task::LocalTask;
use crate::places::Places;
use draft::Draft;
use model::{LateTask, Task, TaskRecord};
use order::LocalOrder;

// The tasks keep the limits.
#[derive(Drop)]
pub struct Partition<'a, O> {
    pub(crate) number: u8,
    pub(crate) tasks: &'a [Task],
    pub(crate) order: &'a O,
    pub(crate) places: &'a Places,
    ghost limits: { partition_within tasks.now ≡ true },
}

impl<'a, O: LocalOrder> Partition<'a, O> {
    ghost use Rattle.std.specs.Prelude.{ℕ, ◌<◌, ◌≤◌, length, MatchOption, Some};
    ghost use Rattle.model.specs.InTime.{partition_of};
    ghost use Rattle.model.specs.Modules.{tasks_of};
    ghost use Rattle.model.specs.Orders.{record_of};
    ghost use Rattle.model.specs.Ranges.{first_of};
    ghost use Rattle.model.specs.Verdicts.{first_late, late_task};
    ghost use Rattle.draft.specs.Drafts.{module_of};
    ghost use Rattle.analysis.specs.Partitions.{seen};
    ghost use Rattle.analysis.specs.Places.{ticks_of};

    // A partition of a draft, when it owns these places. One that the draft lacks has no tasks.
    pub(crate) fn of(
        draft: &'a Draft,
        order: &'a O,
        number: u8,
        places: &'a Places,
    ) -> Partition<'a, O>
        ensures is { seen O.LocalOrder.order result ≡ partition_of (O.LocalOrder.order order.now) number (tasks_of (module_of draft.now) number) (ticks_of places.now) }
        ensures placed { result.places.now ≡ places.now }
        ensures numbered { result.number ≡ number }
    {
        Partition {
            number,
            tasks: draft.tasks(number),
            order,
            places,
        }
    }

    // The task of a number, if there is one.
    pub(crate) fn task(&'a self, number: usize) -> Option<LocalTask<'a, O>>
        ensures { MatchOption result (length self.now.tasks.now ≤ number) (λ task. (task.partition.now ≡ self.now) × (task.number ≡ number)) }
    {
        if number < self.tasks.len() {
            Some(LocalTask {
                partition: self,
                number,
            })
        } else {
            None
        }
    }

    // What the order makes of a task.
    pub(crate) fn key(&self, number: usize) -> O::Key
        requires { number < length self.now.tasks.now }
        ensures { result ≡ O.LocalOrder.keyed self.now.order.now self.now.number (record_of self.now.tasks.now number) }
    {
        self.order.key(
            self.number,
            TaskRecord {
                number: number as u8,
                task: self.tasks[number],
            },
        )
    }

    // Whether a task goes before another.
    fn goes_before(&self, number: usize, other: usize) -> bool
        requires known { number < length self.now.tasks.now }
        requires also { other < length self.now.tasks.now }
        ensures { result ≡ (seen O.LocalOrder.order self.now).before number other }
    {
        self.order.before(self.key(number), self.key(other))
    }

    // The task or the other, if there is one: whichever goes first.
    fn goes_first(&self, number: usize, other: Option<usize>) -> usize
        requires known { number < length self.now.tasks.now }
        requires also { (k : ℕ) → other ≡ Some k → k < length self.now.tasks.now }
        ensures { result ≡ first_of (seen O.LocalOrder.order self.now).before number other }
    {
        let Some(rival) = other else {
            return number;
        };
        if self.goes_before(number, rival) {
            number
        } else {
            rival
        }
    }

    // Of the tasks that are not in time, the one that goes first.
    fn first_late(&'a self) -> Option<usize>
        ensures { result ≡ first_late (seen O.LocalOrder.order self.now) self.now.places.now.frame }
    {
        let mut first = None;
        for number in 0..self.tasks.len() {
            let task = LocalTask {
                partition: self,
                number,
            };
            if task.is_in_time() {
                continue;
            }
            first = Some(self.goes_first(number, first));
        }
        first
    }

    // The finding on the partition: of its tasks that are not in time the one that goes first, with its first failing start.
    pub(crate) fn finding(&'a self) -> Option<LateTask>
        ensures { result ≡ late_task (seen O.LocalOrder.order self.now) self.now.places.now.frame self.now.number (first_late (seen O.LocalOrder.order self.now) self.now.places.now.frame) }
    {
        let number = self.first_late()?;
        let late = LocalTask {
            partition: self,
            number,
        };
        let start = late.first_failing_start()?;
        Some(LateTask {
            partition: self.number,
            task: number as u8,
            start,
        })
    }
}
