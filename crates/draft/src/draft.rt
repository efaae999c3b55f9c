// Drafts: partitions and their tasks, within the limits. Each refused call leaves the draft as it was.
ghost use Rattle.std.specs.Prelude.{◌≡◌, ◌≤◌, true, vec_len};
ghost use Rattle.model.specs.Modules.{all_within};

use crate::DraftRefusal;
use model::Task;
use std::alloc::Global;

// The tasks of one partition: at most 16, each within the limits.
#[derive(Drop)]
pub struct Partition {
    tasks: Vec<Task>,
    ghost ok: { (vec_len tasks ≤ 16) × (all_within tasks.items ≡ true) },
}

impl Partition {
    ghost use Rattle.std.specs.Prelude.{[], ◌∷◌, ◌++◌};
    ghost use Rattle.model.specs.Answers.{Gives, Granted, leaves_if};
    ghost use Rattle.model.specs.Modules.{task};
    ghost use Rattle.draft.specs.Drafts.{tasks_in, Full, task_answer_in};
    ghost use Rattle.draft.specs.Refusals.{told};

    // The tasks in the order of their numbers.
    pub fn tasks(&self) -> &[Task]
        ensures { result.now ≡ tasks_in self.now }
    {
        self.tasks.as_slice()
    }

    // One task more: 13, then 14.
    fn add(&mut self, cost: u16, period: u16, deadline: u16) -> Result<u8, DraftRefusal>
        ensures answer { Gives (told result) (task_answer_in (tasks_in self.old) (task cost period deadline)) (Granted (task_answer_in (tasks_in self.old) (task cost period deadline)) × Full self.old) }
        ensures after { tasks_in self.new ≡ leaves_if (told result) (tasks_in self.old ++ (task cost period deadline ∷ [])) (tasks_in self.old) }
    {
        let number = self.tasks.len();
        if number >= 16 {
            return Err(DraftRefusal::TooManyTasks);
        }
        let task = Task::within_limits(cost, period, deadline).ok_or(DraftRefusal::OutsideLimits)?;
        self.tasks.push(task)?;
        Ok(number as u8)
    }
}

// At most 8 partitions.
#[derive(Drop)]
pub struct Draft {
    partitions: Vec<Partition>,
    ghost few: { vec_len partitions ≤ 8 },
}

impl Draft {
    ghost use Rattle.std.specs.Prelude.{[], ◌∷◌, ◌++◌, map, length};
    ghost use Rattle.model.specs.Answers.{Gives, Granted, leaves_if};
    ghost use Rattle.model.specs.Modules.{task, tasks_of};
    ghost use Rattle.draft.specs.Drafts.{module_of, tasks_in, NoRoom, NoRoomIn, with_partition, with_task, partition_answer, task_answer};
    ghost use Rattle.draft.specs.Refusals.{told};

    pub fn new(heap: Global) -> Draft
        ensures { module_of result ≡ [] }
    {
        let partitions = Vec::new(heap);
        Draft { partitions }
    }

    // One partition more, with no tasks; its number is the answer. Refused with 11.
    pub fn add_partition(&mut self) -> Result<u8, DraftRefusal>
        ensures answer { Gives (told result) (partition_answer (module_of self.old)) (Granted (partition_answer (module_of self.old)) × NoRoom self.old) }
        ensures after { module_of self.new ≡ leaves_if (told result) (with_partition (module_of self.old)) (module_of self.old) }
    {
        let partition = self.partitions.len();
        if partition >= 8 {
            return Err(DraftRefusal::TooManyPartitions);
        }
        let tasks = Vec::new(*self.partitions.allocator());
        self.partitions.push(Partition { tasks })?;
        Ok(partition as u8)
    }

    // One task more in a partition; its number is the answer. Refused with 12, 13, 14, checked in that order.
    pub fn add_task(
        &mut self,
        partition: u8,
        cost: u16,
        period: u16,
        deadline: u16,
    ) -> Result<u8, DraftRefusal>
        ensures answer { Gives (told result) (task_answer (module_of self.old) partition (task cost period deadline)) (Granted (task_answer (module_of self.old) partition (task cost period deadline)) × NoRoomIn self.old partition) }
        ensures after { module_of self.new ≡ leaves_if (told result) (with_task (module_of self.old) partition (task cost period deadline)) (module_of self.old) }
    {
        self.partitions
            .get_mut(partition as usize)
            .ok_or(DraftRefusal::NoSuchPartition)?
            .add(cost, period, deadline)
    }

    // How many partitions there are.
    pub fn partition_count(&self) -> u8
        ensures { result ≡ length (module_of self.now) }
    {
        self.partitions.len() as u8
    }

    // The partitions in the order of their numbers.
    pub fn partitions(&self) -> &[Partition]
        ensures { map tasks_in result.now ≡ module_of self.now }
    {
        self.partitions.as_slice()
    }

    // The tasks of a partition in the order of their numbers; none where the draft lacks the partition.
    pub fn tasks(&self, partition: u8) -> &[Task]
        ensures { result.now ≡ tasks_of (module_of self.now) partition }
    {
        self.partitions
            .get(partition as usize)
            .map_or(&[], Partition::tasks)
    }
}
