// One of a partition's tasks: what it can ask for, and where it passes.
ghost use Rattle.std.specs.Prelude.{◌<◌, length};

use crate::partition::Partition;
use crate::response::Wanted;
use crate::stretch::Stretch;
use order::LocalOrder;

#[derive(Drop)]
pub struct LocalTask<'a, O> {
    pub(crate) partition: &'a Partition<'a, O>,
    pub(crate) number: usize,
    ghost known: { number < length partition.now.tasks.now },
}

impl<O: LocalOrder> LocalTask<'_, O> {
    ghost use Rattle.std.specs.Prelude.{◌≡◌};
    ghost use Rattle.model.specs.InTime.{D, demand as demand_of, in_time, passes as passes_at};
    ghost use Rattle.model.specs.Verdicts.{failing_start};
    ghost use Rattle.analysis.specs.Partitions.{seen};

    pub(crate) fn deadline(&self) -> u16
        ensures { result ≡ D (seen O.LocalOrder.order self.now.partition.now) self.now.number }
    {
        self.partition.tasks[self.number].deadline
    }

    // What the task and those that go before it can ask for in so many ticks.
    pub(crate) fn demand(&self, ticks: u16) -> u32
        ensures { result ≡ demand_of (seen O.LocalOrder.order self.now.partition.now) self.now.number ticks }
    {
        let partition = self.partition;
        let own = partition.key(self.number);
        let mut sum = u32::from(partition.tasks[self.number].cost);
        for (j, other) in partition.tasks.iter().enumerate() {
            if partition.order.before(partition.key(j), own) {
                sum += u32::from(other.cost) * u32::from(ticks.div_ceil(other.period));
            }
        }
        sum
    }

    // Whether the task passes at the start.
    pub(crate) fn passes(&self, start: u16) -> bool
        ensures { result ≡ passes_at (seen O.LocalOrder.order self.now.partition.now) self.now.number start }
    {
        let deadline = self.deadline();
        let mut stretch = Stretch::at(self.partition.places, start);
        while stretch.ticks < deadline {
            if stretch.grow(self, start) {
                return true;
            }
        }
        false
    }

    // Whether the task is in time.
    pub(crate) fn is_in_time(&self) -> bool
        ensures { result ≡ in_time (seen O.LocalOrder.order self.now.partition.now) self.now.partition.now.places.now.frame self.now.number }
    {
        self.response(Wanted::Any).is_ok()
    }

    // The first start at which the task does not pass; none if it is in time.
    pub(crate) fn first_failing_start(&self) -> Option<u16>
        ensures { result ≡ failing_start (seen O.LocalOrder.order self.now.partition.now) self.now.partition.now.places.now.frame self.now.number }
    {
        self.response(Wanted::First)
            .err()
            .map(|failing| failing.start)
    }
}
