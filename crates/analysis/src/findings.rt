// What is found on a module: the first foreign place, and on each partition the first task that is not in time. Both are
// found whatever the verdict, which is told from them.
ghost use Rattle.std.specs.Prelude.{◌≡◌, not};
ghost use Rattle.model.specs.Verdicts.{owner_known, foreign_place, finding as finding_on};
ghost use Rattle.draft.specs.Drafts.{module_of};
ghost use Rattle.analysis.specs.Findings.{findings_on, found_on, told_by};
ghost use Rattle.analysis.specs.Owners.{drawn};

use crate::owners::Owners;
use crate::partition::Partition;
use crate::places::Places;
use draft::Draft;
use model::{LateTask, Verdict};
use order::LocalOrder;
use std::array;
use timetable::Timetable;

#[derive(Clone, Copy)]
pub struct Findings {
    foreign: Option<u16>,
    partitions: [Option<LateTask>; 8],
}

impl Findings {
    // The finding on a partition: of its tasks that are not in time the one that goes first; none where all are in time.
    pub fn on(&self, partition: u8) -> Option<LateTask>
        ensures { result ≡ found_on self.now partition }
    {
        self.partitions.get(partition as usize).copied().flatten()
    }

    // A foreign place first, then the finding on the lowest partition that has one.
    pub fn verdict(&self) -> Verdict
        ensures { result ≡ told_by self.now }
    {
        if let Some(place) = self.foreign {
            return Verdict::Foreign(place);
        }
        for found in &self.partitions {
            if let Some(task) = found {
                return Verdict::Late(*task);
            }
        }
        Verdict::Cleared
    }
}

// Whether the module lacks the owner, if there is one.
fn lacks(draft: &Draft, owner: Option<u8>) -> bool
    ensures { result ≡ not (owner_known (module_of draft.now) owner) }
{
    owner.is_some_and(|partition| partition >= draft.partition_count())
}

// The first place that belongs to a partition which the module lacks.
fn foreign_place(draft: &Draft, owners: &Owners) -> Option<u16>
    ensures { result ≡ foreign_place (drawn owners.now) (module_of draft.now) }
{
    (0..owners.frame).find(|place| lacks(draft, owners.at(*place)))
}

// The finding on a partition.
fn finding<O: LocalOrder>(
    draft: &Draft,
    owners: &Owners,
    order: &O,
    partition: u8,
) -> Option<LateTask>
    ensures { result ≡ finding_on (drawn owners.now) (O.LocalOrder.order order.now) (module_of draft.now) partition }
{
    let places = Places::of(partition, owners);
    Partition::of(draft, order, partition, &places).finding()
}

// All that is found on the module.
pub fn examine<T: Timetable, O: LocalOrder>(draft: &Draft, table: &T, order: &O) -> Findings
    ensures { result ≡ findings_on (T.Timetable.means table.now) (T.Timetable.means table.now) (O.LocalOrder.order order.now) (module_of draft.now) }
{
    let owners = Owners::draw(table);
    Findings {
        foreign: foreign_place(draft, &owners),
        partitions: array::from_fn(|partition| finding(draft, &owners, order, partition as u8)),
    }
}
