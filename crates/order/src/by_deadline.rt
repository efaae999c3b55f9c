// The deadline order: the smaller deadline goes first, and of equal deadlines the lower task number.
ghost use Rattle.std.specs.Prelude.{◌≡◌};
ghost use Rattle.model.specs.Orders.{by_deadline};
ghost use Rattle.order.specs.DeadlineKeys.{deadline_key, sooner};
ghost use Rattle.std.proofs.Common.{rules};

use super::LocalOrder;
use model::TaskRecord;

#[derive(Clone, Copy)]
pub struct ByDeadline;

// The smaller deadline goes first, and of equal deadlines the lower number.
#[derive(Clone, Copy, PartialEq, Eq, PartialOrd, Ord)]
pub struct DeadlineKey {
    pub deadline: u16,
    pub number: u8,
}

impl LocalOrder for ByDeadline {
    type Key = DeadlineKey;

    ghost order = { λ _. by_deadline };

    ghost keyed = { λ _ _. deadline_key };

    ghost precedes = { λ _. sooner };

    ghost decides = { Prim.search rules };

    ghost irreflexive = { Prim.search rules };

    ghost transitive = { Prim.search rules };

    ghost total = { Prim.search rules };

    fn key(&self, _partition: u8, task: TaskRecord) -> DeadlineKey {
        DeadlineKey {
            deadline: task.task.deadline,
            number: task.number,
        }
    }

    fn before(&self, a: DeadlineKey, b: DeadlineKey) -> bool {
        a < b
    }
}
