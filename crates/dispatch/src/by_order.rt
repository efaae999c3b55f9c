// Jobs go by the local order of their tasks, whenever they were released.
ghost use Rattle.model.specs.Machine.{by_order};
ghost use Rattle.std.proofs.Common.{rules};

use super::Dispatch;
use model::TaskRecord;
use order::LocalOrder;

#[derive(Drop)]
pub struct ByOrder<O> {
    pub order: O,
}

impl<O: LocalOrder> Dispatch for ByOrder<O> {
    type Key = O::Key;

    ghost rule = { λ d. by_order (O.LocalOrder.order d.order) };

    ghost keyed = { λ d p a. O.LocalOrder.keyed d.order p a.of };

    ghost precedes = { λ d. O.LocalOrder.precedes d.order };

    ghost decides = { Prim.search rules };

    fn key(&self, partition: u8, task: TaskRecord, _released: u64) -> O::Key {
        self.order.key(partition, task)
    }

    fn before(&self, a: O::Key, b: O::Key) -> bool {
        self.order.before(a, b)
    }
}
