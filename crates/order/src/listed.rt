// The listed order: the lower task number goes first.
ghost use Rattle.std.specs.Prelude.{◌≡◌, nat_lt};
ghost use Rattle.model.specs.Orders.{listed};
ghost use Rattle.std.proofs.Common.{rules};

use super::LocalOrder;
use model::TaskRecord;

#[derive(Clone, Copy)]
pub struct Listed;

impl LocalOrder for Listed {
    type Key = u8;

    ghost order = { λ _. listed };

    ghost keyed = { λ _ _ a. a.number };

    ghost precedes = { λ _. nat_lt };

    ghost decides = { Prim.search rules };

    ghost irreflexive = { Prim.search rules };

    ghost transitive = { Prim.search rules };

    ghost total = { Prim.search rules };

    fn key(&self, _partition: u8, task: TaskRecord) -> u8 {
        task.number
    }

    fn before(&self, a: u8, b: u8) -> bool {
        a < b
    }
}
