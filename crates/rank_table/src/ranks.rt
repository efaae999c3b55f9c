// The ranks of the tasks that partitions 0 to 7 can have.
ghost use Rattle.std.specs.Prelude.{◌≡◌, true, nat_lt};
ghost use Rattle.model.specs.Orders.{by_rank};
ghost use Rattle.rank_table.specs.Apart.{all_apart, apart, rank};

use model::TaskRecord;
use order::LocalOrder;

// Whether the ranks of a partition are all different.
fn are_apart(ranks: &[u8; 16]) -> bool
    ensures { result ≡ apart ranks.now }
{
    ranks
        .iter()
        .enumerate()
        .all(|(i, rank)| !ranks[..i].contains(rank))
}

fn are_all_apart(ranks: &[[u8; 16]; 8]) -> bool
    ensures { result ≡ all_apart ranks.now }
{
    ranks.iter().all(|ranks| are_apart(ranks))
}

// In each partition the ranks are all different.
#[derive(Drop)]
pub struct RankTable {
    ranks: [[u8; 16]; 8],
    ghost apart: { all_apart ranks ≡ true },
}

impl RankTable {
    ghost use Rattle.rank_table.specs.Tables.{made, allowed_ranks};

    // None if two tasks of a partition have the same rank.
    pub fn new(ranks: [[u8; 16]; 8]) -> Option<RankTable>
        ensures { made result ≡ allowed_ranks ranks }
    {
        if !are_all_apart(&ranks) {
            return None;
        }
        Some(RankTable { ranks })
    }
}

impl LocalOrder for RankTable {
    ghost use Rattle.model.proofs.Orders.{orders_lawful};
    ghost use Rattle.rank_table.specs.ApartLemmas.{same_rank};
    ghost use Rattle.std.proofs.Common.{rules};

    type Key = u8;

    ghost order = { λ t. by_rank (rank t.ranks) };

    ghost keyed = { λ t p a. rank t.ranks p a.number };

    ghost precedes = { λ _. nat_lt };

    ghost decides = { Prim.search rules };

    ghost irreflexive = { Prim.search rules };

    ghost transitive = { Prim.search rules };

    ghost total = { λ t. (orders_lawful.by_ranks (rank t.ranks) (λ p i j few l m e. same_rank t.ranks t.apart p few i j l m e)).one_first };

    // The rank; 0 where there is no such partition or task.
    fn key(&self, partition: u8, task: TaskRecord) -> u8 {
        if partition < 8 && task.number < 16 {
            self.ranks[partition as usize][task.number as usize]
        } else {
            0
        }
    }

    fn before(&self, a: u8, b: u8) -> bool {
        a < b
    }
}
