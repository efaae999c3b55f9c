// Dispatch: which of two open jobs of a partition goes first. What stands above uses a dispatch rule's meaning alone, so
// another engine needs no other executive.
#![tactic(auto)]

mod by_order;

ghost use Rattle.std.specs.Prelude.{◌≡◌, Bool, ℕ};
ghost use Rattle.model.specs.Machine.{DispatchRule, OpenJob};

pub use by_order::ByOrder;
use model::TaskRecord;

pub trait Dispatch {
    // What is made of an open job, so that two can be compared: a number, a pair, or a type of its own.
    type Key: Copy;

    // The meaning: in partition p, whether one open job goes before another.
    ghost rule: { Self → DispatchRule };

    // The key of an open job in partition p.
    ghost keyed: { Self → ℕ → OpenJob → Self.Key };

    // Whether the first key goes before the second.
    ghost precedes: { Self → Self.Key → Self.Key → Bool };

    // The key of the task's open job, which was released at that tick.
    fn key(&self, partition: u8, task: TaskRecord, released: u64) -> Self::Key
        ensures { result ≡ keyed self.now partition (record { of = task; since = released }) };

    fn before(&self, a: Self::Key, b: Self::Key) -> bool
        ensures { result ≡ precedes self.now a b };

    // The keys decide, and nothing else.
    ghost decides: { (d : Self) (p : ℕ) (a b : OpenJob) → rule d p a b ≡ precedes d (keyed d p a) (keyed d p b) };
}
