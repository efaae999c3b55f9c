// Local orders: which of two tasks of a partition goes first. What stands above uses an order's meaning and laws alone, so
// an airframe maker can add one.
#![tactic(auto)]

mod by_deadline;
mod choice;
mod listed;

ghost use Rattle.std.specs.Prelude.{◌≡◌, ℕ, ◌<◌, Bool, true, false, not, ◌≢◌};
ghost use Rattle.model.specs.declared.task_record.TaskRecord.{TaskRecord};
ghost use Rattle.model.specs.Orders.{Order, CanExist};

pub use by_deadline::{ByDeadline, DeadlineKey};
pub use choice::first;
pub use listed::Listed;
use model::TaskRecord;

pub trait LocalOrder {
    // What an order makes of a task's record, so that two records can be compared: a number, a pair, or a type of its own.
    type Key: Copy;

    // The order's meaning: in partition p, whether the first record goes before the second.
    ghost order: { Self → Order };

    // The key of a record in partition p.
    ghost keyed: { Self → ℕ → TaskRecord → Self.Key };

    // Whether the first key goes before the second.
    ghost precedes: { Self → Self.Key → Self.Key → Bool };

    fn key(&self, partition: u8, task: TaskRecord) -> Self::Key
        ensures { result ≡ keyed self.now partition task };

    fn before(&self, a: Self::Key, b: Self::Key) -> bool
        ensures { result ≡ precedes self.now a b };

    // The keys decide, and nothing else.
    ghost decides: { (o : Self) (p : ℕ) (a b : TaskRecord) → order o p a b ≡ precedes o (keyed o p a) (keyed o p b) };

    ghost irreflexive: { (o : Self) (k : Self.Key) → precedes o k k ≡ false };

    ghost transitive: { (o : Self) (j k l : Self.Key) → precedes o j k ≡ true → precedes o k l ≡ true → precedes o j l ≡ true };

    // Of two tasks of one partition exactly one goes before the other.
    ghost total: { (o : Self) (p : ℕ) (a b : TaskRecord) → p < 8 → CanExist a → CanExist b → (a.number ≢ b.number) → order o p a b ≡ not (order o p b a) };
}
