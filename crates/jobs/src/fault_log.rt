// The fault entries of a partition.
ghost use Rattle.std.specs.Prelude.{◌≡◌, ℕ, IfOk, length, slice_get};
ghost use Rattle.model.specs.declared.job.TaskState.{TaskState};
ghost use Rattle.model.specs.Machine.{noted};
ghost use Rattle.jobs.specs.Faults.{no_faults, state_with};

use model::Fault;
use std::alloc::{AllocError, Global};
use std::marker::Model;

const MOST_ENTRIES: usize = 8;

// The entries, at most 8, with room for all of them, so that noting a fault allocates nothing; and how many more faults
// were lost.
#[derive(Drop)]
pub(crate) struct FaultLog {
    entries: Vec<Fault>,
    lost: u16,
}

impl Model for FaultLog {
    ghost use Rattle.std.specs.Prelude.{◌≤◌, vec_len, vec_capacity};
    ghost use Rattle.jobs.specs.Faults.{NotedFaults};

    ghost Value = { NotedFaults };

    ghost view = { λ l. record { entries = l.entries.items; lost = l.lost } };

    ghost invariant = { λ l. (vec_len l.entries ≤ 8) × (8 ≤ vec_capacity l.entries) };
}

impl FaultLog {
    // A log with no entry.
    pub(crate) fn new(heap: Global) -> Result<FaultLog, AllocError>
        ensures { IfOk result (λ l. l ≡ no_faults) }
    {
        let entries = Vec::with_capacity(heap, MOST_ENTRIES)?;
        Ok(FaultLog { entries, lost: 0 })
    }

    // One entry more. After 8 it is lost, and the lost count stops at 65,535.
    #[tactic(auto, unfolding(model::specs::Machine::noted))]
    pub(crate) fn note(&mut self, fault: Fault)
        ensures { (xs : ℕ → TaskState) → state_with xs self.new ≡ noted (state_with xs self.old) fault }
    {
        if self.entries.len() < MOST_ENTRIES {
            self.entries.push_reserved(fault);
        } else {
            self.lost = self.lost.saturating_add(1);
        }
    }

    // An entry, the oldest first.
    pub(crate) fn get(&self, entry: u8) -> Option<Fault>
        ensures { result ≡ slice_get self.now.entries entry }
    {
        self.entries.get(entry as usize).copied()
    }

    // Empties the entries and the lost count; the answer is how many there were of each.
    pub(crate) fn clear(&mut self) -> (u8, u16)
        ensures answer { result ≡ (length self.old.entries, self.old.lost) }
        ensures after { self.new ≡ no_faults }
    {
        let count = self.entries.len() as u8;
        let lost = self.lost;
        self.entries.clear();
        self.lost = 0;
        (count, lost)
    }
}
