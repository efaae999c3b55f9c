// Why a draft does not take a partition or a task.
ghost use Rattle.std.specs.Prelude.{◌≡◌, Some, None};
ghost use Rattle.draft.specs.declared.refusal.DraftRefusal.TheVariants.{NoMemory};
ghost use Rattle.draft.specs.Refusals.{number};

use std::alloc::AllocFailed;

// `NoMemory` is no refusal of the rules and has no number: the draft would have had to grow, and there was no memory.
#[derive(Clone, Copy, PartialEq, Eq, Debug)]
pub enum DraftRefusal {
    TooManyPartitions,
    NoSuchPartition,
    TooManyTasks,
    OutsideLimits,
    NoMemory,
}

impl DraftRefusal {
    // The number in the table of refusals.
    pub fn number(self) -> Option<u8>
        ensures { result ≡ number self }
    {
        match self {
            DraftRefusal::TooManyPartitions => Some(11),
            DraftRefusal::NoSuchPartition => Some(12),
            DraftRefusal::TooManyTasks => Some(13),
            DraftRefusal::OutsideLimits => Some(14),
            DraftRefusal::NoMemory => None,
        }
    }
}

impl<T: Drop> From<AllocFailed<T>> for DraftRefusal {
    ghost from_gives = { λ _ r. r ≡ NoMemory };

    fn from(_e: AllocFailed<T>) -> DraftRefusal {
        DraftRefusal::NoMemory
    }
}
