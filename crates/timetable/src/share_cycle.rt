// A share cycle: partition 0 owns the first places of the frame, as many as its share, partition 1 the next, and so on.
ghost use Rattle.std.specs.Prelude.{◌≡◌, ℕ, List, true, length};
ghost use Rattle.model.specs.Answers.{refused};
ghost use Rattle.model.specs.Timetables.{Timetable as Meaning, cycle_answer, opened, share_timetable};
ghost use Rattle.timetable.specs.Granted.{is_granted};

use crate::Timetable;
use windows::check_frame;

#[derive(Clone, Copy, PartialEq, Eq, Debug)]
pub enum CycleRefusal {
    FrameLength = 51,
    TooManyShares = 55,
}

impl CycleRefusal {
    ghost use Rattle.timetable.specs.Cycles.{number};

    // The number in the table of refusals.
    pub fn number(self) -> u8
        ensures { result ≡ number self }
    {
        self as u8
    }
}

// The check allows the shares.
#[derive(Drop)]
pub struct ShareCycle {
    frame: u16,
    shares: [u16; 8],
    ghost allowed: { is_granted (cycle_answer frame shares) ≡ true },
    ghost one_each: { length shares ≡ 8 },
}

impl ShareCycle {
    ghost use Rattle.timetable.specs.Cycles.{told, meaning};

    // 51 unless the frame has 1 to 1,024 ticks, then 55 if the shares add to more.
    pub fn check(frame: u16, shares: [u16; 8]) -> Result<(), CycleRefusal>
        ensures { told result ≡ cycle_answer frame shares }
    {
        check_frame(frame).map_err(|_| CycleRefusal::FrameLength)?;
        let total: u32 = shares.iter().map(|share| u32::from(*share)).sum();
        if total <= u32::from(frame) {
            Ok(())
        } else {
            Err(CycleRefusal::TooManyShares)
        }
    }

    // The cycle; where the check refuses it, the bare frame.
    pub fn open(frame: u16, shares: [u16; 8]) -> ShareCycle
        ensures { meaning result ≡ share_timetable frame shares }
    {
        let Ok(()) = ShareCycle::check(frame, shares) else {
            return ShareCycle::bare();
        };
        ShareCycle { frame, shares }
    }

    // What is opened where the check refuses: the bare frame.
    fn bare() -> ShareCycle
        ensures { (n : ℕ) (vs : List ℕ) (t : Meaning) → meaning result ≡ opened (refused n vs) t }
    {
        ShareCycle {
            frame: 1,
            shares: [0; 8],
        }
    }
}

impl Timetable for ShareCycle {
    ghost use Rattle.timetable.specs.Cycles.{meaning};
    ghost use Rattle.std.proofs.Common.{arith};
    ghost use Rattle.model.proofs.Timetables.{timetables_lawful};

    ghost means = { meaning };

    ghost lawful = { λ t. timetables_lawful.cycles t.frame t.shares (omega (arith, t.one_each)) };

    #[tactic(auto, using(crate::proofs::Opened::opened_granted))]
    fn frame(&self) -> u16 {
        self.frame
    }

    #[tactic(auto, using(crate::proofs::Shares::share_steps))]
    fn owner(&self, tick: u64) -> Option<u8> {
        let mut place = tick % u64::from(self.frame);
        for (partition, share) in self.shares.iter().enumerate() {
            let share = u64::from(*share);
            if place < share {
                return Some(partition as u8);
            }
            place -= share;
        }
        None
    }
}
