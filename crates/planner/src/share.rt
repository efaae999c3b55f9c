// Least q: how few first places of the frame are enough for the tasks of a partition.
ghost use Rattle.std.specs.Prelude.{◌≤◌};

use crate::PlanRefusal;
use analysis::{Places, passes};
use draft::Draft;
use order::LocalOrder;

// A draft under a local order, to be planned for a frame of 1 to 1,024 ticks.
#[derive(Drop)]
pub struct FramedDraft<'a, O> {
    pub(crate) draft: &'a Draft,
    pub(crate) order: &'a O,
    pub(crate) frame: u16,
    ghost framed: { (1 ≤ frame) × (frame ≤ 1024) },
}

impl<O: LocalOrder> FramedDraft<'_, O> {
    ghost use Rattle.std.specs.Prelude.{◌≡◌, MatchResult, length, take};
    ghost use Rattle.model.specs.Answers.{granted, refused};
    ghost use Rattle.model.specs.InTime.{all_in_time};
    ghost use Rattle.model.specs.Modules.{tasks_of};
    ghost use Rattle.model.specs.Planning.{with_first, least_q, least_qs};
    ghost use Rattle.draft.specs.Drafts.{module_of};
    ghost use Rattle.planner.specs.Refusals.{number, values};

    // Whether every task of a partition is in time with the first `share` places: each is if it passes at the start after them.
    fn is_enough(&self, partition: u8, share: u16) -> bool
        requires { share ≤ self.now.frame }
        ensures { result ≡ all_in_time (with_first (O.LocalOrder.order self.now.order.now) partition (tasks_of (module_of self.now.draft.now) partition) self.now.frame share) self.now.frame }
    {
        let Some(places) = Places::first(self.frame, share) else {
            return false;
        };
        let start = share % self.frame;
        let tasks = self.draft.tasks(partition).len() as u8;
        (0..tasks).all(|task| passes(self.draft, self.order, partition, task, &places, start))
    }

    // The least q, by bisection: what is enough stays so with more places.
    fn least_share(&self, partition: u8) -> Option<u16>
        ensures { result ≡ least_q (O.LocalOrder.order self.now.order.now) partition (tasks_of (module_of self.now.draft.now) partition) self.now.frame }
    {
        if !self.is_enough(partition, self.frame) {
            return None;
        }
        let mut low = 0;
        let mut high = self.frame;
        while low < high {
            let middle = low + (high - low) / 2;
            if self.is_enough(partition, middle) {
                high = middle;
            } else {
                low = middle + 1;
            }
        }
        Some(low)
    }

    // The least q of each partition, by its number, and 0 after them; 61 for the lowest partition that has none.
    pub(crate) fn least_shares(&self) -> Result<[u16; 8], PlanRefusal>
        ensures { MatchResult result (λ qs. least_qs (O.LocalOrder.order self.now.order.now) self.now.frame 0 (module_of self.now.draft.now) ≡ granted (take (length (module_of self.now.draft.now)) qs)) (λ e. least_qs (O.LocalOrder.order self.now.order.now) self.now.frame 0 (module_of self.now.draft.now) ≡ refused (number e) (values e)) }
    {
        let mut shares = [0; 8];
        for partition in 0..self.draft.partition_count() {
            let share = self
                .least_share(partition)
                .ok_or(PlanRefusal::Infeasible { partition })?;
            shares[partition as usize] = share;
        }
        Ok(shares)
    }
}
