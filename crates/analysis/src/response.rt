// How a task responds on its partition's places: within how many ticks it passes, or at which start it does not.
use crate::local_task::LocalTask;
use crate::stretch::Stretch;
use order::LocalOrder;

// Which start is wanted of those at which a task does not pass.
#[derive(Clone, Copy, PartialEq, Eq)]
pub enum Wanted {
    Any,
    First,
}

// A start at which a task does not pass.
#[derive(Clone, Copy)]
pub struct FailingStart {
    pub start: u16,
}

impl<O: LocalOrder> LocalTask<'_, O> {
    ghost use Rattle.std.specs.Prelude.{MatchResult};
    ghost use Rattle.analysis.specs.Partitions.{seen};
    ghost use Rattle.analysis.specs.Responses.{Responds, FailsAt, wants_first};

    // The ticks within which the task passes at every start; or a start at which it does not, the first of them if wanted.
    pub(crate) fn response(&self, wanted: Wanted) -> Result<u16, FailingStart>
        ensures { MatchResult result (Responds (seen O.LocalOrder.order self.now.partition.now) self.now.partition.now.places.now.frame self.now.number) (λ failing. FailsAt (seen O.LocalOrder.order self.now.partition.now) self.now.partition.now.places.now.frame self.now.number (wants_first wanted) failing.start) }
    {
        let places = self.partition.places;
        let deadline = self.deadline();
        let mut longest = 0;
        let mut failing = None;
        'starts: for start in 0..places.frame {
            if !places.tries(start, wanted) {
                continue;
            }
            let mut stretch = Stretch::at(places, start);
            let passing = 'lengths: loop {
                if stretch.ticks == deadline {
                    failing = Some(FailingStart { start });
                    break 'starts;
                }
                if stretch.grow(self, start) {
                    break 'lengths stretch.ticks;
                }
            };
            longest = passing.max(longest);
        }
        match failing {
            Some(start) => Err(start),
            None => Ok(longest),
        }
    }
}
