// Stretches of ticks: what one supplies is carried as it grows, and demand is summed again only when the supply has reached
// the last sum, since demand grows with the stretch.
use crate::local_task::LocalTask;
use crate::places::Places;
use order::LocalOrder;

// How many ticks it has, how many of them are owned, the place after it, and what any longer one needs at the least.
#[derive(Clone, Copy)]
pub struct Stretch {
    pub ticks: u16,
    pub supply: u32,
    pub place: usize,
    pub needed: u32,
}

impl Stretch {
    ghost use Rattle.std.specs.Prelude.{◌≡◌, ◌+◌, ◌%◌, ◌<◌, MatchBool};
    ghost use Rattle.model.specs.InTime.{PassesIn};
    ghost use Rattle.analysis.specs.Partitions.{seen};
    ghost use Rattle.analysis.specs.Stretches.{TooShort};

    // No ticks yet.
    pub(crate) fn at(places: &Places, start: u16) -> Stretch
        ensures { result ≡ record { ticks = 0; supply = 0; place = start % places.now.frame; needed = 0 } }
    {
        Stretch {
            ticks: 0,
            supply: 0,
            place: places.place(start),
            needed: 0,
        }
    }

    // One tick more: whether the task passes within it. If not, it is still too short.
    pub(crate) fn grow<O: LocalOrder>(&mut self, task: &LocalTask<O>, start: u16) -> bool
        requires below { self.old.ticks < 65535 }
        requires tested { TooShort (seen O.LocalOrder.order task.now.partition.now) task.now.number task.now.partition.now.places.now.frame start self.old }
        ensures grown { self.new.ticks ≡ self.old.ticks + 1 }
        ensures tells { MatchBool result (PassesIn (seen O.LocalOrder.order task.now.partition.now) task.now.number self.new.ticks start) (TooShort (seen O.LocalOrder.order task.now.partition.now) task.now.number task.now.partition.now.places.now.frame start self.new) }
    {
        let places = task.partition.places;
        self.supply += u32::from(places.owns(self.place));
        self.place = places.after(self.place);
        self.ticks += 1;
        if self.needed > self.supply {
            return false;
        }
        self.needed = task.demand(self.ticks);
        self.needed <= self.supply
    }
}
