// A window list: a place belongs to the window that covers it.
ghost use Rattle.std.specs.Prelude.{◌≡◌, ℕ, List, true, MatchResult};
ghost use Rattle.model.specs.Answers.{granted, refused};
ghost use Rattle.model.specs.Timetables.{Timetable as Meaning, opened, window_timetable};
ghost use Rattle.model.specs.WindowLists.{list_answer, overlap};
ghost use Rattle.timetable.specs.Granted.{is_granted};
ghost use Rattle.windows.specs.Refusals.{told};

use crate::Timetable;
use model::Window;
use std::alloc::{AllocError, Global};
use windows::{WindowRefusal, check_list};

// The check allows the windows.
#[derive(Drop)]
pub struct WindowList {
    frame: u16,
    windows: Vec<Window>,
    ghost allowed: { is_granted (list_answer overlap frame windows.items) ≡ true },
}

impl WindowList {
    ghost use Rattle.std.specs.Prelude.{nat_le, false};
    ghost use Rattle.std.specs.List.Sorted.{IsPartitionPoint};
    ghost use Rattle.model.specs.WindowLists.{end_of};
    ghost use Rattle.timetable.specs.Lists.{meaning};

    // 51, 52, then window by window 53 and 54.
    pub fn check(frame: u16, windows: &[Window]) -> Result<(), WindowRefusal>
        ensures { told result ≡ list_answer overlap frame windows.now }
    {
        check_list(frame, windows)
    }

    // The list; where the check refuses it, the bare frame. Memory is wanting only where the check grants.
    pub fn open(heap: Global, frame: u16, windows: &[Window]) -> Result<WindowList, AllocError>
        ensures { MatchResult result (λ l. meaning l ≡ window_timetable overlap frame windows.now) (λ _. list_answer overlap frame windows.now ≡ granted tt) }
    {
        let Ok(()) = WindowList::check(frame, windows) else {
            return Ok(WindowList::bare(heap));
        };
        let windows = windows.to_vec(heap)?;
        Ok(WindowList { frame, windows })
    }

    // How many windows have ended by a place, by bisection.
    fn ended_by(&self, place: u64) -> usize
        ensures { IsPartitionPoint (λ w. nat_le (end_of w) place ≡ true) (λ w. nat_le (end_of w) place ≡ false) self.now.windows.items result }
    {
        let mut low = 0;
        let mut high = self.windows.len();
        while low < high {
            let middle = low + (high - low) / 2;
            if u64::from(self.windows[middle].end()) <= place {
                low = middle + 1;
            } else {
                high = middle;
            }
        }
        low
    }

    // What is opened where the check refuses: the bare frame.
    fn bare(heap: Global) -> WindowList
        ensures { (n : ℕ) (vs : List ℕ) (t : Meaning) → meaning result ≡ opened (refused n vs) t }
    {
        WindowList {
            frame: 1,
            windows: Vec::new(heap),
        }
    }
}

impl Timetable for WindowList {
    ghost use Rattle.timetable.specs.Lists.{meaning};
    ghost use Rattle.model.proofs.Timetables.{timetables_lawful};

    ghost means = { meaning };

    ghost lawful = { λ t. timetables_lawful.windows overlap t.frame t.windows.items };

    #[tactic(auto, using(crate::proofs::Opened::opened_granted))]
    fn frame(&self) -> u16 {
        self.frame
    }

    // The first window that ends after the place, if it has begun by then.
    fn owner(&self, tick: u64) -> Option<u8> {
        let place = tick % u64::from(self.frame);
        let next = self.ended_by(place);
        self.windows
            .get(next)
            .filter(|window| u64::from(window.start) <= place)
            .map(|window| window.partition)
    }
}
