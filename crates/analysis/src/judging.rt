// The verdict on a module.
ghost use Rattle.std.specs.Prelude.{◌≡◌};
ghost use Rattle.model.specs.Verdicts.{verdict_on};
ghost use Rattle.draft.specs.Drafts.{module_of};

use crate::findings::examine;
use draft::Draft;
use order::LocalOrder;
use timetable::Timetable;

pub fn verdict<T: Timetable, O: LocalOrder>(draft: &Draft, table: &T, order: &O) -> model::Verdict
    ensures { result ≡ verdict_on (T.Timetable.means table.now) (T.Timetable.means table.now) (O.LocalOrder.order order.now) (module_of draft.now) }
{
    examine(draft, table, order).verdict()
}
