// A sealed module: a draft that takes no more tasks, with its timetable, its dispatch rule, and what was found on it.
ghost use Rattle.std.specs.Prelude.{◌≡◌};
ghost use Rattle.executive.specs.Sealing.{SealedAs};

use analysis::{Findings, examine};
use dispatch::ByOrder;
use draft::Draft;
use model::Verdict;
use order::LocalOrder;
use timetable::Timetable;

#[derive(Drop)]
pub struct Sealed<T, D> {
    pub(crate) draft: Draft,
    pub(crate) table: T,
    pub(crate) dispatch: D,
    pub(crate) findings: Findings,
}

// Seals a draft with a timetable and a local order. It always yields a module, which tells its verdict.
pub fn seal<T: Timetable, O: LocalOrder>(draft: Draft, table: T, order: O) -> Sealed<T, ByOrder<O>>
    ensures { SealedAs (T.Timetable.means table) (O.LocalOrder.order order) draft table order result }
{
    let findings = examine(&draft, &table, &order);
    Sealed {
        draft,
        table,
        dispatch: ByOrder { order },
        findings,
    }
}

impl<T, D> Sealed<T, D> {
    ghost use Rattle.executive.specs.States.{clears, told_verdict};

    // The verdict on the module.
    pub fn verdict(&self) -> Verdict
        ensures { result ≡ told_verdict self.now }
    {
        self.findings.verdict()
    }

    // Whether the verdict clears the module.
    pub(crate) fn is_cleared(&self) -> bool
        ensures { result ≡ clears (told_verdict self.now) }
    {
        matches!(self.verdict(), Verdict::Cleared)
    }

    // The draft again, with the timetable and the dispatch rule.
    pub fn reopen(self) -> (Draft, T, D)
        ensures { result ≡ (self.draft, self.table, self.dispatch) }
    {
        (self.draft, self.table, self.dispatch)
    }
}
