// The theorems on the definitions of specs/. Each stands on the contract of a function that does nothing else, so the
// crate is proved only with all of them.
ghost use Rattle.model.specs.Decisions.{TestsDecide, VerdictIsDecided, LeastQIsDecided, PlansClear};
ghost use Rattle.model.specs.Orders.{OrdersAreLawful};
ghost use Rattle.model.specs.Promises.{Punctual, Exact, Isolated, Faithful, AnyRule};
ghost use Rattle.model.specs.SupplyFacts.{SupplyFacts, StartsThatDecide};
ghost use Rattle.model.specs.Timetables.{TimetablesAreLawful, CoveredOnce};

// Every job of a cleared module is ended or has run its full cost by its deadline.
pub fn punctual_holds() -> u8
    ensures { Punctual }
{
    0
}

// A module is not cleared exactly when the plain machine can have a late job.
pub fn exact_holds() -> u8
    ensures { Exact }
{
    0
}

// What a partition sees depends on its own tasks, calls and ticks alone.
pub fn isolated_holds() -> u8
    ensures { Isolated }
{
    0
}

// On a cleared module nobody need look for late jobs.
pub fn faithful_holds() -> u8
    ensures { Faithful }
{
    0
}

// Under any dispatch rule that is never late, modules are on time and executives faithful.
pub fn any_rule_holds() -> u8
    ensures { AnyRule }
{
    0
}

// Supply splits, comes round with the frame, and grows.
pub fn supply_facts_hold() -> u8
    ensures { SupplyFacts }
{
    0
}

// Start 0 and the starts that begin a gap decide; with the first q places, one start does.
pub fn deciding_starts_hold() -> u8
    ensures { StartsThatDecide }
{
    0
}

// Passing, being in time and being cleared are what their tests compute.
pub fn tests_decide() -> u8
    ensures { TestsDecide }
{
    0
}

// The verdict is the one whose statement holds.
pub fn verdict_is_decided() -> u8
    ensures { VerdictIsDecided }
{
    0
}

// The least q is the least that is enough.
pub fn least_q_is_decided() -> u8
    ensures { LeastQIsDecided }
{
    0
}

// The windows of a plan clear the module.
pub fn plans_clear() -> u8
    ensures { PlansClear }
{
    0
}

// Opened window lists and share cycles, and shifts, are lawful timetables.
pub fn timetables_are_lawful() -> u8
    ensures { TimetablesAreLawful }
{
    0
}

// No place of an allowed window list is covered twice.
pub fn windows_cover_once() -> u8
    ensures { CoveredOnce }
{
    0
}

// The listed order, the deadline order and tables of ranks are lawful.
pub fn orders_are_lawful() -> u8
    ensures { OrdersAreLawful }
{
    0
}
