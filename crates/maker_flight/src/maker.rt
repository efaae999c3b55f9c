// A flight in turns of equal length, by ranks.
ghost use Rattle.std.specs.Prelude.{◌≡◌, true};
ghost use Rattle.model.specs.Machine.{by_order};
ghost use Rattle.promises.specs.Promises.{Promised};
ghost use Rattle.draft.specs.Drafts.{module_of};
ghost use Rattle.executive.specs.States.{clears, told_verdict};
ghost use Rattle.flight.specs.Flights.{Flown};
ghost use Rattle.round_robin.specs.Turns.{meaning};
ghost use Rattle.maker_flight.specs.Makers.{ranked};

use draft::Draft;
use flight::{Flight, fly};
use model::Call;
use rank_table::RankTable;
use round_robin::RoundRobin;
use std::alloc::Global;

// Flies the draft from a tick on.
pub fn fly_in_turns(
    heap: Global,
    draft: Draft,
    table: RoundRobin,
    order: RankTable,
    tick: u64,
    calls: &[Call],
) -> Flight<RoundRobin, RankTable>
    ensures flown { Flown (meaning table) (ranked order) draft table order tick calls.now result }
    ensures promised { clears (told_verdict result.sealed) ≡ true → Promised (meaning table) (by_order (ranked order)) (module_of draft) tick result.entries.items }
{
    fly(heap, draft, table, order, tick, calls)
}
