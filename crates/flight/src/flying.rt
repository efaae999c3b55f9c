// The flight recorder. It allocates before the first call; no call does.
ghost use Rattle.std.specs.Prelude.{◌≡◌, ◌+◌, ◌≤◌, ◌++◌, length, vec_len, vec_capacity};
ghost use Rattle.executive.specs.States.{state_in};
ghost use Rattle.flight.specs.Flights.{Flown, heard_of};

use crate::asking::ask;
use crate::parts::Flight;
use dispatch::Dispatch;
use draft::Draft;
use executive::{Running, seal};
use model::{Call, Entry};
use order::LocalOrder;
use std::alloc::{AllocError, Global};
use timetable::Timetable;

// Makes the calls one by one. There is room for their entries.
fn make_calls<T: Timetable, D: Dispatch>(
    running: &mut Running<T, D>,
    calls: &[Call],
    entries: &mut Vec<Entry>,
)
    requires { vec_len entries.old + length calls.now ≤ vec_capacity entries.old }
    ensures entries { entries.new.items ≡ entries.old.items ++ heard_of T.Timetable.means D.Dispatch.rule running.old.sealed (state_in running.old) calls.now }
    ensures same { running.new.sealed ≡ running.old.sealed }
{
    for call in calls {
        let answer = ask(running, *call);
        entries.push_reserved(Entry {
            call: *call,
            answer,
        });
    }
}

// Seals a draft, starts the module at a tick, makes the calls and records each with its answer, and stops.
pub fn fly<T: Timetable, O: LocalOrder>(
    heap: Global,
    draft: Draft,
    table: T,
    order: O,
    tick: u64,
    calls: &[Call],
) -> Flight<T, O>
    ensures { Flown (T.Timetable.means table) (O.LocalOrder.order order) draft table order tick calls.now result }
{
    let sealed = seal(draft, table, order);
    let Ok(mut entries) = Vec::with_capacity(heap, calls.len()) else {
        return Flight {
            sealed,
            entries: Vec::new(heap),
            extent: Err(AllocError),
        };
    };
    match sealed.start(heap, tick) {
        Ok(mut running) => {
            make_calls(&mut running, calls, &mut entries);
            Flight {
                sealed: running.stop(),
                entries,
                extent: Ok(()),
            }
        }
        Err(sealed) => Flight {
            sealed,
            entries,
            extent: Err(AllocError),
        },
    }
}
