// Module A, sealed and started; the deadline of its task (3, 20, 19) may be another.
use dispatch::ByOrder;
use draft::{Draft, DraftRefusal};
use executive::{Running, Sealed, seal};
use model::Window;
use order::Listed;
use std::alloc::Global;
use std::test::Fail;
use timetable::WindowList;

const WINDOWS: [Window; 2] = [
    Window {
        partition: 0,
        start: 0,
        length: 4,
    },
    Window {
        partition: 1,
        start: 4,
        length: 1,
    },
];

fn draft(heap: Global, deadline: u16) -> Result<Draft, DraftRefusal> {
    let mut draft = Draft::new(heap);
    draft.add_partition()?;
    draft.add_task(0, 2, 10, 10)?;
    draft.add_task(0, 3, 20, deadline)?;
    draft.add_partition()?;
    draft.add_task(1, 1, 10, 10)?;
    Ok(draft)
}

pub(crate) fn sealed(
    heap: Global,
    deadline: u16,
) -> Result<Sealed<WindowList, ByOrder<Listed>>, Fail> {
    let draft = draft(heap, deadline)?;
    let table = WindowList::open(heap, 10, &WINDOWS)?;
    Ok(seal(draft, table, Listed))
}

pub(crate) fn started(
    sealed: Sealed<WindowList, ByOrder<Listed>>,
    heap: Global,
    tick: u64,
) -> Result<Running<WindowList, ByOrder<Listed>>, Fail> {
    sealed
        .start(heap, tick)
        .map_err(|_| Fail::new("no memory to start"))
}

// Module A, started at a tick.
pub(crate) fn running(
    heap: Global,
    tick: u64,
) -> Result<Running<WindowList, ByOrder<Listed>>, Fail> {
    started(sealed(heap, 19)?, heap, tick)
}

// Lets some ticks go by; whether none was refused.
pub(crate) fn wait(running: &mut Running<WindowList, ByOrder<Listed>>, ticks: u64) -> bool {
    (0..ticks).all(|_| running.tick().is_ok())
}
