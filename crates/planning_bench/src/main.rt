// Times the verdict and the shortest windows of the largest module, and the same tests by the definition read directly.
// What was found goes to standard output, times to standard error.
#![tactic(auto)]

mod alternating;
mod by_definition;
mod modules;
mod times;

use alternating::Alternating;
use analysis::verdict;
use anyhow::anyhow;
use by_definition::passes;
use draft::{Draft, DraftRefusal};
use model::{TaskRecord, Verdict, Window};
use modules::largest;
use order::Listed;
use planner::{PlanRefusal, shortest_windows};
use std::alloc::Global;
use std::rt::Clock;
use times::{Times, timed};
use timetable::{ShareCycle, Shift, Timetable};

// The verdict of a module, and how long it takes.
fn judge<T: Timetable>(
    rt: &(impl Print + Eprint + Clock),
    name: &str,
    draft: &Draft,
    table: &T,
) -> anyhow::Result<Times> {
    let (found, times) = timed(rt, "two verdicts on one module", || {
        verdict(draft, table, &Listed)
    })?;
    match found {
        Verdict::Cleared => println!(rt; "{name}: cleared")?,
        Verdict::Foreign(place) => println!(rt; "{name}: 21 {place}")?,
        Verdict::Late(failing) => {
            let (partition, task, start) = (failing.partition, failing.task, failing.start);
            println!(rt; "{name}: 22 {partition} {task} {start}")?;
        }
    }
    times.tell(rt, name)?;
    Ok(times)
}

// How many of 16 tests pass by the definition: each task of the last partition, at one of two starts. With a closure that
// holds the table, as `filter` takes, they need twenty times as long.
fn sample<T: Timetable>(draft: &Draft, table: &T) -> u32 {
    let tasks = draft.tasks(7);
    let mut passed: u32 = 0;
    for (number, task) in (0..16u8).zip(tasks) {
        let own = TaskRecord {
            number,
            task: *task,
        };
        let start = if number % 2 == 0 { 256 } else { 768 };
        if passes(tasks, table, &Listed, 7, own, start) {
            passed = passed.saturating_add(1);
        }
    }
    passed
}

// A verdict asks 131,072 tests, of 128 tasks at 1,024 starts: as many as these samples.
const SAMPLES: u128 = 8_192;

// The sample, and how long it takes.
fn define<T: Timetable>(
    rt: &(impl Print + Eprint + Clock),
    name: &str,
    draft: &Draft,
    table: &T,
) -> anyhow::Result<Times> {
    let (passed, times) = timed(rt, "two answers to one test", || sample(draft, table))?;
    println!(rt; "{name}: {passed} of 16 pass")?;
    times.tell(rt, name)?;
    Ok(times)
}

// How many windows are the shortest, and the length of the last of eight.
fn shortest(draft: &Draft) -> Result<(u8, u16), PlanRefusal> {
    let mut windows = [Window::default(); 8];
    let count = shortest_windows(draft, &Listed, 1024, &mut windows)?;
    Ok((count, windows[7].length))
}

// The shortest windows of a module, and how long they take.
fn plan(rt: &(impl Print + Eprint + Clock), name: &str, draft: &Draft) -> anyhow::Result<Times> {
    let (found, times) = timed(rt, "two plans of one module", || shortest(draft))?;
    match found {
        Ok((count, last)) => println!(rt; "{name}: {count} windows, the last of {last}")?,
        Err(refusal) => println!(rt; "{name}: {}", refusal.number())?,
    }
    times.tell(rt, name)?;
    Ok(times)
}

// The drafts: cleared; with one tick more than there is in 4,096; and with a last task that has 3,968 ticks, in which the
// partition has one tick too few if they begin where its window ends.
fn drafts(heap: Global) -> Result<(Draft, Draft, Draft), DraftRefusal> {
    let cleared = largest(heap, 32, (32, 4096))?;
    let full = largest(heap, 32, (33, 4096))?;
    let late = largest(heap, 24, (25, 3968))?;
    Ok((cleared, full, late))
}

fn main(rt: HostRuntime) -> anyhow::Result<()> {
    let (cleared, full, late) = drafts(rt.alloc()).map_err(|_| anyhow!("no memory"))?;
    let blocks = ShareCycle::open(1024, [128; 8]);
    // the last partition owns the first block, so its last start to be tried is the one after it
    let shifted = Shift {
        below: ShareCycle::open(1024, [128; 8]),
        by: 896,
    };
    let in_blocks = judge(&rt, "blocks, cleared", &cleared, &blocks)?;
    judge(&rt, "blocks, failing", &late, &shifted)?;
    let by_blocks = define(&rt, "blocks by the definition", &cleared, &blocks)?;
    let in_turn = judge(&rt, "alternating, cleared", &cleared, &Alternating)?;
    judge(&rt, "alternating, failing", &full, &Alternating)?;
    let by_turns = define(&rt, "alternating by the definition", &cleared, &Alternating)?;
    let planned = plan(&rt, "shortest windows", &cleared)?;
    plan(&rt, "shortest windows, refused", &full)?;
    by_blocks.compare(&rt, "blocks", SAMPLES, in_blocks)?;
    by_turns.compare(&rt, "alternating", SAMPLES, in_turn)?;
    // the definition asks as many tests of a module whose windows are the shortest already
    by_blocks.compare(&rt, "shortest windows", SAMPLES, planned)
}
