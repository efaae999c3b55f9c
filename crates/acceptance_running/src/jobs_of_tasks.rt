// Jobs: when they are due, when a task may be released again, what each tick answers, and what an end counts.
use crate::module_a::{running, wait};
use executive::Turn;
use model::{Fault, Progress, Refusal};
use std::test::Fail;

#[test]
fn released_again_after_a_period(rt: HostRuntime) -> Result<(), Fail> {
    let mut running = running(rt.alloc(), 5)?;
    assert_eq!(rt; running.release(0, 0), Ok(15));
    assert!(rt; wait(&mut running, 9));
    assert_eq!(rt; running.release(0, 0), Err(Refusal::TooSoon));
    let entry = Fault {
        refusal: Refusal::TooSoon,
        task: 0,
        tick: 14,
    };
    assert_eq!(rt; running.fault(0, 0), Ok(entry));
    assert!(rt; wait(&mut running, 1));
    assert_eq!(rt; running.release(0, 0), Ok(25));
    Ok(())
}

// start tick, partition, task, and the tick at which its job is due
const DUE: [(u64, u8, u8, u64); 5] = [
    (0, 0, 0, 10),
    (0, 0, 1, 19),
    (7, 1, 0, 17),
    (999_999_999_999, 0, 1, 1_000_000_000_018),
    (18_446_744_073_709_551_615, 0, 0, 1_000_000_000_010),
];

#[test]
fn due_ticks(rt: HostRuntime) -> Result<(), Fail> {
    for (start, partition, task, due) in DUE {
        let mut running = running(rt.alloc(), start)?;
        assert_eq!(rt; running.release(partition, task), Ok(due));
        assert_eq!(rt; running.release(partition, task), Err(Refusal::TooSoon));
    }
    Ok(())
}

// What the ticks 0 to 13 answer when each task is released at tick 0.
const TURNS: [Turn; 14] = [
    Turn::Ran(0, 0, Progress::Open),
    Turn::Ran(0, 0, Progress::Spent),
    Turn::Ran(0, 1, Progress::Open),
    Turn::Ran(0, 1, Progress::Open),
    Turn::Ran(1, 0, Progress::Spent),
    Turn::Spare,
    Turn::Spare,
    Turn::Spare,
    Turn::Spare,
    Turn::Spare,
    Turn::Ran(0, 1, Progress::Spent),
    Turn::Idle(0),
    Turn::Idle(0),
    Turn::Idle(0),
];

#[test]
fn turns(rt: HostRuntime) -> Result<(), Fail> {
    let mut running = running(rt.alloc(), 0)?;
    for (partition, task, due) in [(0, 1, 19), (0, 0, 10), (1, 0, 10)] {
        assert_eq!(rt; running.release(partition, task), Ok(due));
    }
    for turn in TURNS {
        assert_eq!(rt; running.tick(), Ok(turn));
    }
    Ok(())
}

// An end counts the ticks that the job ran, and closes it.
#[test]
fn ends_count(rt: HostRuntime) -> Result<(), Fail> {
    for ticks in 0..3u16 {
        let mut running = running(rt.alloc(), 0)?;
        assert_eq!(rt; running.release(0, 1), Ok(19));
        assert!(rt; wait(&mut running, u64::from(ticks)));
        assert_eq!(rt; running.end(0, 1), Ok(ticks));
        assert_eq!(rt; running.end(0, 1), Err(Refusal::NoOpenJob));
        assert_eq!(rt; running.tick(), Ok(Turn::Idle(0)));
    }
    Ok(())
}

// A spent job is closed already.
#[test]
fn spent_jobs_have_no_end(rt: HostRuntime) -> Result<(), Fail> {
    let mut running = running(rt.alloc(), 0)?;
    assert_eq!(rt; running.release(0, 1), Ok(19));
    assert!(rt; wait(&mut running, 3));
    assert_eq!(rt; running.end(0, 1), Err(Refusal::NoOpenJob));
    Ok(())
}
