// Draft, sealed, running: what each state refuses and what it gives back.
use crate::module_a::{running, sealed, started, wait};
use executive::seal;
use model::{LateTask, Refusal, Verdict};
use std::test::Fail;
use timetable::Timetable;

const TIGHT: Verdict = Verdict::Late(LateTask {
    partition: 0,
    task: 1,
    start: 2,
});

// With deadline 18 for 19 the module is sealed and started, and takes no call.
#[test]
fn not_cleared(rt: HostRuntime) -> Result<(), Fail> {
    let sealed = sealed(rt.alloc(), 18)?;
    assert_eq!(rt; sealed.verdict(), TIGHT);
    let mut running = started(sealed, rt.alloc(), 1_000_000_000_000)?;
    for (partition, task) in [(0, 0), (0, 0), (0, 1), (1, 255), (255, 0)] {
        assert_eq!(rt; running.tick(), Err(Refusal::NotCleared));
        assert_eq!(rt; running.release(partition, task), Err(Refusal::NotCleared));
        assert_eq!(rt; running.end(partition, task), Err(Refusal::NotCleared));
        assert_eq!(rt; running.fault(partition, task), Err(Refusal::NotCleared));
        assert_eq!(rt; running.clear(partition), Err(Refusal::NotCleared));
    }
    assert_eq!(rt; running.stop().verdict(), TIGHT);
    Ok(())
}

// A stopped module starts anew: no job, no release and no fault is left.
#[test]
fn stopped_and_started(rt: HostRuntime) -> Result<(), Fail> {
    let mut first = running(rt.alloc(), 0)?;
    assert_eq!(rt; first.release(0, 0), Ok(10));
    assert_eq!(rt; first.release(0, 2), Err(Refusal::NoSuchTask));
    assert!(rt; wait(&mut first, 1));
    let sealed = first.stop();
    assert_eq!(rt; sealed.verdict(), Verdict::Cleared);
    let mut second = started(sealed, rt.alloc(), 5)?;
    assert_eq!(rt; second.fault(0, 0), Err(Refusal::NoSuchFault));
    assert_eq!(rt; second.end(0, 0), Err(Refusal::NoOpenJob));
    assert_eq!(rt; second.release(0, 0), Ok(15));
    Ok(())
}

// A sealed module gives back its draft and its timetable; with one task more partition 1 is not in time.
#[test]
fn reopened(rt: HostRuntime) -> Result<(), Fail> {
    let (mut draft, table, dispatch) = sealed(rt.alloc(), 19)?.reopen();
    assert_eq!(rt; draft.partition_count(), 2);
    assert_eq!(rt; draft.tasks(0).len(), 2);
    assert_eq!(rt; table.frame(), 10);
    assert_eq!(rt; table.owner(4), Some(1));
    draft.add_task(1, 1, 10, 10)?;
    let again = seal(draft, table, dispatch.order);
    let want = Verdict::Late(LateTask {
        partition: 1,
        task: 1,
        start: 0,
    });
    assert_eq!(rt; again.verdict(), want);
    Ok(())
}
