// Verdicts on module A and on its neighbours.
use crate::modules::{A, EXCHANGED, TIGHT, Tasks, draft_of, window};
use analysis::{examine, failing_start, verdict};
use model::{LateTask, Verdict};
use order::{ByDeadline, Listed};
use std::test::Fail;
use timetable::WindowList;

// Partition 0's task 1 fails first at start 2, and at start 0.
const FROM_TWO: Verdict = Verdict::Late(LateTask {
    partition: 0,
    task: 1,
    start: 2,
});

const FROM_ZERO: Verdict = Verdict::Late(LateTask {
    partition: 0,
    task: 1,
    start: 0,
});

// a module, and its verdict in listed and in deadline order on module A's windows
const VERDICTS: [(&[Tasks], Verdict, Verdict); 3] = [
    (&A, Verdict::Cleared, Verdict::Cleared),
    (&TIGHT, FROM_TWO, FROM_TWO),
    (&EXCHANGED, FROM_ZERO, Verdict::Cleared),
];

#[test]
fn neighbours_of_module_a(rt: HostRuntime) -> Result<(), Fail> {
    for (partitions, listed, by_deadline) in VERDICTS {
        let draft = draft_of(rt.alloc(), partitions)?;
        let table = WindowList::open(rt.alloc(), 10, &[window(0, 0, 4), window(1, 4, 1)])?;
        assert_eq!(rt; verdict(&draft, &table, &Listed), listed);
        assert_eq!(rt; examine(&draft, &table, &Listed).verdict(), listed);
        assert_eq!(rt; verdict(&draft, &table, &ByDeadline), by_deadline);
    }
    Ok(())
}

// Place 5 is the first that belongs to a partition which the module lacks, whether all tasks are in time or not.
#[test]
fn foreign_places(rt: HostRuntime) -> Result<(), Fail> {
    let windows = [
        window(0, 0, 4),
        window(1, 4, 1),
        window(2, 5, 1),
        window(7, 9, 1),
    ];
    for (partitions, _, _) in VERDICTS {
        let draft = draft_of(rt.alloc(), partitions)?;
        let table = WindowList::open(rt.alloc(), 10, &windows)?;
        assert_eq!(rt; verdict(&draft, &table, &Listed), Verdict::Foreign(5));
        assert_eq!(rt; verdict(&draft, &table, &ByDeadline), Verdict::Foreign(5));
    }
    Ok(())
}

// a partition and a task, and its earliest failing start: with deadline 18, and with the tasks exchanged, in listed and in
// deadline order; a task that is not there fails at once
const FAILING: [(u8, u8, Option<u16>, Option<u16>, Option<u16>); 6] = [
    (0, 0, None, None, None),
    (0, 1, Some(2), Some(0), None),
    (0, 2, Some(0), Some(0), Some(0)),
    (1, 0, None, None, None),
    (1, 255, Some(0), Some(0), Some(0)),
    (2, 0, Some(0), Some(0), Some(0)),
];

#[test]
fn earliest_failing_starts(rt: HostRuntime) -> Result<(), Fail> {
    let tight = draft_of(rt.alloc(), &TIGHT)?;
    let exchanged = draft_of(rt.alloc(), &EXCHANGED)?;
    let table = WindowList::open(rt.alloc(), 10, &[window(0, 0, 4), window(1, 4, 1)])?;
    for (p, task, late, listed, by_deadline) in FAILING {
        assert_eq!(rt; failing_start(&tight, &table, &Listed, p, task), late);
        assert_eq!(rt; failing_start(&exchanged, &table, &Listed, p, task), listed);
        assert_eq!(rt;
            failing_start(&exchanged, &table, &ByDeadline, p, task),
            by_deadline
        );
    }
    Ok(())
}
