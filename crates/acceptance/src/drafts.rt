// Drafts, on both sides of each limit.
use draft::{Draft, DraftRefusal};

// Cost, period and deadline, and whether they are within the limits.
const TASKS: [(u16, u16, u16, bool); 12] = [
    (1, 1, 1, true),
    (0, 1, 1, false),
    (2, 10, 10, true),
    (10, 10, 10, true),
    (11, 11, 10, false),
    (2, 10, 11, false),
    (1, 4096, 4096, true),
    (4096, 4096, 4096, true),
    (1, 4097, 4096, false),
    (4097, 4097, 4097, false),
    (65535, 65535, 65535, false),
    (0, 0, 0, false),
];

#[test]
fn tasks_within_limits(rt: HostRuntime) {
    for (cost, period, deadline, within) in TASKS {
        let mut draft = Draft::new(rt.alloc());
        assert_eq!(rt; draft.add_partition(), Ok(0));
        let want = if within {
            Ok(0)
        } else {
            Err(DraftRefusal::OutsideLimits)
        };
        assert_eq!(rt; draft.add_task(0, cost, period, deadline), want);
        assert_eq!(rt; draft.tasks(0).len(), usize::from(within));
    }
}

#[test]
fn ninth_partition(rt: HostRuntime) {
    let mut draft = Draft::new(rt.alloc());
    for number in 0..8u8 {
        assert_eq!(rt; draft.add_partition(), Ok(number));
    }
    assert_eq!(rt; draft.add_partition(), Err(DraftRefusal::TooManyPartitions));
    assert_eq!(rt; draft.partition_count(), 8);
    assert_eq!(rt; draft.add_task(7, 1, 1, 1), Ok(0));
    assert_eq!(rt;
        draft.add_task(8, 1, 1, 1),
        Err(DraftRefusal::NoSuchPartition)
    );
    assert_eq!(rt;
        draft.add_task(255, 0, 0, 0),
        Err(DraftRefusal::NoSuchPartition)
    );
}

// The seventeenth task is refused as such, whether it is within the limits or not.
#[test]
fn seventeenth_task(rt: HostRuntime) {
    let mut draft = Draft::new(rt.alloc());
    assert_eq!(rt; draft.add_partition(), Ok(0));
    assert_eq!(rt; draft.add_partition(), Ok(1));
    for number in 0..16u8 {
        assert_eq!(rt; draft.add_task(0, 1, 10, 10), Ok(number));
    }
    assert_eq!(rt;
        draft.add_task(0, 1, 10, 10),
        Err(DraftRefusal::TooManyTasks)
    );
    assert_eq!(rt; draft.add_task(0, 0, 0, 0), Err(DraftRefusal::TooManyTasks));
    assert_eq!(rt; draft.tasks(0).len(), 16);
    assert_eq!(rt; draft.add_task(1, 1, 10, 10), Ok(0));
    assert_eq!(rt; draft.tasks(1).len(), 1);
    assert_eq!(rt; draft.tasks(2).len(), 0);
}
