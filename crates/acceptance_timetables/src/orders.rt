// The listed and the deadline order, and the choice by either.
use model::{Task, TaskRecord};
use order::{ByDeadline, Listed, LocalOrder, first};

pub(crate) const fn record(number: u8, deadline: u16) -> TaskRecord {
    TaskRecord {
        number,
        task: Task {
            cost: 1,
            period: 4096,
            deadline,
        },
    }
}

// two tasks by number and deadline, and whether the first goes before the second: as listed, and by deadline
const PAIRS: [((u8, u16), (u8, u16), bool, bool); 6] = [
    ((0, 10), (1, 10), true, true),
    ((1, 10), (0, 10), false, false),
    ((0, 11), (1, 10), true, false),
    ((1, 10), (0, 11), false, true),
    ((15, 1), (0, 4096), false, true),
    ((3, 7), (3, 7), false, false),
];

#[test]
fn pairs(rt: HostRuntime) {
    for (a, b, listed, by_deadline) in PAIRS {
        let (one, other) = (record(a.0, a.1), record(b.0, b.1));
        assert_eq!(rt;
            Listed.before(Listed.key(0, one), Listed.key(0, other)),
            listed
        );
        let keys = (ByDeadline.key(7, one), ByDeadline.key(7, other));
        assert_eq!(rt; ByDeadline.before(keys.0, keys.1), by_deadline);
    }
}

#[test]
fn choices(rt: HostRuntime) {
    let tasks = [record(2, 9), record(1, 12), record(5, 9), record(3, 30)];
    assert_eq!(rt; first(&Listed, 0, &tasks).map(|task| task.number), Some(1));
    assert_eq!(rt;
        first(&ByDeadline, 0, &tasks).map(|task| task.number),
        Some(2)
    );
    assert_eq!(rt; first(&Listed, 0, &[]).map(|task| task.number), None);
}
