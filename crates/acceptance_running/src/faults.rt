// Refused calls, the fault entries that they leave, and the lost count.
use crate::module_a::running;
use model::{Fault, Refusal};
use std::test::Fail;

// Why the end of a task of partition 0 is refused where no job is open.
fn refusal(task: u8) -> Refusal {
    if task < 2 {
        Refusal::NoOpenJob
    } else {
        Refusal::NoSuchTask
    }
}

// Nine refused ends: eight entries, oldest first, and one lost.
#[test]
fn nine_faults(rt: HostRuntime) -> Result<(), Fail> {
    let mut running = running(rt.alloc(), 6)?;
    for task in 0..9u8 {
        assert_eq!(rt; running.end(0, task), Err(refusal(task)));
    }
    for task in 0..8u8 {
        let entry = Fault {
            refusal: refusal(task),
            task,
            tick: 6,
        };
        assert_eq!(rt; running.fault(0, task), Ok(entry));
    }
    assert_eq!(rt; running.fault(0, 8), Err(Refusal::NoSuchFault));
    assert_eq!(rt; running.clear(1), Ok((0, 0)));
    assert_eq!(rt; running.clear(0), Ok((8, 1)));
    assert_eq!(rt; running.fault(0, 0), Err(Refusal::NoSuchFault));
    assert_eq!(rt; running.clear(0), Ok((0, 0)));
    Ok(())
}

// No partition 2: refused, and no partition has an entry of it.
#[test]
fn no_such_partition(rt: HostRuntime) -> Result<(), Fail> {
    let mut running = running(rt.alloc(), 0)?;
    for partition in [2, 8, 255] {
        assert_eq!(rt;
            running.release(partition, 255),
            Err(Refusal::NoSuchPartition)
        );
        assert_eq!(rt; running.end(partition, 255), Err(Refusal::NoSuchPartition));
        assert_eq!(rt;
            running.fault(partition, 255),
            Err(Refusal::NoSuchPartition)
        );
        assert_eq!(rt; running.clear(partition), Err(Refusal::NoSuchPartition));
    }
    assert_eq!(rt; running.clear(0), Ok((0, 0)));
    assert_eq!(rt; running.clear(1), Ok((0, 0)));
    Ok(())
}

#[test]
fn no_such_task(rt: HostRuntime) -> Result<(), Fail> {
    let mut running = running(rt.alloc(), 0)?;
    for (partition, task) in [(0, 2), (0, 255), (1, 1), (1, 16)] {
        assert_eq!(rt; running.release(partition, task), Err(Refusal::NoSuchTask));
        assert_eq!(rt; running.end(partition, task), Err(Refusal::NoSuchTask));
    }
    assert_eq!(rt; running.clear(0), Ok((4, 0)));
    assert_eq!(rt; running.clear(1), Ok((4, 0)));
    Ok(())
}

// how many ends are refused, and how many of the faults are lost
const LOST: [(u32, u8, u16); 5] = [
    (7, 7, 0),
    (8, 8, 0),
    (65_542, 8, 65_534),
    (65_543, 8, 65_535),
    (65_545, 8, 65_535),
];

#[test]
fn lost_counts(rt: HostRuntime) -> Result<(), Fail> {
    let mut running = running(rt.alloc(), 0)?;
    for (ends, entries, lost) in LOST {
        for _ in 0..ends {
            assert_eq!(rt; running.end(1, 0), Err(Refusal::NoOpenJob));
        }
        assert_eq!(rt; running.clear(1), Ok((entries, lost)));
    }
    Ok(())
}
