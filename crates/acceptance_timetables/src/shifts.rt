// Shifts of module A's windows, of other timetables, and of shifts.
use crate::lists::A;
use std::test::Fail;
use timetable::{ShareCycle, Shift, Timetable, WindowList};

const BY_SEVEN: [Option<u8>; 10] = [
    None,
    None,
    None,
    Some(0),
    Some(0),
    Some(0),
    Some(0),
    Some(1),
    None,
    None,
];

#[test]
fn module_a_by_seven(rt: HostRuntime) -> Result<(), Fail> {
    let table = Shift {
        below: WindowList::open(rt.alloc(), 10, &A)?,
        by: 7,
    };
    assert_eq!(rt; table.frame(), 10);
    for (place, want) in BY_SEVEN.iter().enumerate() {
        assert_eq!(rt; table.owner(place as u64), *want);
        assert_eq!(rt; table.owner(place as u64 + 1_000_000_000_000), *want);
    }
    Ok(())
}

#[test]
fn shift_of_a_shift(rt: HostRuntime) -> Result<(), Fail> {
    let table = Shift {
        below: Shift {
            below: WindowList::open(rt.alloc(), 10, &A)?,
            by: 4,
        },
        by: 3,
    };
    for (place, want) in BY_SEVEN.iter().enumerate() {
        assert_eq!(rt; table.owner(place as u64), *want);
    }
    Ok(())
}

const LONGEST: [(u16, u64, Option<u8>); 5] = [
    (65_535, 0, None),
    (65_535, 5, Some(0)),
    (65_535, 9, Some(1)),
    (65_535, 18_446_744_073_709_551_615, Some(0)),
    (0, 18_446_744_073_709_551_614, Some(1)),
];

#[test]
fn shifts_at_the_ends(rt: HostRuntime) -> Result<(), Fail> {
    for (by, tick, want) in LONGEST {
        let below = WindowList::open(rt.alloc(), 10, &A)?;
        assert_eq!(rt; Shift { below, by }.owner(tick), want);
    }
    let one = Shift {
        below: ShareCycle::open(1, [0, 0, 0, 0, 0, 0, 0, 1]),
        by: 65_535,
    };
    assert_eq!(rt; one.owner(18_446_744_073_709_551_615), Some(7));
    let longest = Shift {
        below: ShareCycle::open(1024, [128; 8]),
        by: 65_535,
    };
    assert_eq!(rt; longest.owner(0), Some(7));
    assert_eq!(rt; longest.owner(1), Some(0));
    Ok(())
}
