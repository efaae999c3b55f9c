// Share cycles: the check on both sides of its limits, and whom each place belongs to.
use timetable::{CycleRefusal, ShareCycle, Timetable};

const CHECKS: [(u16, [u16; 8], Result<(), CycleRefusal>); 10] = [
    (10, [4, 1, 0, 0, 0, 0, 0, 0], Ok(())),
    (5, [4, 1, 0, 0, 0, 0, 0, 0], Ok(())),
    (
        4,
        [4, 1, 0, 0, 0, 0, 0, 0],
        Err(CycleRefusal::TooManyShares),
    ),
    (1, [0; 8], Ok(())),
    (0, [0; 8], Err(CycleRefusal::FrameLength)),
    (0, [65_535; 8], Err(CycleRefusal::FrameLength)),
    (1024, [128; 8], Ok(())),
    (1025, [128; 8], Err(CycleRefusal::FrameLength)),
    (1024, [65_535; 8], Err(CycleRefusal::TooManyShares)),
    (1024, [8_192; 8], Err(CycleRefusal::TooManyShares)),
];

#[test]
fn checks(rt: HostRuntime) {
    for (frame, shares, want) in CHECKS {
        assert_eq!(rt; ShareCycle::check(frame, shares), want);
        let table = ShareCycle::open(frame, shares);
        assert_eq!(rt; table.frame(), want.map_or(1, |()| frame));
    }
    assert_eq!(rt; CycleRefusal::FrameLength.number(), 51);
    assert_eq!(rt; CycleRefusal::TooManyShares.number(), 55);
}

const OWNERS: [(u16, [u16; 8], u64, Option<u8>); 13] = [
    (10, [4, 1, 0, 0, 0, 0, 0, 0], 3, Some(0)),
    (10, [4, 1, 0, 0, 0, 0, 0, 0], 4, Some(1)),
    (10, [4, 1, 0, 0, 0, 0, 0, 0], 5, None),
    (10, [4, 1, 0, 0, 0, 0, 0, 0], 13, Some(0)),
    (3, [0, 0, 1, 0, 0, 0, 0, 2], 0, Some(2)),
    (3, [0, 0, 1, 0, 0, 0, 0, 2], 1, Some(7)),
    (
        1,
        [0, 1, 0, 0, 0, 0, 0, 0],
        18_446_744_073_709_551_615,
        Some(1),
    ),
    (1, [0; 8], 18_446_744_073_709_551_615, None),
    (1024, [128; 8], 127, Some(0)),
    (1024, [128; 8], 128, Some(1)),
    (1024, [128; 8], 18_446_744_073_709_551_615, Some(7)),
    (4, [4, 1, 0, 0, 0, 0, 0, 0], 0, None),
    (1024, [8_192; 8], 0, None),
];

#[test]
fn owners(rt: HostRuntime) {
    for (frame, shares, tick, want) in OWNERS {
        assert_eq!(rt; ShareCycle::open(frame, shares).owner(tick), want);
    }
}
