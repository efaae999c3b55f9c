// Window lists: whom each place belongs to, and what a refused list opens as.
use model::Window;
use std::alloc::{AllocError, Global};
use std::test::Fail;
use timetable::{Timetable, WindowList, supply};

// Module A's windows: (0, 0, 4) and (1, 4, 1) in a frame of 10.
pub const A: [Window; 2] = [
    Window {
        partition: 0,
        start: 0,
        length: 4,
    },
    Window {
        partition: 1,
        start: 4,
        length: 1,
    },
];

const OWNERS: [(u64, Option<u8>); 9] = [
    (0, Some(0)),
    (3, Some(0)),
    (4, Some(1)),
    (5, None),
    (9, None),
    (10, Some(0)),
    (1_000_000_000_004, Some(1)),
    (18_446_744_073_709_551_610, Some(0)),
    (18_446_744_073_709_551_615, None),
];

#[test]
fn module_a(rt: HostRuntime) -> Result<(), Fail> {
    let table = WindowList::open(rt.alloc(), 10, &A)?;
    assert_eq!(rt; table.frame(), 10);
    for (tick, want) in OWNERS {
        assert_eq!(rt; table.owner(tick), want);
    }
    Ok(())
}

#[test]
fn supply_of_module_a(rt: HostRuntime) -> Result<(), Fail> {
    let table = WindowList::open(rt.alloc(), 10, &A)?;
    for (length, want) in [(0, 0), (6, 0), (7, 1), (10, 4), (19, 7), (65_535, 26_212)] {
        assert_eq!(rt; supply(&table, 0, 4, length), want);
    }
    assert_eq!(rt; supply(&table, 0, 18_446_744_073_709_551_615, 10), 4);
    assert_eq!(rt; supply(&table, 2, 0, 10), 0);
    Ok(())
}

// 64 windows of 8 places, 8 places apart, partition by partition.
fn striped(heap: Global) -> Result<Vec<Window>, AllocError> {
    (0..64u16)
        .map(|i| Window {
            partition: (i % 8) as u8,
            start: 16 * i,
            length: 8,
        })
        .collect(heap)
}

#[test]
fn sixty_four_windows(rt: HostRuntime) -> Result<(), Fail> {
    let windows = striped(rt.alloc())?;
    let table = WindowList::open(rt.alloc(), 1024, windows.as_slice())?;
    for place in 0..1024u64 {
        let want = (place % 16 < 8).then_some((place / 16 % 8) as u8);
        assert_eq!(rt; table.owner(place), want);
        assert_eq!(rt; table.owner(place + 1024 * 1_000_000), want);
    }
    Ok(())
}

#[test]
fn refused_list_is_the_bare_frame(rt: HostRuntime) -> Result<(), Fail> {
    for frame in [0, 4, 1025] {
        let table = WindowList::open(rt.alloc(), frame, &A)?;
        assert_eq!(rt; table.frame(), 1);
        assert_eq!(rt; table.owner(0), None);
        assert_eq!(rt; table.owner(18_446_744_073_709_551_615), None);
    }
    let shortest = WindowList::open(rt.alloc(), 5, &A)?;
    assert_eq!(rt; shortest.frame(), 5);
    let one = WindowList::open(rt.alloc(), 1, &[])?;
    assert_eq!(rt; one.frame(), 1);
    Ok(())
}
