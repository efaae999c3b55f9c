// The timetable and the order that an airframe maker added.
use crate::orders::record;
use order::LocalOrder;
use rank_table::RankTable;
use round_robin::RoundRobin;
use std::test::Fail;
use timetable::{Shift, Timetable, supply};

#[test]
fn turns(rt: HostRuntime) -> Result<(), Fail> {
    let Some(table) = RoundRobin::new(3, 4) else {
        return Err(Fail::new("turns that fit were refused"));
    };
    assert_eq!(rt; table.frame(), 12);
    for (tick, want) in [
        (0, 0),
        (3, 0),
        (4, 1),
        (11, 2),
        (12, 0),
        (18_446_744_073_709_551_615, 0),
    ] {
        assert_eq!(rt; table.owner(tick), Some(want));
    }
    assert_eq!(rt; supply(&table, 1, 0, 24), 8);
    let later = Shift {
        below: table,
        by: 4,
    };
    assert_eq!(rt; later.owner(0), Some(1));
    Ok(())
}

#[test]
fn turns_that_do_not_fit(rt: HostRuntime) {
    for (partitions, turn) in [(0, 1), (9, 1), (1, 0), (1, 1025), (8, 129), (8, 65_535)] {
        assert!(rt; RoundRobin::new(partitions, turn).is_none());
    }
    for (partitions, turn) in [(1, 1), (1, 1024), (8, 128)] {
        assert!(rt; RoundRobin::new(partitions, turn).is_some());
    }
}

const RANKS: [u8; 16] = [15, 14, 13, 12, 11, 10, 9, 8, 7, 6, 5, 4, 3, 2, 1, 0];

#[test]
fn ranks(rt: HostRuntime) -> Result<(), Fail> {
    let Some(order) = RankTable::new([RANKS; 8]) else {
        return Err(Fail::new("ranks that differ were refused"));
    };
    let (low, high) = (record(0, 10), record(1, 10));
    assert!(rt; order.before(order.key(7, high), order.key(7, low)));
    assert!(rt; !order.before(order.key(7, low), order.key(7, high)));
    assert!(rt; !order.before(order.key(8, low), order.key(8, high)));
    Ok(())
}

#[test]
fn shared_ranks(rt: HostRuntime) {
    let mut shared = [RANKS; 8];
    shared[7][15] = 15;
    assert!(rt; RankTable::new(shared).is_none());
    assert!(rt; RankTable::new([[0; 16]; 8]).is_none());
}
