// Shortest windows, and what a plan and a refusal leave of the list.
use crate::modules::{A, EXCHANGED, TIGHT, Tasks, draft_of, window};
use model::Window;
use order::{ByDeadline, Listed};
use planner::{PlanRefusal, shortest_windows};
use std::iter;
use std::test::Fail;

const UNTOUCHED: Window = Window {
    partition: 9,
    start: 9,
    length: 9,
};

// Whether a list has the windows that are wanted as (partition, start, length), and then as many untouched ones as it has left.
fn is_list(list: &[Window], wanted: &[(u8, u16, u16)]) -> bool {
    let wanted = wanted
        .iter()
        .map(|(partition, start, length)| window(*partition, *start, *length))
        .chain(iter::repeat(UNTOUCHED));
    list.iter()
        .zip(wanted)
        .all(|(window, want)| *window == want)
}

// partitions, a frame, and the windows
const PLANS: [(&[Tasks], u16, &[(u8, u16, u16)]); 9] = [
    (&A, 10, &[(0, 0, 4), (1, 4, 1)]),
    (&TIGHT, 10, &[(0, 0, 5), (1, 5, 1)]),
    (&EXCHANGED, 10, &[(0, 0, 5), (1, 5, 1)]),
    (&[&[(1, 80, 80), (2, 120, 120)]], 57, &[(0, 0, 2)]),
    (&[&[(1, 10, 10)]], 10, &[(0, 0, 1)]),
    (&[&[(1, 10, 9)]], 10, &[(0, 0, 2)]),
    (&[&[(2, 4, 4)], &[(2, 4, 4)]], 4, &[(0, 0, 2), (1, 2, 2)]),
    (
        &[&[], &[(1, 10, 10)], &[], &[(1, 10, 9)], &[]],
        10,
        &[(1, 0, 1), (3, 1, 2)],
    ),
    (&[], 1024, &[]),
];

#[test]
fn plans(rt: HostRuntime) -> Result<(), Fail> {
    for (partitions, frame, wanted) in PLANS {
        let draft = draft_of(rt.alloc(), partitions)?;
        let mut list = [UNTOUCHED; 9];
        let count = shortest_windows(&draft, &Listed, frame, &mut list)?;
        assert_eq!(rt; usize::from(count), wanted.len());
        assert!(rt; is_list(&list, wanted));
    }
    Ok(())
}

#[test]
fn plan_in_deadline_order(rt: HostRuntime) -> Result<(), Fail> {
    let draft = draft_of(rt.alloc(), &EXCHANGED)?;
    let mut list = [UNTOUCHED; 8];
    assert_eq!(rt; shortest_windows(&draft, &ByDeadline, 10, &mut list), Ok(2));
    assert!(rt; is_list(&list, &[(0, 0, 4), (1, 4, 1)]));
    Ok(())
}

// Two partitions that together need 5 ticks of 4, and one that needs them alone.
const APART: [Tasks; 2] = [&[(2, 4, 4)], &[(3, 4, 4)]];

const TOGETHER: [Tasks; 1] = [&[(2, 4, 4), (3, 4, 4)]];

const AFTER_OTHERS: [Tasks; 4] = [
    &[(2, 4, 4)],
    &[(3, 4, 4)],
    &[(2, 4, 4), (3, 4, 4)],
    &[(2, 4, 4), (3, 4, 4)],
];

// partitions, a frame, how many places the list has, and the refusal
const REFUSALS: [(&[Tasks], u16, usize, PlanRefusal); 11] = [
    (&APART, 4, 9, PlanRefusal::ExceedsFrame),
    (&TOGETHER, 4, 9, PlanRefusal::Infeasible { partition: 0 }),
    (
        &AFTER_OTHERS,
        4,
        9,
        PlanRefusal::Infeasible { partition: 2 },
    ),
    (&A, 0, 9, PlanRefusal::FrameLength),
    (&A, 1025, 9, PlanRefusal::FrameLength),
    (&A, 65_535, 0, PlanRefusal::FrameLength),
    (&TOGETHER, 0, 7, PlanRefusal::FrameLength),
    (&TOGETHER, 4, 7, PlanRefusal::ShortList),
    (&APART, 4, 7, PlanRefusal::ShortList),
    (&A, 10, 0, PlanRefusal::ShortList),
    (&TOGETHER, 4, 8, PlanRefusal::Infeasible { partition: 0 }),
];

#[test]
fn refusals(rt: HostRuntime) -> Result<(), Fail> {
    for (partitions, frame, places, refusal) in REFUSALS {
        let draft = draft_of(rt.alloc(), partitions)?;
        let mut list = vec![in rt.alloc(); UNTOUCHED; places]?;
        let plan = shortest_windows(&draft, &Listed, frame, list.as_mut_slice());
        assert_eq!(rt; plan, Err(refusal));
        assert_eq!(rt; list.len(), places);
        assert!(rt; is_list(list.as_slice(), &[]));
    }
    Ok(())
}

#[test]
fn numbers(rt: HostRuntime) {
    assert_eq!(rt; PlanRefusal::FrameLength.number(), 51);
    assert_eq!(rt; PlanRefusal::Infeasible { partition: 7 }.number(), 61);
    assert_eq!(rt; PlanRefusal::ExceedsFrame.number(), 62);
    assert_eq!(rt; PlanRefusal::ShortList.number(), 63);
}
