// Window lists, on both sides of each limit.
use crate::window::window;
use model::Window;
use std::alloc::{AllocError, Global};
use std::test::Fail;
use windows::{WindowRefusal, check_list};

#[test]
fn single_windows(rt: HostRuntime) {
    let misplaced = Err(WindowRefusal::Misplaced { window: 0 });
    for (frame, only, want) in [
        (10, window(0, 0, 10), Ok(())),
        (10, window(0, 0, 11), misplaced),
        (10, window(7, 9, 1), Ok(())),
        (10, window(8, 9, 1), misplaced),
        (10, window(255, 0, 1), misplaced),
        (10, window(0, 10, 1), misplaced),
        (10, window(0, 0, 0), misplaced),
        (1024, window(0, 1023, 1), Ok(())),
        (1024, window(0, 65535, 65535), misplaced),
        (1025, window(0, 0, 1), Err(WindowRefusal::FrameLength)),
    ] {
        assert_eq!(rt;
            check_list(frame, &[only]),
            want,
            "{only:?} in a frame of {frame}"
        );
    }
}

#[test]
fn frames(rt: HostRuntime) {
    for (frame, want) in [
        (0, Err(WindowRefusal::FrameLength)),
        (1, Ok(())),
        (1024, Ok(())),
        (1025, Err(WindowRefusal::FrameLength)),
        (65535, Err(WindowRefusal::FrameLength)),
    ] {
        assert_eq!(rt; check_list(frame, &[]), want, "a frame of {frame}");
    }
}

// A window begins where the one before it ends, or later; of two faults the earlier window's comes first.
#[test]
fn neighbours(rt: HostRuntime) {
    assert_eq!(rt; check_list(10, &[window(0, 0, 4), window(1, 4, 1)]), Ok(()));
    assert_eq!(rt;
        check_list(10, &[window(0, 0, 4), window(1, 3, 1)]),
        Err(WindowRefusal::Overlap { window: 1 })
    );
    assert_eq!(rt;
        check_list(10, &[window(0, 4, 1), window(1, 0, 4)]),
        Err(WindowRefusal::Overlap { window: 1 })
    );
    assert_eq!(rt; check_list(10, &[window(0, 0, 2), window(0, 2, 2)]), Ok(()));
    assert_eq!(rt;
        check_list(10, &[window(0, 0, 4), window(8, 3, 1)]),
        Err(WindowRefusal::Misplaced { window: 1 })
    );
    assert_eq!(rt;
        check_list(10, &[window(0, 0, 4), window(1, 3, 1), window(8, 9, 1)]),
        Err(WindowRefusal::Overlap { window: 1 })
    );
}

// Windows of one tick, end to end; the one at `bad` has no length.
fn end_to_end(heap: Global, count: u16, bad: u16) -> Result<Vec<Window>, AllocError> {
    (0..count)
        .map(|i| window(0, i, if i == bad { 0 } else { 1 }))
        .collect(heap)
}

// A list of more than 64 windows is refused as such, whatever its windows are.
#[test]
fn sixty_fifth_window(rt: HostRuntime) -> Result<(), Fail> {
    for (frame, count, bad, want) in [
        (65, 64, 64, Ok(())),
        (65, 65, 65, Err(WindowRefusal::TooManyWindows)),
        (0, 65, 65, Err(WindowRefusal::FrameLength)),
        (65, 65, 3, Err(WindowRefusal::TooManyWindows)),
        (65, 64, 3, Err(WindowRefusal::Misplaced { window: 3 })),
    ] {
        let list = end_to_end(rt.alloc(), count, bad)?;
        assert_eq!(rt;
            check_list(frame, list.as_slice()),
            want,
            "{count} windows, number {bad} of no length"
        );
    }
    Ok(())
}
