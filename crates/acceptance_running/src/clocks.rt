// Both ends of the clock.
use crate::module_a::running;
use executive::Turn;
use model::Refusal;
use std::test::Fail;

#[test]
fn starts_at_or_past_the_last_tick(rt: HostRuntime) -> Result<(), Fail> {
    for start in [
        1_000_000_000_000,
        1_000_000_000_001,
        18_446_744_073_709_551_615,
    ] {
        let mut running = running(rt.alloc(), start)?;
        assert_eq!(rt; running.tick(), Err(Refusal::LastTick));
        assert_eq!(rt; running.release(1, 0), Ok(1_000_000_000_010));
        assert_eq!(rt; running.tick(), Err(Refusal::LastTick));
        assert_eq!(rt; running.end(1, 0), Ok(0));
    }
    Ok(())
}

#[test]
fn one_tick_is_left(rt: HostRuntime) -> Result<(), Fail> {
    let mut running = running(rt.alloc(), 999_999_999_999)?;
    assert_eq!(rt; running.tick(), Ok(Turn::Spare));
    assert_eq!(rt; running.tick(), Err(Refusal::LastTick));
    assert_eq!(rt; running.release(0, 0), Ok(1_000_000_000_010));
    Ok(())
}

// The first tick is place 0 of the frame.
#[test]
fn tick_zero(rt: HostRuntime) -> Result<(), Fail> {
    let mut running = running(rt.alloc(), 0)?;
    assert_eq!(rt; running.tick(), Ok(Turn::Idle(0)));
    Ok(())
}
