// The times of a call that is made ten times over: the best tells most where other programs run beside this one.
ghost use Rattle.std.specs.Prelude.{IfOk};

use anyhow::anyhow;
use std::rt::Clock;
use std::time::Instant;

const CALLS: u32 = 10;

// In nanoseconds.
#[derive(Clone, Copy)]
pub(crate) struct Times {
    best: u128,
    sum: u128,
}

// What a call finds, and the times of ten more, each of which finds the same; `differs` says what it is if one does not.
pub(crate) fn timed<R: Copy + PartialEq, F: Fn() -> R>(
    rt: &impl Clock,
    differs: &str,
    call: F,
) -> anyhow::Result<(R, Times)>
    requires { F.IsAlwaysCallable call }
    ensures { IfOk result (λ t. F.post call t.0) }
{
    let found = call();
    let mut times = Times {
        best: u128::MAX,
        sum: 0,
    };
    for _ in 0..CALLS {
        let begun = Instant::now(rt)?;
        if call() != found {
            return Err(anyhow!("{differs}"));
        }
        let took = begun.elapsed(rt)?.as_nanos();
        times = Times {
            best: times.best.min(took),
            sum: times.sum.saturating_add(took),
        };
    }
    Ok((found, times))
}

impl Times {
    pub(crate) fn tell(self, rt: &impl Eprint, name: &str) -> anyhow::Result<()> {
        let (best, mean) = (self.best / 1000, self.sum / 1000 / u128::from(CALLS));
        eprintln!(rt; "{name}: {best} us at best, {mean} us in the mean")?;
        Ok(())
    }

    // How many times as long `all` calls of this kind take as one of the other, both at best.
    pub(crate) fn compare(
        self,
        rt: &impl Eprint,
        name: &str,
        all: u128,
        other: Times,
    ) -> anyhow::Result<()> {
        if let Some(ratio) = self.best.saturating_mul(all).checked_div(other.best) {
            eprintln!(rt; "{name}: {ratio} times as fast as the definition")?;
        }
        Ok(())
    }
}
