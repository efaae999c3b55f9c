// Why a call of a running module is refused.
ghost use Rattle.std.specs.Prelude.{◌≡◌};
ghost use Rattle.model.specs.Refusals.{number};

// Each has its number in the table of refusals.
#[derive(Clone, Copy, PartialEq, Eq, Debug)]
pub enum Refusal {
    NotCleared = 30,
    NoSuchPartition = 31,
    NoSuchTask = 32,
    TooSoon = 33,
    NoOpenJob = 34,
    NoSuchFault = 35,
    LastTick = 41,
}

impl Refusal {
    // The number in the table of refusals.
    pub fn number(self) -> u8
        ensures { result ≡ number self }
    {
        self as u8
    }
}

// A fault entry: why a task's call was refused, the task's number, and the tick.
#[derive(Clone, Copy, PartialEq, Eq, Debug)]
pub struct Fault {
    pub refusal: Refusal,
    pub task: u8,
    pub tick: u64,
}
