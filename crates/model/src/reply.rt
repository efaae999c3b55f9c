// What a running module replies to a call that it does not refuse.
ghost use Rattle.std.specs.Prelude.{Some};
ghost use Rattle.model.specs.Turns.{job_name, turn_text};

use crate::refusal::Fault;
use std::fmt;

// How a job stands after it has run a tick.
#[derive(Clone, Copy, PartialEq, Eq, Debug)]
pub enum Progress {
    Open,
    Spent,
}

impl fmt::Display for Progress {
    ghost output = { λ progress. Some (job_name progress) };

    fn fmt<W: fmt::Write>(&self, f: &mut fmt::Formatter<W>) -> fmt::Result {
        match self {
            Progress::Open => write!(f, "open"),
            Progress::Spent => write!(f, "spent"),
        }
    }
}

// What a tick comes to. A spare tick is nobody's. An idle tick names its owner, which has no open job; else its owner's
// task ran.
#[derive(Clone, Copy, PartialEq, Eq, Debug)]
pub enum Turn {
    Spare,
    Idle(u8),
    Ran(u8, u8, Progress),
}

// The owner, the task and how its job then stands, with `-` for none.
impl fmt::Display for Turn {
    ghost output = { λ turn. Some (turn_text turn) };

    fn fmt<W: fmt::Write>(&self, f: &mut fmt::Formatter<W>) -> fmt::Result {
        match self {
            Turn::Spare => write!(f, "- - -"),
            Turn::Idle(owner) => write!(f, "{owner} - -"),
            Turn::Ran(owner, task, progress) => write!(f, "{owner} {task} {progress}"),
        }
    }
}

// A tick replies its turn, a release the tick at which the job is due, an end how many ticks the job ran, a fault call the
// entry, and a clear how many entries there were and how many were lost.
#[derive(Clone, Copy, PartialEq, Eq, Debug)]
pub enum Reply {
    Turn(Turn),
    Due(u64),
    Count(u16),
    Entry(Fault),
    Emptied(u8, u16),
}
