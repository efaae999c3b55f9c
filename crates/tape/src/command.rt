// The commands of a tape, and whose turn it is. A command is one byte with operands of fixed width, high byte first.
ghost use Rattle.std.specs.Prelude.{◌≡◌, ◌++◌, true, Some, IfOk, Ok, Err, MatchResult};
ghost use Rattle.tape.specs.Commands.{bytes};
ghost use Rattle.tape.specs.Decode.{command, admits, operands, in_turn};
ghost use Rattle.tape.specs.Faults.{tape_number};

use crate::fault::TapeFault;
use model::{Task, Window};
use std::fmt;

#[derive(Clone, Copy, PartialEq, Eq, Debug)]
pub enum Command {
    Partition,
    Task(Task),
    Frame(u16),
    Window(Window),
    End,
}

impl From<Task> for Command {
    ghost use Rattle.std.specs.Prelude.{◌≡◌};
    ghost use Rattle.tape.specs.declared.command.Command.TheVariants.{Task as task};

    ghost from_gives = { λ k c. c ≡ task k };

    fn from(task: Task) -> Command {
        Command::Task(task)
    }
}

impl From<Window> for Command {
    ghost use Rattle.std.specs.Prelude.{◌≡◌};
    ghost use Rattle.tape.specs.declared.command.Command.TheVariants.{Window as window};

    ghost from_gives = { λ w c. c ≡ window w };

    fn from(window: Window) -> Command {
        Command::Window(window)
    }
}

impl fmt::Display for Command {
    ghost use Rattle.std.specs.Prelude.{Some};
    ghost use Rattle.tape.specs.Text.{printed};

    ghost output = { λ c. Some (printed c) };

    fn fmt<W: fmt::Write>(&self, f: &mut fmt::Formatter<W>) -> fmt::Result {
        match self {
            Command::Partition => write!(f, "partition"),
            Command::Task(
                Task {
                    cost,
                    period,
                    deadline,
                },
            ) => write!(f, "task {cost} {period} {deadline}"),
            Command::Frame(frame) => write!(f, "frame {frame}"),
            Command::Window(
                Window {
                    partition,
                    start,
                    length,
                },
            ) => write!(f, "window {partition} {start} {length}"),
            Command::End => write!(f, "end"),
        }
    }
}

// Where a tape stands, by what came last. A command that may only follow a task would find its place here.
#[derive(Clone, Copy, PartialEq, Eq, Debug)]
pub enum Turn {
    Start,
    AfterPartition,
    AfterTask,
    AfterFrame,
}

impl Turn {
    // 72 where there is no such command, 73 where it is out of its turn.
    fn check(self, command: u8) -> Result<(), TapeFault>
        ensures { MatchResult result (λ _. admits self command ≡ Some true) (λ e. (r : _) → in_turn (admits self command) r ≡ Err (tape_number e)) }
    {
        let in_turn = match command {
            0x50 | 0x46 => !matches!(self, Turn::AfterFrame),
            0x54 => matches!(self, Turn::AfterPartition | Turn::AfterTask),
            0x57 | 0x45 => matches!(self, Turn::AfterFrame),
            _ => return Err(TapeFault::UnknownCommand),
        };
        if in_turn {
            Ok(())
        } else {
            Err(TapeFault::OutOfTurn)
        }
    }
}

// A command with its operands, and what follows it; 71 where the tape stops inside it.
fn operands(tape: &[u8]) -> Result<(Command, &[u8]), TapeFault>
    ensures answer { MatchResult result (λ p. operands tape.now ≡ Ok (p.0, p.1.now)) (λ e. operands tape.now ≡ Err (tape_number e)) }
    ensures bytes { IfOk result (λ p. tape.now ≡ bytes p.0 ++ p.1.now) }
{
    let word = |high: &u8, low: &u8| u16::from_be_bytes([*high, *low]);
    match tape {
        [0x50, rest @ ..] => Ok((Command::Partition, rest)),
        [0x54, c1, c0, t1, t0, d1, d0, rest @ ..] => {
            let task = Task {
                cost: word(c1, c0),
                period: word(t1, t0),
                deadline: word(d1, d0),
            };
            Ok((Command::Task(task), rest))
        }
        [0x46, f1, f0, rest @ ..] => Ok((Command::Frame(word(f1, f0)), rest)),
        [0x57, partition, s1, s0, l1, l0, rest @ ..] => {
            let window = Window {
                partition: *partition,
                start: word(s1, s0),
                length: word(l1, l0),
            };
            Ok((Command::Window(window), rest))
        }
        [0x45, rest @ ..] => Ok((Command::End, rest)),
        _ => Err(TapeFault::Truncated),
    }
}

// The next command of a tape, and what follows it: 72, 73, 71.
pub fn next_command(turn: Turn, tape: &[u8]) -> Result<(Command, &[u8]), TapeFault>
    ensures answer { MatchResult result (λ p. command turn tape.now ≡ Ok (p.0, p.1.now)) (λ e. command turn tape.now ≡ Err (tape_number e)) }
    ensures bytes { IfOk result (λ p. tape.now ≡ bytes p.0 ++ p.1.now) }
{
    let first = tape.first().ok_or(TapeFault::Truncated)?;
    turn.check(*first)?;
    operands(tape)
}
