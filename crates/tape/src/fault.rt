// What can be wrong with a tape: each fault by its layer.
ghost use Rattle.std.specs.Prelude.{◌≡◌};
ghost use Rattle.tape.specs.declared.fault.CommandFault.TheVariants.{Tape, Windows, NoMemory};
ghost use Rattle.tape.specs.Faults.{tape_number, from_draft, breach, placed};

use draft::DraftRefusal;
use std::alloc::AllocFailed;
use std::fmt;
use windows::WindowRefusal;

// Whose rule a fault breaks.
#[derive(Clone, Copy, PartialEq, Eq, Debug)]
pub enum Layer {
    Tape,
    Draft,
    Windows,
}

impl fmt::Display for Layer {
    ghost use Rattle.std.specs.Prelude.{Some};
    ghost use Rattle.tape.specs.Text.{layer_name};

    ghost output = { λ y. Some (layer_name y) };

    fn fmt<W: fmt::Write>(&self, f: &mut fmt::Formatter<W>) -> fmt::Result {
        let name = match self {
            Layer::Tape => "tape",
            Layer::Draft => "draft",
            Layer::Windows => "windows",
        };
        write!(f, "{name}")
    }
}

// What is wrong with a tape as such, whatever module it carries.
#[derive(Clone, Copy, PartialEq, Eq, Debug)]
pub enum TapeFault {
    Truncated = 71,
    UnknownCommand = 72,
    OutOfTurn = 73,
    TrailingBytes = 74,
}

impl TapeFault {
    // The number in the table of refusals.
    pub fn number(self) -> u8
        ensures { result ≡ tape_number self }
    {
        self as u8
    }
}

// Why a command was not obeyed.
#[derive(Clone, Copy, PartialEq, Eq, Debug)]
pub enum CommandFault {
    Tape(TapeFault),
    Draft(DraftRefusal),
    Windows(WindowRefusal),
    NoMemory,
}

impl CommandFault {
    // The fault's number and layer; none where memory is wanting.
    pub fn placed(self) -> Option<(u8, Layer)>
        ensures { result ≡ placed (breach self) }
    {
        match self {
            CommandFault::Tape(fault) => Some((fault.number(), Layer::Tape)),
            CommandFault::Draft(refusal) => {
                refusal.number().map(|number| (number, Layer::Draft))
            }
            CommandFault::Windows(refusal) => Some((refusal.number(), Layer::Windows)),
            CommandFault::NoMemory => None,
        }
    }
}

impl From<TapeFault> for CommandFault {
    ghost from_gives = { λ e r. r ≡ Tape e };

    fn from(fault: TapeFault) -> CommandFault {
        CommandFault::Tape(fault)
    }
}

impl From<DraftRefusal> for CommandFault {
    ghost from_gives = { λ e r. r ≡ from_draft e };

    fn from(refusal: DraftRefusal) -> CommandFault {
        match refusal {
            DraftRefusal::NoMemory => CommandFault::NoMemory,
            numbered => CommandFault::Draft(numbered),
        }
    }
}

impl From<WindowRefusal> for CommandFault {
    ghost from_gives = { λ e r. r ≡ Windows e };

    fn from(refusal: WindowRefusal) -> CommandFault {
        CommandFault::Windows(refusal)
    }
}

impl<T: Drop> From<AllocFailed<T>> for CommandFault {
    ghost from_gives = { λ _ r. r ≡ NoMemory };

    fn from(_e: AllocFailed<T>) -> CommandFault {
        CommandFault::NoMemory
    }
}
