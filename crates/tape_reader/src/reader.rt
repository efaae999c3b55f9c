// The reader: a tape into a draft and a list of windows, or a fault, and then neither has changed.
ghost use Rattle.std.specs.Prelude.{◌≡◌, ◌<◌, ◌≤◌, true, ◌++◌, length, take, drop, IfOk, Ok, Err, vec_len, MatchResult, OnErr, slice_index};
ghost use Rattle.model.specs.Answers.{Gives, granted};
ghost use Rattle.model.specs.WindowLists.{list_answer, overlap};
ghost use Rattle.draft.specs.Drafts.{module_of};
ghost use Rattle.tape.specs.Commands.{bytes, encode};
ghost use Rattle.tape.specs.Faults.{breach};
ghost use Rattle.tape_reader.specs.Loads.{progress, adds, Fails, MemoryWanted, whole_tape, told_fault, read_number, given};
ghost use Rattle.tape.specs.Loading.{next, decode, reading, done, contents};

use crate::load::Load;
use draft::Draft;
use model::Window;
use std::alloc::Global;
use tape::{Command, CommandFault, TapeFault, next_command};

// Why a tape was not read: the list has under 64 places, or the command at a byte offset is at fault.
#[derive(Clone, Copy, PartialEq, Eq, Debug)]
pub enum ReadRefusal {
    ShortList,
    Fault { fault: CommandFault, offset: u16 },
}

impl ReadRefusal {
    // The number in the table of refusals; none where memory is wanting.
    pub fn number(self) -> Option<u8>
        ensures { result ≡ read_number self }
    {
        match self {
            ReadRefusal::ShortList => Some(76),
            ReadRefusal::Fault { fault, .. } => fault.placed().map(|(number, _)| number),
        }
    }
}

// What a tape gave besides its tasks: how many windows, and the frame's length.
#[derive(Clone, Copy, PartialEq, Eq, Debug)]
pub struct Loaded {
    pub windows: u16,
    pub frame: u16,
}

// The next command, read and obeyed, and what follows it.
fn step<'a>(load: &mut Load, tape: &'a [u8]) -> Result<(Command, &'a [u8]), CommandFault>
    ensures answer { MatchResult result (λ p. next (progress load.old) tape.now ≡ Ok (p.0, p.1.now, progress load.new)) (λ e. Fails (adds (slice_index tape.now 0) ≡ true) (breach e) (next (progress load.old) tape.now)) }
    ensures bytes { IfOk result (λ p. tape.now ≡ bytes p.0 ++ p.1.now) }
{
    let (command, rest) = next_command(load.turn, tape)?;
    load.obey(command)?;
    Ok((command, rest))
}

// The tape has ended; nothing may follow. `offset` is that of the end.
fn ended(load: Load, rest: &[u8], offset: u16) -> Result<Load, ReadRefusal>
    requires { offset < 65535 }
    ensures { result ≡ whole_tape offset load rest.now }
{
    if rest.is_empty() {
        Ok(load)
    } else {
        Err(ReadRefusal::Fault {
            fault: CommandFault::Tape(TapeFault::TrailingBytes),
            offset: offset + 1,
        })
    }
}

// The whole tape, read aside.
fn load_tape(heap: Global, tape: &[u8]) -> Result<Load, ReadRefusal>
    ensures answer { MatchResult result (λ l. decode tape.now ≡ done (contents (progress l))) (λ e. Gives (told_fault e) (decode tape.now) (MemoryWanted 64 tape.now e)) }
    ensures again { IfOk result (λ l. encode (module_of l.draft) l.frame l.windows.items ≡ tape.now) }
    ensures accepted { IfOk result (λ l. list_answer overlap l.frame l.windows.items ≡ granted tt) }
    ensures few { IfOk result (λ l. vec_len l.windows ≤ 64) }
{
    let mut load = Load::new(heap);
    let mut rest = tape;
    loop {
        let offset = (tape.len() - rest.len()) as u16;
        let (command, after) = step(&mut load, rest).map_err(|fault| ReadRefusal::Fault {
            fault,
            offset,
        })?;
        if command == Command::End {
            return ended(load, after, offset);
        }
        rest = after;
    }
}

// What was read goes into the caller's draft and list.
fn store(load: Load, draft: &mut Draft, windows: &mut [Window]) -> Loaded
    requires { (vec_len load.windows ≤ 64) × (64 ≤ length windows.old) }
    ensures answer { contents (progress load) ≡ given (module_of draft.new) result windows.new }
    ensures count { result.windows ≤ length windows.new }
    ensures later { drop result.windows windows.new ≡ drop result.windows windows.old }
{
    let Load {
        draft: read,
        frame,
        windows: list,
        turn: _,
    } = load;
    let count = list.len();
    windows[..count].copy_from_slice(list.as_slice());
    *draft = read;
    Loaded {
        windows: count as u16,
        frame,
    }
}

// Reads a tape: 76 first, then the first fault of the tape. A tape without fault replaces what the draft holds and
// gives the first windows of the list; later windows are unchanged. After a refusal draft and list are as they were.
pub fn read(
    heap: Global,
    tape: &[u8],
    draft: &mut Draft,
    windows: &mut [Window],
) -> Result<Loaded, ReadRefusal>
    ensures answer { MatchResult result (λ x. reading (length windows.old) tape.now ≡ done (given (module_of draft.new) x windows.new)) (λ e. Gives (told_fault e) (reading (length windows.old) tape.now) (MemoryWanted (length windows.old) tape.now e)) }
    ensures count { IfOk result (λ x. x.windows ≤ length windows.new) }
    ensures later { IfOk result (λ x. drop x.windows windows.new ≡ drop x.windows windows.old) }
    ensures unchanged { OnErr result ((draft.new ≡ draft.old) × (windows.new ≡ windows.old)) }
    ensures accepted { IfOk result (λ x. list_answer overlap x.frame (take x.windows windows.new) ≡ granted tt) }
    ensures again { IfOk result (λ x. encode (module_of draft.new) x.frame (take x.windows windows.new) ≡ tape.now) }
{
    if windows.len() < 64 {
        return Err(ReadRefusal::ShortList);
    }
    let load = load_tape(heap, tape)?;
    Ok(store(load, draft, windows))
}
