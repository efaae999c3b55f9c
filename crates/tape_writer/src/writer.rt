// The writer: a draft, its frame and its windows onto a tape, or a refusal, and then the buffer has not changed.
ghost use Rattle.std.specs.Prelude.{◌≡◌, ℕ, ◌≤◌, ◌++◌, length, take, drop, IfOk};
ghost use Rattle.tape_writer.specs.declared.writer.WriteRefusal.TheVariants.{Windows};
ghost use Rattle.model.specs.Answers.{leaves};
ghost use Rattle.draft.specs.Drafts.{module_of};
ghost use Rattle.tape.specs.Commands.{word, bytes, partition_bytes, encode};
ghost use Rattle.tape.specs.Loading.{decode, done};
ghost use Rattle.tape_writer.specs.Cursors.{Room, Puts};
ghost use Rattle.tape_writer.specs.Writing.{write_number, told_write, write_answer};

use draft::Draft;
use model::{Task, Window};
use tape::Command;
use windows::{WindowRefusal, check_list};

// Why a tape was not written.
#[derive(Clone, Copy, PartialEq, Eq, Debug)]
pub enum WriteRefusal {
    Windows(WindowRefusal),
    ShortBuffer,
}

impl WriteRefusal {
    // The number in the table of refusals.
    pub fn number(self) -> u8
        ensures { result ≡ write_number self }
    {
        match self {
            WriteRefusal::Windows(refusal) => refusal.number(),
            WriteRefusal::ShortBuffer => 75,
        }
    }
}

impl From<WindowRefusal> for WriteRefusal {
    ghost from_gives = { λ e r. r ≡ Windows e };

    fn from(refusal: WindowRefusal) -> WriteRefusal {
        WriteRefusal::Windows(refusal)
    }
}

// A buffer, and the place of the next byte.
#[derive(Drop)]
struct Cursor<'a> {
    buffer: &'a mut [u8],
    at: usize,
}

impl Cursor<'_> {
    fn put(&mut self, bytes: &[u8])
        requires { Room bytes.now self.old }
        ensures { Puts bytes.now self.old self.new }
    {
        let end = self.at + bytes.len();
        self.buffer[self.at..end].copy_from_slice(bytes);
        self.at = end;
    }

    fn put_word(&mut self, number: u16)
        requires { Room (word number) self.old }
        ensures { Puts (word number) self.old self.new }
    {
        self.put(&number.to_be_bytes());
    }

    fn put_command(&mut self, command: Command)
        requires { Room (bytes command) self.old }
        ensures { Puts (bytes command) self.old self.new }
    {
        match command {
            Command::Partition => self.put(&[0x50]),
            Command::Task(task) => {
                self.put(&[0x54]);
                self.put_word(task.cost);
                self.put_word(task.period);
                self.put_word(task.deadline);
            }
            Command::Frame(frame) => {
                self.put(&[0x46]);
                self.put_word(frame);
            }
            Command::Window(window) => {
                self.put(&[0x57, window.partition]);
                self.put_word(window.start);
                self.put_word(window.length);
            }
            Command::End => self.put(&[0x45]),
        }
    }

    // A partition with its tasks.
    fn put_partition(&mut self, tasks: &[Task])
        requires { Room (partition_bytes tasks.now) self.old }
        ensures { Puts (partition_bytes tasks.now) self.old self.new }
    {
        self.put_command(Command::Partition);
        for task in tasks {
            self.put_command(Command::from(*task));
        }
    }

    // The whole tape.
    fn put_tape(&mut self, draft: &Draft, frame: u16, windows: &[Window])
        requires { Room (encode (module_of draft.now) frame windows.now) self.old }
        ensures { Puts (encode (module_of draft.now) frame windows.now) self.old self.new }
    {
        for partition in draft.partitions() {
            self.put_partition(partition.tasks());
        }
        self.put_command(Command::Frame(frame));
        for window in windows {
            self.put_command(Command::from(*window));
        }
        self.put_command(Command::End);
    }
}

// How many bytes the tape has: one for a partition and seven for a task, three for the frame, six for a window, one for
// the end.
fn tape_length(draft: &Draft, windows: &[Window]) -> usize
    requires { length windows.now ≤ 64 }
    ensures { (f : ℕ) → result ≡ length (encode (module_of draft.now) f windows.now) }
{
    let partitions: usize = draft
        .partitions()
        .iter()
        .map(|partition| 1 + 7 * partition.tasks().len())
        .sum();
    partitions + (3 + 6 * windows.len() + 1)
}

// Writes the tape of a draft with its frame and windows, and answers how many bytes it has; later bytes are unchanged.
// Refused with 51 to 54, then 75, and then the buffer is as it was.
pub fn write(
    draft: &Draft,
    frame: u16,
    windows: &[Window],
    buffer: &mut [u8],
) -> Result<u16, WriteRefusal>
    ensures answer { told_write result ≡ write_answer (module_of draft.now) frame windows.now (length buffer.old) }
    ensures after { buffer.new ≡ leaves (told_write result) (encode (module_of draft.now) frame windows.now ++ drop (length (encode (module_of draft.now) frame windows.now)) buffer.old) buffer.old }
    ensures back { IfOk result (λ n. decode (take n buffer.new) ≡ done (record { partitions = module_of draft.now; frame = frame; windows = windows.now })) }
{
    check_list(frame, windows)?;
    if buffer.len() < tape_length(draft, windows) {
        return Err(WriteRefusal::ShortBuffer);
    }
    let mut cursor = Cursor { buffer, at: 0 };
    cursor.put_tape(draft, frame, windows);
    Ok(cursor.at as u16)
}
