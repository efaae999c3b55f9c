// What has been read of a tape, aside from the caller's draft and list, until the tape turns out to be whole.
ghost use Rattle.std.specs.Prelude.{◌≡◌};
ghost use Rattle.tape_reader.specs.Loads.{progress, Obeys};
ghost use Rattle.tape.specs.Loading.{nothing_read, obeyed};

use draft::Draft;
use model::{Task, Window};
use std::alloc::Global;
use tape::{Command, CommandFault, Turn};
use windows::{check_count, check_frame, check_window};

#[derive(Drop)]
pub(crate) struct Load {
    pub(crate) draft: Draft,
    pub(crate) frame: u16,
    pub(crate) windows: Vec<Window>,
    pub(crate) turn: Turn,
}

impl Load {
    pub(crate) fn new(heap: Global) -> Load
        ensures { progress result ≡ nothing_read }
    {
        Load {
            draft: Draft::new(heap),
            frame: 0,
            windows: Vec::new(heap),
            turn: Turn::Start,
        }
    }

    fn add_partition(&mut self) -> Result<(), CommandFault>
        ensures { Obeys Command.Partition result (obeyed (progress self.old) Command.Partition) (progress self.new) }
    {
        self.draft.add_partition()?;
        self.turn = Turn::AfterPartition;
        Ok(())
    }

    fn add_task(&mut self, task: Task) -> Result<(), CommandFault>
        ensures { Obeys (Command.Task task) result (obeyed (progress self.old) (Command.Task task)) (progress self.new) }
    {
        let newest = self.draft.partition_count().saturating_sub(1);
        self.draft
            .add_task(newest, task.cost, task.period, task.deadline)?;
        self.turn = Turn::AfterTask;
        Ok(())
    }

    fn set_frame(&mut self, frame: u16) -> Result<(), CommandFault>
        ensures { Obeys (Command.Frame frame) result (obeyed (progress self.old) (Command.Frame frame)) (progress self.new) }
    {
        check_frame(frame)?;
        self.frame = frame;
        self.turn = Turn::AfterFrame;
        Ok(())
    }

    // 52, 53, 54.
    fn add_window(&mut self, window: Window) -> Result<(), CommandFault>
        ensures { Obeys (Command.Window window) result (obeyed (progress self.old) (Command.Window window)) (progress self.new) }
    {
        let index = self.windows.len();
        check_count(index + 1)?;
        let last = self.windows.last().copied();
        check_window(self.frame, index as u16, last, window)?;
        self.windows.push(window)?;
        self.turn = Turn::AfterFrame;
        Ok(())
    }

    pub(crate) fn obey(&mut self, command: Command) -> Result<(), CommandFault>
        ensures { Obeys command result (obeyed (progress self.old) command) (progress self.new) }
    {
        match command {
            Command::Partition => self.add_partition(),
            Command::Task(task) => self.add_task(task),
            Command::Frame(frame) => self.set_frame(frame),
            Command::Window(window) => self.add_window(window),
            Command::End => Ok(()),
        }
    }
}
