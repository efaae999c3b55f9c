// The listing of a whole tape.
ghost use Rattle.std.specs.Prelude.{◌≡◌, ◌++◌, IfOk, string_bytes, OnOk};
ghost use Rattle.std.specs.List.{flat_map};
ghost use Rattle.draft.specs.Drafts.{module_of};
ghost use Rattle.tape.specs.Commands.{partition_commands, commands};
ghost use Rattle.tape.specs.Loading.{decode};
ghost use Rattle.listing.specs.Lines.{line, window_lines, listed};

use crate::line::refusal_line;
use draft::Draft;
use model::{Task, Window};
use std::alloc::{AllocError, Global};
use tape::Command;
use tape_reader::read;

// A partition with its tasks.
fn write_partition(text: &mut String, tasks: &[Task]) -> Result<(), AllocError>
    ensures { OnOk result (string_bytes text.new ≡ string_bytes text.old ++ flat_map line (partition_commands tasks.now)) }
{
    writeln!(text, "{}", Command::Partition)?;
    for task in tasks {
        writeln!(text, "{}", Command::from(*task))?;
    }
    Ok(())
}

fn write_windows(text: &mut String, windows: &[Window]) -> Result<(), AllocError>
    ensures { OnOk result (string_bytes text.new ≡ string_bytes text.old ++ window_lines windows.now) }
{
    for window in windows {
        writeln!(text, "{}", Command::from(*window))?;
    }
    Ok(())
}

// All commands of a tape.
fn contents(
    heap: Global,
    draft: &Draft,
    frame: u16,
    windows: &[Window],
) -> Result<String, AllocError>
    ensures { IfOk result (λ s. string_bytes s ≡ flat_map line (commands (module_of draft.now) frame windows.now)) }
{
    let mut text = String::new(heap);
    for partition in draft.partitions() {
        write_partition(&mut text, partition.tasks())?;
    }
    writeln!(text, "{}", Command::Frame(frame))?;
    write_windows(&mut text, windows)?;
    Ok(text)
}

// The lines of windows alone.
pub fn window_lines(heap: Global, windows: &[Window]) -> Result<String, AllocError>
    ensures { IfOk result (λ s. string_bytes s ≡ window_lines windows.now) }
{
    let mut lines = String::new(heap);
    write_windows(&mut lines, windows)?;
    Ok(lines)
}

// The listing of a tape.
pub fn listing(heap: Global, tape: &[u8]) -> Result<String, AllocError>
    ensures { IfOk result (λ s. string_bytes s ≡ listed (decode tape.now)) }
{
    let mut draft = Draft::new(heap);
    let mut windows = [Window::default(); 64];
    match read(heap, tape, &mut draft, &mut windows) {
        Ok(loaded) => contents(
            heap,
            &draft,
            loaded.frame,
            &windows[..loaded.windows as usize],
        ),
        Err(refusal) => refusal_line(heap, refusal),
    }
}
