// Tapes at the limits of partitions, tasks and windows, and what the reader leaves.
use crate::window::window;
use draft::Draft;
use listing::listing;
use model::Window;
use std::alloc::{AllocError, Global};
use std::test::Fail;
use tape::CommandFault;
use tape_reader::{Loaded, ReadRefusal, read};
use tape_writer::{WriteRefusal, write};
use windows::WindowRefusal;

const TASK: [u8; 7] = [0x54, 0, 1, 0, 100, 0, 100];

const NO_TASK: [u8; 7] = [0x54, 0, 0, 0, 100, 0, 100];

const UNTOUCHED: Window = Window {
    partition: 9,
    start: 9,
    length: 9,
};

// Partitions with so many tasks each.
fn partitions(tape: &mut Vec<u8>, count: u8, tasks: u8) -> Result<(), AllocError> {
    for _ in 0..count {
        tape.push(0x50)?;
        for _ in 0..tasks {
            tape.extend_from_slice(&TASK)?;
        }
    }
    Ok(())
}

// A frame of 100 ticks with windows of one tick, end to end; the one at `bad` belongs to partition 8.
fn frame(tape: &mut Vec<u8>, windows: u8, bad: u8) -> Result<(), AllocError> {
    tape.extend_from_slice(&[0x46, 0, 100])?;
    for i in 0..windows {
        tape.extend_from_slice(&[0x57, if i == bad { 8 } else { 0 }, 0, i, 0, 1])?;
    }
    tape.extend_from_slice(&[0x45])
}

fn is_listed(heap: Global, tape: &[u8], want: &str) -> Result<bool, Fail> {
    let text = listing(heap, tape)?;
    Ok(text.as_str() == want)
}

#[test]
fn ninth_partition(rt: HostRuntime) -> Result<(), Fail> {
    let mut tape = Vec::new(rt.alloc());
    partitions(&mut tape, 9, 0)?;
    assert!(rt; is_listed(rt.alloc(), &tape, "refused 11 draft 8\n")?);
    Ok(())
}

#[test]
fn seventeenth_task(rt: HostRuntime) -> Result<(), Fail> {
    let mut tape = Vec::new(rt.alloc());
    partitions(&mut tape, 1, 16)?;
    tape.extend_from_slice(&NO_TASK)?;
    assert!(rt; is_listed(rt.alloc(), &tape, "refused 13 draft 113\n")?);
    Ok(())
}

// The first faulty window decides: the fourth, or the sixty-fifth, which is one too many whatever it is.
#[test]
fn sixty_fifth_window(rt: HostRuntime) -> Result<(), Fail> {
    for (bad, want) in [
        (3, "refused 53 windows 21\n"),
        (65, "refused 52 windows 387\n"),
        (64, "refused 52 windows 387\n"),
    ] {
        let mut tape = Vec::new(rt.alloc());
        frame(&mut tape, 65, bad)?;
        assert!(rt;
            is_listed(rt.alloc(), &tape, want)?,
            "windows of partition 0, but number {bad}"
        );
    }
    Ok(())
}

fn longest(heap: Global) -> Result<Vec<u8>, AllocError> {
    let mut tape = Vec::new(heap);
    partitions(&mut tape, 8, 16)?;
    frame(&mut tape, 64, 64)?;
    Ok(tape)
}

#[test]
fn longest_tape(rt: HostRuntime) -> Result<(), Fail> {
    let heap = rt.alloc();
    let mut tape = longest(heap)?;
    assert_eq!(rt; tape.len(), 1292);
    let mut draft = Draft::new(heap);
    let mut list = [UNTOUCHED; 70];
    assert_eq!(rt;
        read(heap, tape.as_slice(), &mut draft, &mut list),
        Ok(Loaded {
            windows: 64,
            frame: 100,
        })
    );
    assert_eq!(rt; draft.partition_count(), 8);
    assert_eq!(rt; draft.tasks(7).len(), 16);
    assert_eq!(rt; list[63], window(0, 63, 1));
    assert_eq!(rt; list[64], UNTOUCHED);
    tape.push(0x45)?;
    assert!(rt; is_listed(heap, &tape, "refused 74 tape 1292\n")?);
    Ok(())
}

// What was read is written again: into 1,292 bytes, and not into 1,291.
#[test]
fn longest_tape_written(rt: HostRuntime) -> Result<(), Fail> {
    let heap = rt.alloc();
    let tape = longest(heap)?;
    let mut draft = Draft::new(heap);
    let mut list = [UNTOUCHED; 64];
    let loaded = read(heap, tape.as_slice(), &mut draft, &mut list)?;
    let mut buffer = [0u8; 1292];
    assert_eq!(rt;
        write(&draft, loaded.frame, &list, &mut buffer[0..1291]),
        Err(WriteRefusal::ShortBuffer)
    );
    assert_eq!(rt; write(&draft, loaded.frame, &list, &mut buffer), Ok(1292));
    assert_eq!(rt; buffer.as_slice(), tape.as_slice());
    Ok(())
}

// A list of 63 places is refused before the tape is looked at; a refusal leaves draft and list as they were.
#[test]
fn refusals_leave_all(rt: HostRuntime) {
    let heap = rt.alloc();
    let mut draft = Draft::new(heap);
    assert!(rt; draft.add_partition().is_ok());
    let mut list = [UNTOUCHED; 64];
    assert_eq!(rt;
        read(heap, b"", &mut draft, &mut list[0..63]),
        Err(ReadRefusal::ShortList)
    );
    let overlapping = b"\x46\x00\x0a\x57\x00\x00\x00\x00\x04\x57\x01\x00\x03\x00\x01\x45";
    let fault = CommandFault::Windows(WindowRefusal::Overlap { window: 1 });
    assert_eq!(rt;
        read(heap, overlapping, &mut draft, &mut list),
        Err(ReadRefusal::Fault { fault, offset: 9 })
    );
    assert_eq!(rt; draft.partition_count(), 1);
    assert_eq!(rt; list[0], UNTOUCHED);
    assert_eq!(rt;
        read(
            heap,
            b"\x46\x00\x0a\x57\x01\x00\x00\x00\x04\x45",
            &mut draft,
            &mut list,
        ),
        Ok(Loaded {
            windows: 1,
            frame: 10,
        })
    );
    assert_eq!(rt; draft.partition_count(), 0);
    assert_eq!(rt; list[0], window(1, 0, 4));
    assert_eq!(rt; list[1], UNTOUCHED);
}
