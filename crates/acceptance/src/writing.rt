// Tapes as written.
use crate::window::window;
use draft::{Draft, DraftRefusal};
use model::Window;
use std::alloc::Global;
use std::test::Fail;
use tape_writer::{WriteRefusal, write};
use windows::WindowRefusal;

const TAPE: [u8; 39] = [
    0x50, 0x54, 0, 2, 0, 10, 0, 10, 0x54, 0, 3, 0, 20, 0, 19, 0x50, 0x54, 0, 1, 0, 10, 0, 10, 0x46,
    0, 10, 0x57, 0, 0, 0, 0, 4, 0x57, 1, 0, 4, 0, 1, 0x45,
];

fn windows() -> [Window; 2] {
    [window(0, 0, 4), window(1, 4, 1)]
}

fn module_a(heap: Global) -> Result<Draft, DraftRefusal> {
    let mut draft = Draft::new(heap);
    draft.add_partition()?;
    draft.add_task(0, 2, 10, 10)?;
    draft.add_task(0, 3, 20, 19)?;
    draft.add_partition()?;
    draft.add_task(1, 1, 10, 10)?;
    Ok(draft)
}

#[test]
fn the_sample_tape(rt: HostRuntime) -> Result<(), Fail> {
    let draft = module_a(rt.alloc())?;
    let mut buffer = [0xeeu8; 41];
    assert_eq!(rt; write(&draft, 10, &windows(), &mut buffer), Ok(39));
    assert_eq!(rt; &buffer[..39], TAPE.as_slice());
    assert_eq!(rt; &buffer[39..], [0xee, 0xee].as_slice());
    Ok(())
}

// The buffer may be just long enough; one byte less is refused and stays as it was.
#[test]
fn short_buffers(rt: HostRuntime) -> Result<(), Fail> {
    let draft = module_a(rt.alloc())?;
    let mut exact = [0xeeu8; 39];
    assert_eq!(rt; write(&draft, 10, &windows(), &mut exact), Ok(39));
    assert_eq!(rt; exact[38], 0x45);
    let mut short = [0xeeu8; 38];
    assert_eq!(rt;
        write(&draft, 10, &windows(), &mut short),
        Err(WriteRefusal::ShortBuffer)
    );
    assert_eq!(rt; short[0], 0xee);
    Ok(())
}

// Windows are checked before the buffer.
#[test]
fn windows_first(rt: HostRuntime) -> Result<(), Fail> {
    let draft = module_a(rt.alloc())?;
    let mut none = [0u8; 0];
    assert_eq!(rt;
        write(&draft, 4, &windows(), &mut none),
        Err(WriteRefusal::Windows(WindowRefusal::Misplaced { window: 1 }))
    );
    assert_eq!(rt;
        write(&draft, 0, &windows(), &mut none),
        Err(WriteRefusal::Windows(WindowRefusal::FrameLength))
    );
    assert_eq!(rt;
        write(&draft, 5, &windows(), &mut none),
        Err(WriteRefusal::ShortBuffer)
    );
    Ok(())
}
