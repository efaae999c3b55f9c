// The checks of a frame, of one window after another, and of a whole list. Each only looks.
ghost use Rattle.std.specs.Prelude.{◌≡◌, length};
ghost use Rattle.model.specs.WindowLists.{frame_answer, count_answer, window_answer, list_answer, overlap};
ghost use Rattle.windows.specs.Refusals.{told};

use crate::WindowRefusal;
use model::Window;

// 51 unless the frame has 1 to 1,024 ticks.
pub fn check_frame(frame: u16) -> Result<(), WindowRefusal>
    ensures { told result ≡ frame_answer frame }
{
    if (1..=1024).contains(&frame) {
        Ok(())
    } else {
        Err(WindowRefusal::FrameLength)
    }
}

// 52 if a list has more than 64 windows.
pub fn check_count(count: usize) -> Result<(), WindowRefusal>
    ensures { told result ≡ count_answer count }
{
    if count <= 64 {
        Ok(())
    } else {
        Err(WindowRefusal::TooManyWindows)
    }
}

// Window `index` of a list, after the window before it, if there is one: 53, then 54.
pub fn check_window(
    frame: u16,
    index: u16,
    previous: Option<Window>,
    window: Window,
) -> Result<(), WindowRefusal>
    ensures { told result ≡ window_answer overlap frame index previous window }
{
    if window.length == 0 || window.partition > 7 || window.end() > u32::from(frame) {
        return Err(WindowRefusal::Misplaced { window: index });
    }
    if previous.is_some_and(|before| before.end() > u32::from(window.start)) {
        return Err(WindowRefusal::Overlap { window: index });
    }
    Ok(())
}

// The whole list: 51, 52, then window by window 53 and 54.
pub fn check_list(frame: u16, windows: &[Window]) -> Result<(), WindowRefusal>
    ensures { told result ≡ list_answer overlap frame windows.now }
{
    check_frame(frame)?;
    check_count(windows.len())?;
    let mut previous = None;
    for (i, window) in windows.iter().enumerate() {
        check_window(frame, i as u16, previous, *window)?;
        previous = Some(*window);
    }
    Ok(())
}
