// A window by its three numbers, for the tests that name windows.
use model::Window;

pub(crate) fn window(partition: u8, start: u16, length: u16) -> Window {
    Window {
        partition,
        start,
        length,
    }
}
