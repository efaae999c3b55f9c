// A window of a frame.

// The places `start` to `start + length - 1` of the frame belong to `partition`.
#[derive(Clone, Copy, PartialEq, Eq, Debug, Default)]
pub struct Window {
    pub partition: u8,
    pub start: u16,
    pub length: u16,
}

impl Window {
    ghost use Rattle.std.specs.Prelude.{◌≡◌};
    ghost use Rattle.model.specs.WindowLists.{end_of};

    // The first place after the window.
    pub fn end(self) -> u32
        ensures { result ≡ end_of self }
    {
        u32::from(self.start) + u32::from(self.length)
    }
}
