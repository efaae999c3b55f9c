// Why a frame or a window list is turned away.
ghost use Rattle.std.specs.Prelude.{◌≡◌};
ghost use Rattle.windows.specs.Refusals.{number};

#[derive(Clone, Copy, PartialEq, Eq, Debug)]
pub enum WindowRefusal {
    FrameLength,
    TooManyWindows,
    Misplaced { window: u16 },
    Overlap { window: u16 },
}

impl WindowRefusal {
    // The number in the table of refusals.
    pub fn number(self) -> u8
        ensures { result ≡ number self }
    {
        match self {
            WindowRefusal::FrameLength => 51,
            WindowRefusal::TooManyWindows => 52,
            WindowRefusal::Misplaced { .. } => 53,
            WindowRefusal::Overlap { .. } => 54,
        }
    }
}
