// Theorems on the definitions that the reader's and the writer's contracts cite. Each is the contract of a function whose
// answer says nothing.
ghost use Rattle.tape.specs.FirstFault.{FirstFault};
ghost use Rattle.tape.specs.RoundTrip.{RoundTrip};

// What was written reads back, what was read is written again, and no tape is longer than 1,292 bytes.
pub fn round_trip_stands() -> u8
    ensures { RoundTrip }
{
    0
}

// The first faulty command decides.
pub fn first_fault_stands() -> u8
    ensures { FirstFault }
{
    0
}
