// The single lines of refusals.
ghost use Rattle.std.specs.Prelude.{◌≡◌, IfOk, string_bytes};
ghost use Rattle.tape_reader.specs.Loads.{told_fault};
ghost use Rattle.listing.specs.Lines.{number_line, listed_if};

use std::alloc::{AllocError, Global};
use tape_reader::ReadRefusal;

// The line of a refusal that is a number alone.
pub fn number_line(heap: Global, number: u8) -> Result<String, AllocError>
    ensures { IfOk result (λ s. string_bytes s ≡ number_line number) }
{
    format!(in heap; "refused {number}\n")
}

// The line of a refusal of the reader; where memory was wanting it is so here too.
pub fn refusal_line(heap: Global, refusal: ReadRefusal) -> Result<String, AllocError>
    ensures { IfOk result (λ s. listed_if (told_fault refusal) (string_bytes s)) }
{
    match refusal {
        ReadRefusal::ShortList => number_line(heap, 76),
        ReadRefusal::Fault { fault, offset } => {
            let (number, layer) = fault.placed().ok_or(AllocError)?;
            format!(in heap; "refused {number} {layer} {offset}\n")
        }
    }
}
