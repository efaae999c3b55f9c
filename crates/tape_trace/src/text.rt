// The text of a tape's trace.
ghost use Rattle.std.specs.Prelude.{◌≡◌, IfOk, string_bytes};
ghost use Rattle.model.specs.Verdicts.{verdict_answer};
ghost use Rattle.draft.specs.Drafts.{module_of};
ghost use Rattle.tape.specs.Loading.{decode, done};
ghost use Rattle.tape_reader.specs.Loads.{told_fault};
ghost use Rattle.trace_listing.specs.Traces.{trace as text_of};
ghost use Rattle.tape_trace.specs.Traced.{traced, traced_if, verdict_text};

use draft::Draft;
use flight::fly;
use listing::number_line;
use model::{Entry, Verdict, Window};
use order::Listed;
use schedule::earliest_releases;
use std::alloc::{AllocError, Global};
use tape_reader::{ReadRefusal, read};
use timetable::WindowList;
use trace_listing::trace_text;

// The number of the refusal; where memory was wanting it is so here too.
fn refusal_text(heap: Global, refusal: ReadRefusal) -> Result<String, AllocError>
    ensures { IfOk result (λ s. traced_if (told_fault refusal) (string_bytes s)) }
{
    let number = refusal.number().ok_or(AllocError)?;
    number_line(heap, number)
}

// The text of a flight record, where the verdict clears; else the verdict's number.
fn verdict_text(heap: Global, verdict: Verdict, entries: &[Entry]) -> Result<String, AllocError>
    ensures { IfOk result (λ s. string_bytes s ≡ verdict_text (verdict_answer verdict) (text_of entries.now)) }
{
    match verdict.number() {
        None => trace_text(heap, entries),
        Some(number) => number_line(heap, number),
    }
}

// The trace of what a tape holds.
fn module_text(
    heap: Global,
    draft: Draft,
    frame: u16,
    windows: &[Window],
) -> Result<String, AllocError>
    ensures { IfOk result (λ s. string_bytes s ≡ traced (done (record { partitions = module_of draft; frame = frame; windows = windows.now }))) }
{
    let table = WindowList::open(heap, frame, windows)?;
    let calls = earliest_releases(heap, &draft, frame)?;
    let flight = fly(heap, draft, table, Listed, 0, calls.as_slice());
    drop(calls);
    flight.extent?;
    verdict_text(heap, flight.sealed.verdict(), flight.entries.as_slice())
}

// The trace of a tape.
pub fn trace(heap: Global, tape: &[u8]) -> Result<String, AllocError>
    ensures { IfOk result (λ s. string_bytes s ≡ traced (decode tape.now)) }
{
    let mut draft = Draft::new(heap);
    let mut windows = [Window::default(); 64];
    match read(heap, tape, &mut draft, &mut windows) {
        Ok(loaded) => module_text(
            heap,
            draft,
            loaded.frame,
            &windows[..loaded.windows as usize],
        ),
        Err(refusal) => refusal_text(heap, refusal),
    }
}
