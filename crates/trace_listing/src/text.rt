// The text of a whole record.
ghost use Rattle.std.specs.Prelude.{◌≡◌, IfOk, string_bytes};
ghost use Rattle.model.specs.FlightRecords.{ticks};
ghost use Rattle.trace_listing.specs.Traces.{trace};

use model::{Call, Entry, Reply};
use std::alloc::{AllocError, Global};

// Whether the entry is an accepted tick.
#[tactic(auto, unfolding(model::specs::FlightRecords::ticks, model::specs::FlightRecords::is_tick, model::specs::FlightRecords::accepted))]
fn is_accepted_tick(entry: &Entry) -> bool
    ensures { result ≡ ticks entry.now }
{
    matches!(
        entry,
        Entry {
            call: Call::Tick,
            answer: Ok(_)
        }
    )
}

// The text of a flight record that begins at tick 0.
pub fn trace_text(heap: Global, entries: &[Entry]) -> Result<String, AllocError>
    ensures { IfOk result (λ s. string_bytes s ≡ trace entries.now) }
{
    let mut text = String::from_str(heap, "tick owner task job\n")?;
    let ticks = entries.iter().filter(|entry| is_accepted_tick(entry));
    for (tick, entry) in ticks.enumerate() {
        if let Ok(Reply::Turn(turn)) = entry.answer {
            writeln!(text, "{tick} {turn}")?;
        }
    }
    Ok(text)
}
