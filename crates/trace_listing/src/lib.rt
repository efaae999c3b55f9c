// A flight record as text: a header, and a line for each accepted tick.
#![tactic(auto)]

mod text;

pub use text::trace_text;
