// The plan of a tape as text: a line a window, or one line for the refusal.
#![tactic(auto)]

mod text;

pub use text::plan_text;
