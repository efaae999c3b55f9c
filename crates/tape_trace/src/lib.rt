// The trace of a tape as text: its module flown over one frame, each task released as early as allowed, or one line for
// the refusal.
#![tactic(auto)]

mod text;

pub use text::trace;
