// A tape as text: a line a command, or one line for the refusal.
#![tactic(auto)]

mod contents;
mod line;

pub use contents::{listing, window_lines};
pub use line::{number_line, refusal_line};
