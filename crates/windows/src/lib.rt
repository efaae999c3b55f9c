// Window lists: the check that only looks.
#![tactic(auto)]

mod check;
mod refusal;

pub use check::{check_count, check_frame, check_list, check_window};
pub use refusal::WindowRefusal;
