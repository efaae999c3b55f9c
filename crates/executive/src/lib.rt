// The executive: a draft is sealed with a timetable and an order, a sealed module is started, and a running one takes the
// five calls. Each state is a type of its own, and going on moves the value.
#![tactic(auto)]

mod running;
mod sealed;

pub use model::Turn;
pub use running::Running;
pub use sealed::{Sealed, seal};
