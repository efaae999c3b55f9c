// What a flight leaves.
use dispatch::ByOrder;
use executive::Sealed;
use model::Entry;
use std::alloc::AllocError;

// The sealed module again, the entries of the flight record, and how far it goes: all calls were made, or none, where memory
// was wanting. It can be wanting only before the first.
#[derive(Drop)]
pub struct Flight<T, O> {
    pub sealed: Sealed<T, ByOrder<O>>,
    pub entries: Vec<Entry>,
    pub extent: Result<(), AllocError>,
}
