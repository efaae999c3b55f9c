// The five calls of a running module. All but the tick are requests to one partition.

// What a partition can be asked for: the release of a task, the end of a task's job, a fault entry, and to clear its
// fault entries.
#[derive(Clone, Copy)]
pub enum Request {
    Release(u8),
    End(u8),
    Fault(u8),
    Clear,
}

#[derive(Clone, Copy)]
pub enum Call {
    Tick,
    Of(u8, Request),
}
