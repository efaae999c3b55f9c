// An entry of a flight record.
use crate::call::Call;
use crate::refusal::Refusal;
use crate::reply::Reply;

// A call with its answer: what the module replied, or why it refused the call.
#[derive(Clone, Copy)]
pub struct Entry {
    pub call: Call,
    pub answer: Result<Reply, Refusal>,
}
