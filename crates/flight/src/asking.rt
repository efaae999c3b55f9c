// One call of a running module, by its name.
ghost use Rattle.executive.specs.Calls.{Answered};

use dispatch::Dispatch;
use executive::Running;
use model::{Call, Refusal, Reply, Request};
use timetable::Timetable;

// Makes the call.
pub(crate) fn ask<T: Timetable, D: Dispatch>(
    running: &mut Running<T, D>,
    call: Call,
) -> Result<Reply, Refusal>
    ensures { Answered T.Timetable.means D.Dispatch.rule running.old running.new call result }
{
    match call {
        Call::Tick => running.tick().map(Reply::Turn),
        Call::Of(partition, Request::Release(task)) => {
            running.release(partition, task).map(Reply::Due)
        }
        Call::Of(partition, Request::End(task)) => running.end(partition, task).map(Reply::Count),
        Call::Of(partition, Request::Fault(entry)) => {
            running.fault(partition, entry).map(Reply::Entry)
        }
        Call::Of(partition, Request::Clear) => running
            .clear(partition)
            .map(|(entries, lost)| Reply::Emptied(entries, lost)),
    }
}
