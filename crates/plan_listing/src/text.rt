// The text of a tape's plan.
ghost use Rattle.std.specs.Prelude.{◌≡◌, IfOk, string_bytes};
ghost use Rattle.model.specs.Orders.{listed};
ghost use Rattle.model.specs.Planning.{plan};
ghost use Rattle.draft.specs.Drafts.{module_of};
ghost use Rattle.planner.specs.Refusals.{number, values};
ghost use Rattle.tape.specs.Loading.{decode};
ghost use Rattle.plan_listing.specs.PlanLines.{plan_refusal, plan_lines, planned};

use draft::Draft;
use listing::{number_line, refusal_line, window_lines};
use model::Window;
use order::Listed;
use planner::{PlanRefusal, shortest_windows};
use std::alloc::{AllocError, Global};
use tape_reader::read;

// The line of a refusal of the planner.
fn plan_refusal_line(heap: Global, refusal: PlanRefusal) -> Result<String, AllocError>
    ensures { IfOk result (λ s. string_bytes s ≡ plan_refusal (number refusal) (values refusal)) }
{
    let number = refusal.number();
    match refusal {
        PlanRefusal::Infeasible { partition } => format!(in heap; "refused {number} {partition}\n"),
        PlanRefusal::FrameLength | PlanRefusal::ShortList | PlanRefusal::ExceedsFrame => {
            number_line(heap, number)
        }
    }
}

// The lines of a draft's plan, in the listed order.
fn draft_lines(heap: Global, draft: &Draft, frame: u16) -> Result<String, AllocError>
    ensures { IfOk result (λ s. string_bytes s ≡ plan_lines (plan listed (module_of draft.now) frame 8)) }
{
    let mut windows = [Window::default(); 8];
    match shortest_windows(draft, &Listed, frame, &mut windows) {
        Ok(count) => window_lines(heap, &windows[..count as usize]),
        Err(refusal) => plan_refusal_line(heap, refusal),
    }
}

// The plan of a tape; its windows are ignored.
pub fn plan_text(heap: Global, tape: &[u8]) -> Result<String, AllocError>
    ensures { IfOk result (λ s. string_bytes s ≡ planned (decode tape.now)) }
{
    let mut draft = Draft::new(heap);
    let mut windows = [Window::default(); 64];
    match read(heap, tape, &mut draft, &mut windows) {
        Ok(loaded) => draft_lines(heap, &draft, loaded.frame),
        Err(refusal) => refusal_line(heap, refusal),
    }
}
