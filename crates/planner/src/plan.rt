// The plan: each partition's least q, one window after another.
ghost use Rattle.std.specs.Prelude.{◌≡◌, ◌≤◌, length, take, IfOk, sum, nat_le};
ghost use Rattle.model.specs.Planning.{end_to_end, written, plan};
ghost use Rattle.draft.specs.Drafts.{module_of};
ghost use Rattle.planner.specs.Plans.{counted, list_after, Clears};
ghost use Rattle.planner.specs.Refusals.{told};

use crate::PlanRefusal;
use crate::share::FramedDraft;
use draft::Draft;
use model::Window;
use order::LocalOrder;
use windows::check_frame;

// Whether the shares add to no more than the frame.
fn fit(shares: &[u16], frame: u16) -> bool
    requires few { length shares.now ≤ 8 }
    ensures { result ≡ nat_le (sum shares.now) frame }
{
    shares.iter().map(|share| u32::from(*share)).sum::<u32>() <= u32::from(frame)
}

// Writes a window of each share that is not 0, end to end from place 0, and answers how many.
fn write(shares: &[u16], windows: &mut [Window]) -> u8
    requires few { length shares.now ≤ 8 }
    requires room { 8 ≤ length windows.old }
    requires short { sum shares.now ≤ 1024 }
    ensures count { result ≡ length (end_to_end 0 0 shares.now) }
    ensures after { windows.new ≡ written (end_to_end 0 0 shares.now) windows.old }
{
    let mut count: u8 = 0;
    let mut start = 0;
    for (partition, share) in shares.iter().enumerate() {
        if *share == 0 {
            continue;
        }
        windows[count as usize] = Window {
            partition: partition as u8,
            start,
            length: *share,
        };
        count += 1;
        start += *share;
    }
    count
}

// Plans a draft for a frame: 51, 63, 61, 62, then the windows go into the first places of the list, and the answer is how
// many they are. Later windows of the list and, after a refusal, all are unchanged.
pub fn shortest_windows<O: LocalOrder>(
    draft: &Draft,
    order: &O,
    frame: u16,
    windows: &mut [Window],
) -> Result<u8, PlanRefusal>
    ensures answer { told result ≡ counted (plan (O.LocalOrder.order order.now) (module_of draft.now) frame (length windows.old)) }
    ensures after { windows.new ≡ list_after (plan (O.LocalOrder.order order.now) (module_of draft.now) frame (length windows.old)) windows.old }
    ensures clears { IfOk result (λ n. Clears (O.LocalOrder.order order.now) (module_of draft.now) frame (take n windows.new)) }
{
    check_frame(frame).map_err(|_| PlanRefusal::FrameLength)?;
    if windows.len() < 8 {
        return Err(PlanRefusal::ShortList);
    }
    let framed = FramedDraft {
        draft,
        order,
        frame,
    };
    let shares = framed.least_shares()?;
    let shares = &shares[..draft.partition_count() as usize];
    if !fit(shares, frame) {
        return Err(PlanRefusal::ExceedsFrame);
    }
    Ok(write(shares, windows))
}
