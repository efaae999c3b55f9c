// Why there is no plan.
ghost use Rattle.std.specs.Prelude.{◌≡◌};
ghost use Rattle.planner.specs.Refusals.{number};

// `Infeasible` names a partition whose tasks are not all in time even with the whole frame. With `ExceedsFrame` the
// partitions together need more than the frame.
#[derive(Clone, Copy, PartialEq, Eq, Debug)]
pub enum PlanRefusal {
    FrameLength,
    ShortList,
    Infeasible { partition: u8 },
    ExceedsFrame,
}

impl PlanRefusal {
    // The number in the table of refusals.
    pub fn number(self) -> u8
        ensures { result ≡ number self }
    {
        match self {
            PlanRefusal::FrameLength => 51,
            PlanRefusal::ShortList => 63,
            PlanRefusal::Infeasible { .. } => 61,
            PlanRefusal::ExceedsFrame => 62,
        }
    }
}
