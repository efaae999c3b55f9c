// The verdict on a module. specs/Verdicts.antt says which it is, and the numbers that it answers.
ghost use Rattle.std.specs.Prelude.{◌≡◌};
ghost use Rattle.model.specs.Answers.{number_of};
ghost use Rattle.model.specs.Verdicts.{verdict_answer};

// A task that is not in time, and a start at which it does not pass.
#[derive(Clone, Copy, PartialEq, Eq, Debug)]
pub struct LateTask {
    pub partition: u8,
    pub task: u8,
    pub start: u16,
}

// `Foreign` names a place that belongs to a partition which the module lacks.
#[derive(Clone, Copy, PartialEq, Eq, Debug)]
pub enum Verdict {
    Cleared,
    Foreign(u16),
    Late(LateTask),
}

impl Verdict {
    // The number in the table of refusals; none where the module is cleared.
    pub fn number(self) -> Option<u8>
        ensures { result ≡ number_of (verdict_answer self) }
    {
        match self {
            Verdict::Cleared => None,
            Verdict::Foreign(_) => Some(21),
            Verdict::Late(_) => Some(22),
        }
    }
}
