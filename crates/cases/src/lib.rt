// The worked modules of the rules, as one theorem on the definitions.
#![tactic(auto)]

ghost use Rattle.cases.specs.WorkedModules.{WorkedModules};

// The worked modules come out as written, all of them.
pub fn worked_modules_hold() -> u8
    ensures { WorkedModules }
{
    0
}
