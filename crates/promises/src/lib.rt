// What is promised of a running module, record by record, and what a verdict says of late jobs. Each theorem stands on
// the contract of a function that does nothing else; other crates cite the lemmas of proofs/.
#![tactic(auto)]

ghost use Rattle.promises.specs.Promises.{ClearedKeepsPromises, VerdictIsExact};

// Every flight record of an executive of a cleared module is as promised.
pub fn cleared_keeps_promises() -> u8
    ensures { ClearedKeepsPromises }
{
    0
}

// A verdict other than cleared is given exactly where the plain machine can have a late job.
pub fn verdict_is_exact() -> u8
    ensures { VerdictIsExact }
{
    0
}
