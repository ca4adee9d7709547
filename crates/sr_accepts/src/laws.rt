// What holds of the definitions of both commands, each as the contract of a function with no body.
ghost use Rattle.sr_accepts.specs.Accepting.{TrimmedIsAccepted};
ghost use Rattle.sr_accepts.specs.Running.{TrimThenCheck};

/// Where `trim` comes to steps, `check` verifies the proof that is written of them, strictly or not, on the same formula,
/// with the same limits and in the form in which it is written; and it shows the steps and hints that `trim` counted.
pub fn trimmed_is_accepted()
    ensures { TrimmedIsAccepted }
{}

/// So where a run of `trim` answers that the proof is verified, a run of `check` on the formula and on what was written
/// answers that too, unless memory runs out or its report can't be printed.
pub fn trim_then_check()
    ensures { TrimThenCheck }
{}
