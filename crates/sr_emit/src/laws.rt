// What holds of the definitions alone.
ghost use Rattle.sr_emit.specs.Report.{OnlyVerifiedSaysSo};

/// Whoever finds the line `s VERIFIED UNSAT` in a report, even in one that was cut short, has the report of a verified run.
pub fn only_verified_says_so()
    ensures { OnlyVerifiedSaysSo }
{}
