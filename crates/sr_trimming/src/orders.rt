// The order of a clause's literals plays no part: laws of the definitions.
ghost use Rattle.sr_trimming.specs.OrderLaws.{ChainsSeeSets, LeanChainsSeeSets, ReductionsSeeSets, NeedsSeeSets, RefutationSeesSets, RupSeesSets, RedundancySeesSets, MeetingsSeeSets, LeanStepsSeeSets, JudgingSeesSets, PivotIsPutFirst, OrderKeepsLimits, StepsKeepLimits};

/// Hints over reordered clauses, from the same literals, end alike: closed, with the same literals, or at the
/// same fault.
pub fn chains_see_sets()
    ensures { ChainsSeeSets }
{}

/// And they are as lean.
pub fn lean_chains_see_sets()
    ensures { LeanChainsSeeSets }
{}

/// A substitution leaves the same of the same literals.
pub fn reductions_see_sets()
    ensures { ReductionsSeeSets }
{}

/// Reordered clauses need hints alike.
pub fn needs_see_sets()
    ensures { NeedsSeeSets }
{}

/// Reordered clauses refute the same.
pub fn refutation_sees_sets()
    ensures { RefutationSeesSets }
{}

/// So a reordered clause has the property of reverse unit propagation (RUP) alike.
pub fn rup_sees_sets()
    ensures { RupSeesSets }
{}

/// And it is substitution redundant alike, where its first literal stays first.
pub fn redundancy_sees_sets()
    ensures { RedundancySeesSets }
{}

/// A step whose clause is reordered after its first literal is met alike, or rejected for the same cause.
pub fn meetings_see_sets()
    ensures { MeetingsSeeSets }
{}

/// And it is as lean.
pub fn lean_steps_see_sets()
    ensures { LeanStepsSeeSets }
{}

/// So a proof with such steps is judged alike.
pub fn judging_sees_sets()
    ensures { JudgingSeesSets }
{}

/// A clause in any order, with its pivot put first, is the clause reordered after its first literal.
pub fn pivot_is_put_first()
    ensures { PivotIsPutFirst }
{}

/// A reordered clause is as long, and within the same limits.
pub fn order_keeps_limits()
    ensures { OrderKeepsLimits }
{}

/// So what may be written of the one step may be written of the other.
pub fn steps_keep_limits()
    ensures { StepsKeepLimits }
{}
