// What `trim` passes and what it rejects, each law as the contract of a function with no body.
ghost use Rattle.sr_completes.specs.Completing.{PassingIsTrimmed, PassingIsVerified};
ghost use Rattle.sr_completes.specs.Rejecting.{LoadedLinesHavePivots, RejectionsStand, FoundRejectionsStand};

/// Where each lemma up to the conflict passes over the clauses alive before it, by unit propagation or with its witness, the
/// files come to steps: no lemma is rejected.
pub fn passing_is_trimmed()
    ensures { PassingIsTrimmed }
{}

/// So `trim` finds such a proof verified, unless memory runs out, or a file that was asked for can't be written or would pass
/// the limit of bytes.
pub fn passing_is_verified()
    ensures { PassingIsVerified }
{}

/// Each lemma that was read and loaded has the first literal of its clause as the pivot of the witness that is written for it.
pub fn loaded_lines_have_pivots()
    ensures { LoadedLinesHavePivots }
{}

/// Where two files come to the rejection of a lemma against a clause, the lemma doesn't pass over the clauses alive before its
/// line, the clause is one of them and is cited, and each later step is met: nothing else is asked of the proof.
pub fn rejections_stand()
    ensures { RejectionsStand }
{}

/// So it is where `trim` finds that.
pub fn found_rejections_stand()
    ensures { FoundRejectionsStand }
{}
