// What a backward pass writes, and what it shows where it rejects: laws of the definitions.
ghost use Rattle.sr_trimming.specs.Loading.{LoadingIsDetermined};
ghost use Rattle.sr_trimming.specs.Backward.{BackwardToForward};
ghost use Rattle.sr_trimming.specs.Trimmed.{LeanIsMet, TrimmedByNeed, LeanToForward, TrimmedIsVerified};
ghost use Rattle.sr_trimming.specs.From.{StepsFromLemmasHavePivots};
ghost use Rattle.sr_trimming.specs.Written.{WrittenIsAsRead, LoadedToWritten, LeanToWritten, CoreFirstToWritten, WrittenIsVerified};
ghost use Rattle.sr_trimming.specs.Evidence.{FailingDoesNotPass, FailingIsNeeded, PassingNeverFails};

/// What is loaded of a proof, and where loading stops, is determined by the formula and the proof's lines.
pub fn loading_is_determined()
    ensures { LoadingIsDetermined }
{}

/// Steps that are met over what they and later ones cite, placed among deletions, are met over the live
/// clauses and verified, and the cited clauses of the formula have no solution.
pub fn backward_to_forward()
    ensures { BackwardToForward }
{}

/// A lean step is met, strictly too.
pub fn lean_is_met()
    ensures { LeanIsMet }
{}

/// Steps that are lean over what they and later ones cite make a trimmed proof.
pub fn trimmed_by_need()
    ensures { TrimmedByNeed }
{}

/// They are met over what they and later ones cite.
pub fn lean_to_forward()
    ensures { LeanToForward }
{}

/// A trimmed proof is verified, strictly too.
pub fn trimmed_is_verified()
    ensures { TrimmedIsVerified }
{}

/// Steps that come from lemmas have the lemmas' pivots.
pub fn steps_from_lemmas_have_pivots()
    ensures { StepsFromLemmasHavePivots }
{}

/// The written steps are those of the lemmas as they were read, but for the order of literals.
pub fn written_is_as_read()
    ensures { WrittenIsAsRead }
{}

/// What is met over the lemmas' clauses is met over the clauses that are written.
pub fn loaded_to_written()
    ensures { LoadedToWritten }
{}

/// What is lean over them is lean over the clauses that are written.
pub fn lean_to_written()
    ensures { LeanToWritten }
{}

/// Where cited clauses come first among the lemmas, they do in what is written.
pub fn core_first_to_written()
    ensures { CoreFirstToWritten }
{}

/// Steps that are lean over the lemmas' clauses make a trimmed proof, whatever the order in which their own
/// clauses are written; it is verified, strictly too, and the cited clauses of the formula have no solution.
pub fn written_is_verified()
    ensures { WrittenIsVerified }
{}

/// A lemma that is shown to fail doesn't pass over the clauses alive before its line.
pub fn failing_does_not_pass()
    ensures { FailingDoesNotPass }
{}

/// The clause at which it fails is alive and cited, and the later steps are met.
pub fn failing_is_needed()
    ensures { FailingIsNeeded }
{}

/// Where each lemma passes, none is shown to fail.
pub fn passing_never_fails()
    ensures { PassingNeverFails }
{}
