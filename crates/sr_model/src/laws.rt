// The laws of the definitions, each as the contract of a function with no body.
ghost use Rattle.sr_model.specs.Laws.{RefutationIsSound, ClosedChainRefutes, UnclosedChainKeeps, RupHolds, RedundancyKeeps, RedundancyIsSound, MetIsSound, EmptyIsSound, VerifiedIsUnsat, StrictIsVerified, TakingJudges, TakingKeepsLive, RejectionKeepsLive, VerificationKeepsLive};
ghost use Rattle.sr_model.specs.Formulas.{FormulasAreSpelled};
ghost use Rattle.sr_model.specs.LsrBinary.{ReadItemsHavePivots};
ghost use Rattle.sr_model.specs.Dsr.{ReadLinesHavePivots};
ghost use Rattle.sr_model.specs.ReadAgain.{NumbersReadAgain, NumbersAreShortest, FormulasReadAgain, SelectionsReadAgain, ItemsReadAgain, BinaryItemsReadAgain, LinesReadAgain, BinaryLinesReadAgain, ItemFilesReadAgain, LineFilesReadAgain};

/// What is refuted is false: no assignment satisfies the clauses and makes all the literals true.
pub fn refutation_is_sound()
    ensures { RefutationIsSound }
{}

/// Where a chain of hints closes, the clauses refute the literals that it began with, strict or not.
pub fn closed_chain_refutes()
    ensures { ClosedChainRefutes }
{}

/// Where a chain of hints ends unclosed, what it reached follows: each assignment that satisfies the
/// clauses and makes the first literals true makes all the literals at its end true.
pub fn unclosed_chain_keeps()
    ensures { UnclosedChainKeeps }
{}

/// A clause with the property of reverse unit propagation (RUP) follows: it holds in each assignment that
/// satisfies the clauses.
pub fn rup_holds()
    ensures { RupHolds }
{}

/// A substitution redundant clause (Buss and Thapen 2019) may be false where the clauses are true, but the
/// assignment that gives each variable the value of its image then satisfies both.
pub fn redundancy_keeps()
    ensures { RedundancyKeeps }
{}

/// Where the clauses with a redundant one have no solution, they have none without it.
pub fn redundancy_is_sound()
    ensures { RedundancyIsSound }
{}

/// Where an item is met and the clauses that are live after it have no solution, those before it have none.
/// A written witness must have the clause's first literal as its pivot.
pub fn met_is_sound()
    ensures { MetIsSound }
{}

/// Where a step with the empty clause is met, the live clauses have no solution.
pub fn empty_is_sound()
    ensures { EmptyIsSound }
{}

/// A formula whose proof is verified has no solution, strict or not. Each written witness must have the
/// first literal of its clause as its pivot.
pub fn verified_is_unsat()
    ensures { VerifiedIsUnsat }
{}

/// What strict checking verifies is verified without.
pub fn strict_is_verified()
    ensures { StrictIsVerified }
{}

/// Items that are taken one after another from a new checker end with the verdict on them.
pub fn taking_judges()
    ensures { TakingJudges }
{}

/// While the verdict is open, they end with the clauses that are live after them.
pub fn taking_keeps_live()
    ensures { TakingKeepsLive }
{}

/// Where an item is rejected, they end with the clauses that were live before it, whatever follows.
pub fn rejection_keeps_live()
    ensures { RejectionKeepsLive }
{}

/// Where the empty clause verifies the proof, they end with the clauses that were live before it.
pub fn verification_keeps_live()
    ensures { VerificationKeepsLive }
{}

/// A witness that is read with a step, in text or in binary, has the first literal of the clause as its pivot.
pub fn read_items_have_pivots()
    ensures { ReadItemsHavePivots }
{}

/// So has one that is read with a lemma.
pub fn read_lines_have_pivots()
    ensures { ReadLinesHavePivots }
{}

/// A number of 63 bits and a sign is read again from its decimal digits, and from its bytes in binary.
pub fn numbers_read_again()
    ensures { NumbersReadAgain }
{}

/// In binary no other bytes that say the number are fewer.
pub fn numbers_are_shortest()
    ensures { NumbersAreShortest }
{}

/// The definition that reads a formula token by token gives one exactly where the tokens are those of a header and its
/// clauses.
pub fn formulas_are_spelled()
    ensures { FormulasAreSpelled }
{}

/// A formula within the limits is read again from its text.
pub fn formulas_read_again()
    ensures { FormulasReadAgain }
{}

/// So is a formula of some of its clauses, by their numbers.
pub fn selections_read_again()
    ensures { SelectionsReadAgain }
{}

/// An item of a proof by hints is read again from its text, whatever follows, and none of it passes a
/// limit: its literals and numbers are within the limits, each number but that of a deletion is at least 1,
/// there is room for its bytes, and its witness repeats no part.
pub fn items_read_again()
    ensures { ItemsReadAgain }
{}

/// The same in binary, where a deletion comes back with the number 0.
pub fn binary_items_read_again()
    ensures { BinaryItemsReadAgain }
{}

/// A lemma or a deletion of a proof by lemmas is read again from its text, whatever follows.
pub fn lines_read_again()
    ensures { LinesReadAgain }
{}

/// The same in binary.
pub fn binary_lines_read_again()
    ensures { BinaryLinesReadAgain }
{}

/// A file that begins with written items spells these first, and where it ends there, no others.
pub fn item_files_read_again()
    ensures { ItemFilesReadAgain }
{}

/// A file that begins with written lines spells these first, and where it ends there, no others.
pub fn line_files_read_again()
    ensures { LineFilesReadAgain }
{}
