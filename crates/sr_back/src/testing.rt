// The test of a clause: literals are assumed, and the alive clauses asked whether they refute them.
ghost use Rattle.std.specs.Prelude.{◌≡◌, ◌<◌, OnOk, IfOk, List, Some, None, length};
ghost use Rattle.sr_base.specs.Literal.{Literal, compl, SameSet, NoRepeats};
ghost use Rattle.std.specs.Prelude.{All};
ghost use Rattle.sr_model.specs.Substitution.{Witness, substitution};
ghost use Rattle.sr_model.specs.Chain.{clauses, clause_of};
ghost use Rattle.sr_trimming.specs.From.{Place};
ghost use Rattle.sr_load.specs.Loaded.{next_of, all_in, Tests};
ghost use Rattle.sr_back.specs.Testing.{assuming_all, with_assumed, place_in, HasWitness, IsWitnessOf, Tells};

use sr_base::{ClauseId, IdList, Lit, LitList, NoMemory};
use sr_load::Loaded;
use sr_wit::{Reduced, Subst};
use std::alloc::Global;

/// What a clause asks of a lemma that is tested with its witness.
#[derive(Clone, Copy, Debug, PartialEq, Eq)]
pub enum Trial {
    /// It needs no group.
    Spare,
    /// It needs one, and is refuted.
    Met,
    /// It needs one, and isn't refuted.
    Stuck,
}

/// Assumes the complements of literals.
pub fn assume_complements<L: Loaded>(loaded: &mut L, lits: &[Lit]) -> Result<(), NoMemory>
    ensures ok { OnOk result (L.state loaded.new ≡ assuming_all (L.state loaded.old) (compl lits.now)) }
    ensures same { L.state loaded.new ≡ with_assumed (L.state loaded.old) (L.state loaded.new).assumed }
{
    for l in lits {
        loaded.assume(l.neg())?;
    }
    Ok(())
}

/// Whether the alive clauses refute the complements of literals beside what is assumed, with a chain where they do.
pub fn refute_left<L: Loaded>(
    loaded: &mut L,
    lits: &[Lit],
    chain: &mut IdList,
) -> Result<bool, NoMemory>
    ensures kept { OnOk result (L.state loaded.new ≡ L.state loaded.old) }
    ensures same { L.state loaded.new ≡ with_assumed (L.state loaded.old) (L.state loaded.new).assumed }
    ensures tests { IfOk result (λ b. Tests (assuming_all (L.state loaded.old) (compl lits.now)) b chain.new) }
{
    let mark = loaded.mark();
    assume_complements(loaded, lits)?;
    let refuted = loaded.refute(chain)?;
    loaded.undo_to(mark);
    Ok(refuted)
}

/// The witness of a lemma for which none is written: its one effect is to make the pivot true.
pub fn own_witness<L: Loaded>(
    alloc: Global,
    loaded: &L,
    lemma: ClauseId,
) -> Result<Option<Subst>, NoMemory>
    requires low { length (L.state loaded.now).formula.clauses < lemma }
    requires high { lemma < next_of (L.state loaded.now) }
    requires place { (p : Place) × (place_in (L.state loaded.now) lemma ≡ Some p) }
    ensures { IfOk result (HasWitness (L.state loaded.now) lemma) }
{
    if loaded.witness(lemma).is_some() {
        return Ok(None);
    }
    Ok(Some(Subst::pivot_only(alloc, loaded.pivot(lemma))?))
}

/// The witness of a lemma: that which stands beside it, or else that which is written.
pub fn witness_of<'a, L: Loaded>(
    loaded: &'a L,
    own: &'a Option<Subst>,
    lemma: ClauseId,
) -> &'a Subst
    requires low { length (L.state loaded.now).formula.clauses < lemma }
    requires high { lemma < next_of (L.state loaded.now) }
    requires witness { HasWitness (L.state loaded.now) lemma own.now }
    ensures { IsWitnessOf (L.state loaded.now) lemma result.now }
{
    if let Some(subst) = own {
        return subst;
    }
    match loaded.witness(lemma) {
        Some(subst) => subst,
        None => unreachable!(),
    }
}

/// Tests what the witness of a lemma leaves of a clause.
pub fn try_clause<L: Loaded>(
    loaded: &mut L,
    own: &Option<Subst>,
    lemma: ClauseId,
    id: ClauseId,
    left: &mut LitList,
    chain: &mut IdList,
) -> Result<Trial, NoMemory>
    requires low { length (L.state loaded.old).formula.clauses < lemma }
    requires high { lemma < next_of (L.state loaded.old) }
    requires witness { HasWitness (L.state loaded.old) lemma own.now }
    requires from { 0 < id }
    requires below { id < next_of (L.state loaded.old) }
    ensures kept { OnOk result (L.state loaded.new ≡ L.state loaded.old) }
    ensures same { L.state loaded.new ≡ with_assumed (L.state loaded.old) (L.state loaded.new).assumed }
    ensures tells { IfOk result (λ t. (b c : List Literal) (w : Witness) → All NoRepeats (clauses (all_in (L.state loaded.old))) → SameSet (L.state loaded.old).assumed b
        → IsWitnessOf (L.state loaded.old) lemma w → clause_of (all_in (L.state loaded.old)) id ≡ Some c → Tells (L.state loaded.old) b (substitution w) c chain.new t) }
{
    let subst = witness_of(loaded, own, lemma);
    let Reduced::Left = subst.reduce(loaded.clause(id), left)? else {
        return Ok(Trial::Spare);
    };
    if !refute_left(loaded, left.as_slice(), chain)? {
        return Ok(Trial::Stuck);
    }
    if chain.as_slice().is_empty() {
        return Ok(Trial::Spare);
    }
    Ok(Trial::Met)
}
