// Meeting a step by its witness (Buss and Thapen 2019; Codel, Avigad and Heule 2024). Each live clause that the witness
// touches and doesn't satisfy is refuted, with the complements of what is left of it, by the hints of its group.
ghost use Rattle.std.specs.Prelude.{◌≡◌, ◌≤◌, false, IfOk};
ghost use Rattle.sr_model.specs.Substitution.{has_pair, substitution, reduction};
ghost use Rattle.sr_model.specs.Chain.{clauses};
ghost use Rattle.sr_model.specs.Meeting.{needs_hints};
ghost use Rattle.sr_check.specs.Trail.{CoversClauses};
ghost use Rattle.sr_occurs.specs.Candidates.{HoldsLeft};
ghost use Rattle.sr_check.specs.Candidates.{AreRising};
ghost use Rattle.sr_check.specs.Trials.{subst_of, trial_meets, trial_fits, trial_meets_all, trial_meets_list, trial_meets_number, trial_meets_clause};
ghost use Rattle.sr_occurs.specs.Occurring.{IsLive};
ghost use Rattle.sr_check.specs.Indexing.{IsIndex};
ghost use Rattle.sr_check.specs.Ends.{meeting_of};

use crate::chains::{End, assume, refute};
use crate::groups::hints_for;
use crate::live::LiveClauses;
use crate::meeting::Meet;
use crate::trail::Trail;
use sr_base::{Cause, ClauseId, Lit, LitList, NoMemory};
use sr_table::{IdSet, IdTable};
use sr_wit::{GroupList, Reduced, Subst};

/// A witness, what it is tried on, and the groups of hints with the table that leads to them.
#[derive(Clone, Copy)]
pub struct Trial<'a> {
    pub strict: bool,
    pub live: &'a LiveClauses<'a>,
    pub subst: &'a Subst,
    pub groups: &'a GroupList,
    pub index: &'a IdTable,
}

/// How a step is met by its witness, with the numbers of the clauses of which it may leave something. The trail holds what
/// the prefix reached, and keep it.
pub fn meet_witness(
    trial: &Trial,
    numbers: &mut IdSet,
    trail: &mut Trail,
    left: &mut LitList,
) -> Result<Meet, NoMemory>
    requires no_pair { has_pair trail.old.lits ≡ false }
    requires room { CoversClauses trail.old.room (clauses trial.now.live.now) }
    requires index { IsIndex trial.now.index.now trial.now.live.now trial.now.groups.now }
    requires rising { AreRising trial.now.live.now }
    requires left { HoldsLeft (subst_of trial.now) numbers.old trial.now.live.now }
    ensures met { IfOk result (λ m. trial_meets trial.now trail.old.lits ≡ meeting_of m) }
    ensures room { trail.old.room ≤ trail.new.room }
{
    if let Meet::Unmet(cause) = fit_groups(trial, trail, left)? {
        return Ok(Meet::Unmet(cause));
    }
    meet_all(trial, numbers, trail, left)
}

/// Strict checking asks of each group that it is the first for its clause, and that the clause is live and needs it.
fn fit_groups(trial: &Trial, trail: &mut Trail, left: &mut LitList) -> Result<Meet, NoMemory>
    requires no_pair { has_pair trail.old.lits ≡ false }
    requires index { IsIndex trial.now.index.now trial.now.live.now trial.now.groups.now }
    ensures met { IfOk result (λ m. trial_fits trial.now trail.old.lits ≡ meeting_of m) }
    ensures lits { trail.new.lits ≡ trail.old.lits }
    ensures room { trail.old.room ≤ trail.new.room }
{
    if !trial.strict {
        return Ok(Meet::Met);
    }
    for i in 0..trial.groups.len() {
        let id = trial.groups.id(i);
        let Some(lits) = trial.live.get(id) else {
            return Ok(Meet::Unmet(Cause::GroupSpare(id)));
        };
        if trial.index.get(id) as usize != i + 1 {
            return Ok(Meet::Unmet(Cause::GroupTwice(id)));
        }
        if !needs(trial.subst, trail, left, lits)? {
            return Ok(Meet::Unmet(Cause::GroupSpare(id)));
        }
    }
    Ok(Meet::Met)
}

/// Whether a clause needs hints: it is touched and not satisfied, and what is left isn't refuted at once.
fn needs(
    subst: &Subst,
    trail: &mut Trail,
    left: &mut LitList,
    lits: &[Lit],
) -> Result<bool, NoMemory>
    requires no_pair { has_pair trail.old.lits ≡ false }
    ensures value { IfOk result (λ b. b ≡ needs_hints trail.old.lits (reduction (substitution subst.now) lits.now)) }
    ensures lits { trail.new.lits ≡ trail.old.lits }
    ensures room { trail.old.room ≤ trail.new.room }
{
    if subst.reduce(lits, left)? != Reduced::Left {
        return Ok(false);
    }
    let len = trail.len();
    let assumed = assume(trail, left.as_slice());
    let closes = trail.has_pair();
    trail.truncate(len);
    assumed?;
    Ok(!closes)
}

/// How the live clauses are met: those of the numbers, as nothing is left of the others. Where one isn't met, the first such
/// one is found in rising order.
fn meet_all(
    trial: &Trial,
    numbers: &mut IdSet,
    trail: &mut Trail,
    left: &mut LitList,
) -> Result<Meet, NoMemory>
    requires no_pair { has_pair trail.old.lits ≡ false }
    requires room { CoversClauses trail.old.room (clauses trial.now.live.now) }
    requires index { IsIndex trial.now.index.now trial.now.live.now trial.now.groups.now }
    requires rising { AreRising trial.now.live.now }
    requires left { HoldsLeft (subst_of trial.now) numbers.old trial.now.live.now }
    ensures met { IfOk result (λ m. trial_meets_all trial.now trail.old.lits ≡ meeting_of m) }
    ensures room { trail.old.room ≤ trail.new.room }
{
    if let Meet::Met = meet_each(trial, numbers.as_slice(), trail, left)? {
        return Ok(Meet::Met);
    }
    numbers.sort();
    meet_each(trial, numbers.as_slice(), trail, left)
}

/// How the clauses of numbers are met, in the order of the list.
fn meet_each(
    trial: &Trial,
    ids: &[ClauseId],
    trail: &mut Trail,
    left: &mut LitList,
) -> Result<Meet, NoMemory>
    requires no_pair { has_pair trail.old.lits ≡ false }
    requires room { CoversClauses trail.old.room (clauses trial.now.live.now) }
    requires index { IsIndex trial.now.index.now trial.now.live.now trial.now.groups.now }
    ensures met { IfOk result (λ m. trial_meets_list trial.now trail.old.lits ids.now ≡ meeting_of m) }
    ensures lits { trail.new.lits ≡ trail.old.lits }
    ensures room { trail.old.room ≤ trail.new.room }
{
    for id in ids {
        if let Meet::Unmet(cause) = meet_number(trial, trail, left, *id)? {
            return Ok(Meet::Unmet(cause));
        }
    }
    Ok(Meet::Met)
}

/// How the clause of a number is met, if it is live.
fn meet_number(
    trial: &Trial,
    trail: &mut Trail,
    left: &mut LitList,
    id: ClauseId,
) -> Result<Meet, NoMemory>
    requires no_pair { has_pair trail.old.lits ≡ false }
    requires room { CoversClauses trail.old.room (clauses trial.now.live.now) }
    requires index { IsIndex trial.now.index.now trial.now.live.now trial.now.groups.now }
    ensures met { IfOk result (λ m. trial_meets_number trial.now trail.old.lits id ≡ meeting_of m) }
    ensures lits { trail.new.lits ≡ trail.old.lits }
    ensures room { trail.old.room ≤ trail.new.room }
{
    match trial.live.get(id) {
        None => Ok(Meet::Met),
        Some(lits) => meet_one(trial, trail, left, id, lits),
    }
}

/// How one clause is met.
fn meet_one(
    trial: &Trial,
    trail: &mut Trail,
    left: &mut LitList,
    id: ClauseId,
    lits: &[Lit],
) -> Result<Meet, NoMemory>
    requires no_pair { has_pair trail.old.lits ≡ false }
    requires room { CoversClauses trail.old.room (clauses trial.now.live.now) }
    requires index { IsIndex trial.now.index.now trial.now.live.now trial.now.groups.now }
    requires live { IsLive trial.now.live.now id }
    ensures met { IfOk result (λ m. trial_meets_clause trial.now trail.old.lits id lits.now ≡ meeting_of m) }
    ensures lits { trail.new.lits ≡ trail.old.lits }
    ensures room { trail.old.room ≤ trail.new.room }
{
    if trial.subst.reduce(lits, left)? != Reduced::Left {
        return Ok(Meet::Met);
    }
    let hints = hints_for(trial.index, trial.groups, id);
    let len = trail.len();
    let end = refute(trial.strict, trial.live, trail, left.as_slice(), hints);
    trail.truncate(len);
    match end? {
        End::Closed => Ok(Meet::Met),
        End::Unclosed => Ok(Meet::Unmet(Cause::GroupUnclosed(id))),
        End::Faulty(cause) => Ok(Meet::Unmet(cause)),
    }
}
