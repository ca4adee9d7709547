// Meeting a step: by the chain of its prefix, or by its witness.
ghost use Rattle.std.specs.Prelude.{◌≡◌, ◌≤◌, false, IfOk};
ghost use Rattle.sr_model.specs.Substitution.{has_pair, substitution, IsPivot};
ghost use Rattle.sr_model.specs.Chain.{clauses};
ghost use Rattle.sr_model.specs.Meeting.{no_groups, witness_meets, meets_over, meets};
ghost use Rattle.sr_check.specs.Indexing.{IsClear, IsIndex};
ghost use Rattle.sr_check.specs.Ready.{IsReady};
ghost use Rattle.sr_occurs.specs.Occurring.{KeepsListed};
ghost use Rattle.sr_check.specs.Candidates.{AreRising};
ghost use Rattle.sr_check.specs.Trail.{CoversClauses};
ghost use Rattle.sr_check.specs.Trials.{step_meets};
ghost use Rattle.sr_check.specs.Ends.{meeting_of};

use crate::chains::{End, refute};
use crate::groups::{build, forget};
use crate::listing::build_lists;
use crate::live::LiveClauses;
use crate::trail::Trail;
use crate::witness::{Trial, meet_witness};
use sr_base::{Cause, Lit, LitList, NoMemory};
use sr_occurs::{Occurrences, gather_candidates};
use sr_table::{IdSet, IdTable};
use sr_wit::{GroupList, Step, Subst};
use std::alloc::Global;

/// How a step is met.
#[derive(Clone, Copy)]
pub enum Meet {
    Met,
    Unmet(Cause),
}

/// What is needed besides the clauses while a step is met: a trail, a table for its groups, lists that tell the clauses of
/// a literal, and room for the numbers of clauses and for what is left of a clause. Trail and table are clear between
/// steps.
#[derive(Drop)]
pub struct Scratch {
    pub alloc: Global,
    pub trail: Trail,
    pub index: IdTable,
    pub lists: Occurrences,
    pub numbers: IdSet,
    pub left: LitList,
}

/// How a step is met.
pub fn meet_step(
    strict: bool,
    live: &LiveClauses,
    last: u32,
    scratch: &mut Scratch,
    step: &Step,
) -> Result<Meet, NoMemory>
    requires clear { IsReady scratch.old }
    requires room { CoversClauses scratch.old.trail.room (clauses live.now) }
    requires rising { AreRising live.now }
    requires lists { KeepsListed scratch.old.lists live.now }
    ensures met { IfOk result (λ m. meets strict live.now last step.now ≡ meeting_of m) }
    ensures clear { IsReady scratch.new }
    ensures room { scratch.old.trail.room ≤ scratch.new.trail.room }
    ensures lists { KeepsListed scratch.new.lists live.now }
{
    if step.id() <= last {
        return Ok(Meet::Unmet(Cause::NotNew));
    }
    let met = meet_over(strict, live, scratch, step);
    scratch.trail.truncate(0);
    met
}

/// How a step is met whose number is new.
fn meet_over(
    strict: bool,
    live: &LiveClauses,
    scratch: &mut Scratch,
    step: &Step,
) -> Result<Meet, NoMemory>
    requires clear { IsReady scratch.old }
    requires room { CoversClauses scratch.old.trail.room (clauses live.now) }
    requires rising { AreRising live.now }
    requires lists { KeepsListed scratch.old.lists live.now }
    ensures met { IfOk result (λ m. meets_over strict live.now step.now ≡ meeting_of m) }
    ensures clear { IsClear scratch.new.index }
    ensures room { scratch.old.trail.room ≤ scratch.new.trail.room }
    ensures lists { KeepsListed scratch.new.lists live.now }
{
    let lits = step.clause().lits();
    let hints = step.prefix().as_slice();
    match refute(strict, live, &mut scratch.trail, lits, hints)? {
        End::Closed => Ok(refuse_groups(strict, step.groups())),
        End::Faulty(cause) => Ok(Meet::Unmet(cause)),
        End::Unclosed => match lits {
            [] => Ok(Meet::Unmet(Cause::Unclosed)),
            [pivot, ..] => meet_by_witness(strict, live, scratch, step, *pivot),
        },
    }
}

/// Strict checking refuses the groups of a step that closes by its prefix.
fn refuse_groups(strict: bool, groups: &GroupList) -> Meet
    ensures { no_groups strict groups.now ≡ meeting_of result }
{
    if !strict || groups.len() == 0 {
        return Meet::Met;
    }
    Meet::Unmet(Cause::GroupSpare(groups.id(0)))
}

/// How a step is met by its witness, from the literals that its prefix reached.
fn meet_by_witness(
    strict: bool,
    live: &LiveClauses,
    scratch: &mut Scratch,
    step: &Step,
    pivot: Lit,
) -> Result<Meet, NoMemory>
    requires clear { IsClear scratch.old.index }
    requires no_pair { has_pair scratch.old.trail.lits ≡ false }
    requires room { CoversClauses scratch.old.trail.room (clauses live.now) }
    requires rising { AreRising live.now }
    requires lists { KeepsListed scratch.old.lists live.now }
    requires pivot { IsPivot pivot step.now.clause }
    ensures met { IfOk result (λ m. step_meets strict live.now scratch.old.trail.lits step.now ≡ meeting_of m) }
    ensures clear { IsClear scratch.new.index }
    ensures room { scratch.old.trail.room ≤ scratch.new.trail.room }
    ensures lists { KeepsListed scratch.new.lists live.now }
{
    let groups = step.groups();
    let met = match build(&mut scratch.index, live, groups) {
        Ok(()) => try_witness(strict, live, scratch, step, pivot),
        Err(NoMemory) => Err(NoMemory),
    };
    forget(&mut scratch.index, groups);
    met
}

/// The same where the table leads to the groups. A step without a witness has the one that makes its pivot true.
fn try_witness(
    strict: bool,
    live: &LiveClauses,
    scratch: &mut Scratch,
    step: &Step,
    pivot: Lit,
) -> Result<Meet, NoMemory>
    requires index { IsIndex scratch.old.index live.now step.now.groups }
    requires no_pair { has_pair scratch.old.trail.lits ≡ false }
    requires room { CoversClauses scratch.old.trail.room (clauses live.now) }
    requires rising { AreRising live.now }
    requires lists { KeepsListed scratch.old.lists live.now }
    requires pivot { IsPivot pivot step.now.clause }
    ensures met { IfOk result (λ m. step_meets strict live.now scratch.old.trail.lits step.now ≡ meeting_of m) }
    ensures index { scratch.new.index ≡ scratch.old.index }
    ensures room { scratch.old.trail.room ≤ scratch.new.trail.room }
    ensures lists { KeepsListed scratch.new.lists live.now }
{
    let groups = step.groups();
    match step.witness() {
        Some(subst) => try_subst(strict, live, scratch, subst, groups),
        None => {
            let subst = Subst::pivot_only(scratch.alloc, pivot)?;
            try_subst(strict, live, scratch, &subst, groups)
        }
    }
}

/// How a step is met by a substitution.
fn try_subst(
    strict: bool,
    live: &LiveClauses,
    scratch: &mut Scratch,
    subst: &Subst,
    groups: &GroupList,
) -> Result<Meet, NoMemory>
    requires index { IsIndex scratch.old.index live.now groups.now }
    requires no_pair { has_pair scratch.old.trail.lits ≡ false }
    requires room { CoversClauses scratch.old.trail.room (clauses live.now) }
    requires rising { AreRising live.now }
    requires lists { KeepsListed scratch.old.lists live.now }
    ensures met { IfOk result (λ m. witness_meets strict live.now scratch.old.trail.lits (substitution subst.now) groups.now
        ≡ meeting_of m) }
    ensures index { scratch.new.index ≡ scratch.old.index }
    ensures room { scratch.old.trail.room ≤ scratch.new.trail.room }
    ensures lists { KeepsListed scratch.new.lists live.now }
{
    build_lists(scratch.alloc, &mut scratch.lists, live)?;
    gather_candidates(
        &mut scratch.lists,
        live.table(),
        subst,
        &mut scratch.numbers,
    )?;
    let trial = Trial {
        strict,
        live,
        subst,
        groups,
        index: &scratch.index,
    };
    meet_witness(
        &trial,
        &mut scratch.numbers,
        &mut scratch.trail,
        &mut scratch.left,
    )
}
