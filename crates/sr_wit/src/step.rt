// Steps of a proof by hints, after LRAT and its extension by witnesses (Codel, Avigad and Heule 2024).
ghost use Rattle.std.specs.Prelude.{◌≡◌, ◌↔◌, IsNone, IfSome, IsTrue};
ghost use Rattle.std.specs.Option.{option_copied};
ghost use Rattle.sr_model.specs.Substitution.{IsPivot};
ghost use Rattle.sr_model.specs.Meeting.{HasPivot};
ghost use Rattle.sr_wit.specs.Steps.{step_with, LacksPivot};

use crate::group::GroupList;
use crate::subst::Subst;
use sr_base::{Clause, IdList, Lit, LitList};
use std::marker::Model;

/// A step: the clause that it adds under its number, its witness where one is written, the hints of its
/// prefix, and the groups of hints for the clauses that the witness touches.
#[derive(Drop)]
pub struct Step {
    id: u32,
    clause: Clause,
    witness: Option<Subst>,
    prefix: IdList,
    groups: GroupList,
}

impl Model for Step {
    ghost use Rattle.sr_model.specs.Meeting.{Step as StepValue, HasPivot};
    ghost use Rattle.sr_wit.specs.Steps.{step_with};

    ghost Value = { StepValue };

    ghost view = { λ s. step_with s.id s.clause s.witness s.prefix s.groups };

    ghost invariant = { λ s. HasPivot (step_with s.id s.clause s.witness s.prefix s.groups) };
}

/// The lists of a step: the literals of its clause in order, the hints of its prefix, and its groups.
#[derive(Drop)]
pub struct StepLists {
    pub lits: LitList,
    pub prefix: IdList,
    pub groups: GroupList,
}

impl Step {
    /// The step of its parts; none where a witness is given whose pivot isn't the clause's first literal.
    pub fn new(
        id: u32,
        clause: Clause,
        witness: Option<Subst>,
        prefix: IdList,
        groups: GroupList,
    ) -> Option<Step>
        ensures none { IsNone result ↔ LacksPivot clause witness }
        ensures some { IfSome result (λ s. s ≡ step_with id clause witness prefix groups) }
        ensures pivot { IfSome result HasPivot }
    {
        if let Some(subst) = &witness
            && !is_first(subst.pivot(), &clause)
        {
            return None;
        }
        Some(Step {
            id,
            clause,
            witness,
            prefix,
            groups,
        })
    }

    /// The number under which the clause becomes live.
    pub fn id(&self) -> u32
        ensures { result ≡ self.now.id }
    {
        self.id
    }

    /// The clause that the step adds.
    pub fn clause(&self) -> &Clause
        ensures value { result.now ≡ self.now.clause }
        ensures pivot { HasPivot self.now }
    {
        &self.clause
    }

    /// The lists of the step, for the step. Its witness is let go.
    pub fn into_lists(self) -> StepLists
        ensures lits { result.lits ≡ self.clause }
        ensures prefix { result.prefix ≡ self.prefix }
        ensures groups { result.groups ≡ self.groups }
    {
        let Step {
            clause,
            prefix,
            groups,
            ..
        } = self;
        let lits = clause.into_list();
        StepLists {
            lits,
            prefix,
            groups,
        }
    }

    /// The witness, where one is written. Its pivot is the clause's first literal.
    pub fn witness(&self) -> Option<&Subst>
        ensures value { option_copied result ≡ self.now.witness }
        ensures pivot { HasPivot self.now }
    {
        self.witness.as_ref()
    }

    /// The hints that come first.
    pub fn prefix(&self) -> &IdList
        ensures { result.now ≡ self.now.prefix }
    {
        &self.prefix
    }

    /// The groups in order.
    pub fn groups(&self) -> &GroupList
        ensures { result.now ≡ self.now.groups }
    {
        &self.groups
    }
}

/// Whether a literal is the first of a clause.
fn is_first(pivot: Lit, clause: &Clause) -> bool
    ensures { IsTrue result ↔ IsPivot pivot clause.now }
{
    match clause.lits() {
        [first, ..] => first.is(pivot),
        [] => false,
    }
}
