// Judging a proof item by item.
ghost use Rattle.std.specs.Prelude.{◌≡◌, List, sum_by};
ghost use Rattle.sr_base.specs.Literal.{Literal};
ghost use Rattle.sr_model.specs.Refutation.{has_empty};
ghost use Rattle.std.specs.Prelude.{false};
ghost use Rattle.sr_model.specs.Judging.{start};
ghost use Rattle.sr_desk.specs.Outside.{OnlyReads};
ghost use Rattle.sr_desk.specs.Next.{Stands};
ghost use Rattle.sr_wit.specs.LsrItems.{item_of};
ghost use Rattle.sr_cli.specs.Check.{counted, group_hints, hints_of_step};
ghost use Rattle.sr_cli.specs.Runs.{Tallies, Takes, Judges, HasFileCause};

use sr_base::{Form, LimitKind, Limits, Which};
use sr_check::{Checker, TakeError};
use sr_desk::{ByteReader, Desk};
use sr_emit::Outcome;
use sr_files::outcome_of;
use sr_lsr::ItemReader;
use sr_model::Verdict;
use sr_wit::{GroupList, LsrItem, Step};
use std::alloc::Global;

/// The steps that were met, and their hints.
#[derive(Clone, Copy, Debug, PartialEq, Eq)]
pub(crate) struct Tally {
    pub steps: u64,
    pub hints: u64,
}

impl Tally {
    /// The counts with one more item.
    fn with(self, item: &LsrItem) -> Tally
        ensures { Tallies self (item_of item.now) result }
    {
        match item {
            LsrItem::Drop { .. } => self,
            LsrItem::Step(step) => Tally {
                steps: self.steps.saturating_add(1),
                hints: self.hints.saturating_add(hints_of(step)),
            },
        }
    }
}

/// The hints of a step in its prefix and its groups.
fn hints_of(step: &Step) -> u64
    ensures { result ≡ counted (hints_of_step step.now) }
{
    let groups = hints_in(step.groups());
    groups.saturating_add(step.prefix().as_slice().len() as u64)
}

fn hints_in(groups: &GroupList) -> u64
    ensures { result ≡ counted (sum_by group_hints groups.now) }
{
    let mut hints: u64 = 0;
    for i in 0..groups.len() {
        hints = hints.saturating_add(groups.hints(i).len() as u64);
    }
    hints
}

/// Takes an item, and gives the outcome where judging ends with it.
fn take_item(checker: &mut Checker, tally: &mut Tally, item: &LsrItem) -> Option<Outcome>
    requires { checker.old.state.verdict ≡ Verdict.Going }
    ensures { Takes checker.old checker.new tally.old tally.new (item_of item.now) result }
{
    let counted = tally.with(item);
    match checker.take(item) {
        Ok(Verdict::Going) => {
            *tally = counted;
            None
        }
        Ok(Verdict::Verified) => {
            *tally = counted;
            Some(Outcome::Verified)
        }
        Ok(Verdict::Rejected { id, cause }) => Some(Outcome::RejectedStep { id, cause }),
        Err(TakeError::Cells) => Some(Outcome::Limit {
            which: Which::Proof,
            kind: LimitKind::Cells,
        }),
        Err(TakeError::NoMemory) => Some(Outcome::NoMemory),
    }
}

/// Takes the items of a proof up to the one that ends judging, or to the proof's end.
pub(crate) fn judge_proof<D: Desk>(
    alloc: Global,
    limits: &Limits,
    form: Form,
    checker: Checker,
    tally: &mut Tally,
    reader: ByteReader,
    desk: &mut D,
) -> Outcome
    ghost f: { List (List Literal) }
    requires stands { Stands reader (D.outside desk.old) }
    requires fresh { checker ≡ record { strict = checker.strict; most = limits.now.cells; state = start f; used = checker.used } }
    requires going { has_empty f ≡ false }
    requires none { tally.old ≡ record { steps = 0; hints = 0 } }
    ensures judges { Judges limits.now form checker.strict f reader (D.outside desk.new) result tally.new }
    ensures only { OnlyReads reader.slot (D.outside desk.old) (D.outside desk.new) }
    ensures cause { HasFileCause Which.Proof reader.slot (D.outside desk.old) (D.outside desk.new) result }
{
    let Ok(mut items) = ItemReader::new(alloc, form, reader) else {
        return Outcome::NoMemory;
    };
    let mut checker = checker;
    'items: loop {
        match items.next(desk, limits) {
            Err(error) => return outcome_of(Which::Proof, error),
            Ok(None) => return Outcome::NoEmptyClause,
            Ok(Some(item)) => match take_item(&mut checker, tally, &item) {
                Some(outcome) => return outcome,
                None => items.reuse(item),
            },
        }
    }
}
