// Propagation over the core, or over all.
ghost use Rattle.std.specs.Prelude.{◌≡◌, ◌≤◌, ◌+◌, ◌*◌, true, false, length, MatchOption};
ghost use Rattle.sr_model.specs.Substitution.{has_pair};
ghost use Rattle.sr_watch.specs.State.{IsSound};
ghost use Rattle.sr_watch.specs.Marks.{joined};
ghost use Rattle.sr_watch.specs.Running.{IsNothing, IsFalse};
ghost use Rattle.sr_watch.specs.Parts.{is_core};
ghost use Rattle.sr_watch.specs.Walking.{IsStep, IsPropagated, AreReasonsOn, HasSameShape, IsFalseOn, IsFalsified, AreSettled};
ghost use Rattle.sr_watch.specs.Resting.{IsResting, IsPrepared};
ghost use Rattle.sr_watch.specs.Reading.{holders, shorts, falls_from, most_reads};

use crate::parts::Part;
use crate::settling::settle_all;
use crate::trail::Trail;
use crate::walking::{advance, close};
use crate::watches::Watches;
use sr_arena::{ClauseMem, Cref, Steps};
use std::sync::ledger::Ledger;

/// Derives what follows by the core, up to a clause that is false.
pub fn close_core<L: Ledger>(
    memory: &mut ClauseMem,
    core: &mut Watches,
    trail: &mut Trail,
    steps: &mut Steps<L>,
) -> Option<Cref>
    requires sound { IsSound (joined trail.old memory.old) }
    requires resting { IsResting true memory.old trail.old core.old }
    requires no_pair { has_pair trail.old.lits ≡ false }
    ensures step { IsStep true memory.old memory.new trail.old trail.new }
    ensures sound { IsSound (joined trail.new memory.new) }
    ensures shape { HasSameShape core.old.lists core.new.lists }
    ensures resting { IsResting true memory.new trail.new core.new }
    ensures settled { MatchOption result (AreSettled true memory.new trail.new.lits) (λ at. IsFalseOn true memory.new trail.new.lits at) }
    ensures ticks { steps.new ≤ steps.old + falls_from (holders true memory.old) trail.new.lits core.old.done + shorts true memory.old + 1 }
{
    if let Some(at) = settle_all(memory, core, trail, true, steps) {
        return Some(at);
    }
    if let Some(at) = close(memory, core, trail, true, steps) {
        return Some(at);
    }
    core.keep(trail.lits().len());
    None
}

/// Derives what follows by all clauses, first by those of the core, up to a clause that is false.
pub fn close_all<L: Ledger>(
    memory: &mut ClauseMem,
    core: &mut Watches,
    rest: &mut Watches,
    trail: &mut Trail,
    steps: &mut Steps<L>,
) -> Option<Cref>
    requires sound { IsSound (joined trail.old memory.old) }
    requires core_rests { IsResting true memory.old trail.old core.old }
    requires rest_rests { IsResting false memory.old trail.old rest.old }
    requires no_pair { has_pair trail.old.lits ≡ false }
    ensures steps { IsPropagated memory.old memory.new trail.old trail.new }
    ensures sound { IsSound (joined trail.new memory.new) }
    ensures core_shape { HasSameShape core.old.lists core.new.lists }
    ensures rest_shape { HasSameShape rest.old.lists rest.new.lists }
    ensures core_rests { IsResting true memory.new trail.new core.new }
    ensures rest_rests { IsResting false memory.new trail.new rest.new }
    ensures settled { MatchOption result (AreSettled true memory.new trail.new.lits × AreSettled false memory.new trail.new.lits) (λ at. IsFalsified memory.new trail.new.lits at) }
    ensures ticks { steps.new ≤ steps.old + falls_from (holders true memory.old) trail.new.lits core.old.done + falls_from (holders false memory.old) trail.new.lits rest.old.done + shorts true memory.old + shorts false memory.old + 2 }
{
    if let Some(at) = settle_all(memory, core, trail, true, steps) {
        return Some(at);
    }
    if let Some(at) = settle_all(memory, rest, trail, false, steps) {
        return Some(at);
    }
    loop {
        if let Some(at) = close(memory, core, trail, true, steps) {
            return Some(at);
        }
        let len = trail.lits().len();
        if rest.done >= len {
            core.keep(len);
            rest.keep(len);
            return None;
        }
        if let Some(at) = advance(memory, rest, trail, false, steps) {
            return Some(at);
        }
    }
}

/// The same over a part.
pub fn close_part<L: Ledger>(
    memory: &mut ClauseMem,
    core: &mut Watches,
    rest: &mut Watches,
    trail: &mut Trail,
    part: Part,
    steps: &mut Steps<L>,
) -> Option<Cref>
    requires sound { IsSound (joined trail.old memory.old) }
    requires core_rests { IsResting true memory.old trail.old core.old }
    requires rest_rests { IsResting false memory.old trail.old rest.old }
    requires no_pair { has_pair trail.old.lits ≡ false }
    ensures steps { IsPropagated memory.old memory.new trail.old trail.new }
    ensures sound { IsSound (joined trail.new memory.new) }
    ensures core_shape { HasSameShape core.old.lists core.new.lists }
    ensures rest_shape { HasSameShape rest.old.lists rest.new.lists }
    ensures core_rests { IsResting true memory.new trail.new core.new }
    ensures rest_rests { IsResting false memory.new trail.new rest.new }
    ensures reasons { is_core part ≡ true → AreReasonsOn true memory.new trail.old trail.new }
    ensures found { MatchOption result (IsNothing part (joined trail.new memory.new)) (λ at. IsFalse part (joined trail.new memory.new) at) }
    ensures ticks { steps.new ≤ steps.old + most_reads part (joined trail.new memory.new) }
{
    if !part.is_core() {
        return close_all(memory, core, rest, trail, steps);
    }
    close_core(memory, core, trail, steps)
}
