// Decisions and levels. What holds of all levels: the entries before each decision are closed under the attached clauses and
// hold no pair, its literal was open there, and all other entries are derived.
ghost use Rattle.std.specs.Prelude.{ℕ, ◌≡◌, ◌≤◌, ◌<◌, ◌+◌, ◌-◌, [], None, length, take, OnOk, OnErr, IfOk, IfSome};
ghost use Rattle.sr_base.specs.Literal.{variable, NoRepeats};
ghost use Rattle.sr_base.specs.declared.literal.TheConstants.{MOST_VARS};
ghost use Rattle.sr_model.specs.Refutation.{Refutes};
ghost use Rattle.sr_watch.specs.declared.parts.Part.TheVariants.{All};
ghost use Rattle.sr_watch.specs.State.{IsSound, AreWithin, AllFalse, clauses_of, value_in, held_cells};
ghost use Rattle.sr_watch.specs.Changes.{cut_to};
ghost use Rattle.sr_solve.specs.Learning.{IsRest, IsLearned};
ghost use Rattle.sr_solve.specs.Levels.{AreLevels, IsReady, IsGrown, IsKept, IsFalseAt, IsPlaceOf, IsFull, IsAgainst, decided, mark_at};

use crate::counting::propagate;
use crate::order::Order;
use sr_base::{AddError, Items, Lit, NoMemory};
use sr_watch::{Cref, Found, Part, Propagator};

/// The numbers of entries before each decision.
pub type MarkList = Items<usize>;

/// Decides an open literal.
pub fn decide(propagator: &mut Propagator, marks: &mut MarkList, l: Lit) -> Result<(), NoMemory>
    requires levels { AreLevels propagator.old marks.old }
    requires rest { IsRest propagator.old (length propagator.old.lits) }
    requires is_open { value_in propagator.old.lits l ≡ None }
    requires within { variable l ≤ propagator.old.vars }
    ensures levels { OnOk result (AreLevels propagator.new marks.new) }
    ensures ok { OnOk result (propagator.new ≡ decided propagator.old l) }
    ensures err { OnErr result (propagator.new ≡ propagator.old) }
{
    marks.push(propagator.mark())?;
    propagator.assume(l);
    Ok(())
}

/// Derives what follows, until nothing more does or a clause is false: then that clause.
pub fn close(propagator: &mut Propagator, marks: &MarkList) -> Option<Cref>
    requires levels { AreLevels propagator.old marks.now }
    ensures levels { AreLevels propagator.new marks.now }
    ensures kept { IsKept propagator.old propagator.new }
    ensures grows { take (length propagator.old.lits) propagator.new.lits ≡ propagator.old.lits }
    ensures sound { IsSound propagator.new }
    ensures still { result ≡ None → IsRest propagator.new (length propagator.new.lits) }
    ensures conflict { IfSome result (λ at. IsFalseAt propagator.new at) }
    ensures root { IfSome result (λ at. marks.now ≡ [] → Refutes (clauses_of propagator.new All) []) }
{
    match propagate(propagator, Part::All) {
        Found::Still => None,
        Found::Conflict(at) => Some(at),
        Found::Pair(_) => unreachable!(),
    }
}

/// Keeps the first levels alone.
pub fn back_to(propagator: &mut Propagator, marks: &mut MarkList, order: &mut Order, level: usize)
    requires levels { AreLevels propagator.old marks.old }
    requires within { level < length marks.old }
    ensures levels { AreLevels propagator.new marks.new }
    ensures marks { marks.new ≡ take level marks.old }
    ensures entries { propagator.new ≡ cut_to propagator.old (mark_at marks.old level) }
{
    let mark = marks.as_slice()[level];
    order.undo(&propagator.entries()[mark..]);
    propagator.undo_to(mark);
    marks.truncate(level);
}

/// Goes back to the root, where the order asks for it.
pub fn restart(propagator: &mut Propagator, marks: &mut MarkList, order: &mut Order)
    requires levels { AreLevels propagator.old marks.old }
    ensures levels { AreLevels propagator.new marks.new }
    ensures kept { IsKept propagator.old propagator.new }
{
    if !order.restarts() {
        return;
    }
    if marks.as_slice().is_empty() {
        return;
    }
    back_to(propagator, marks, order, 0);
}

/// Attaches a clause that forces nothing at any level.
pub fn add(
    propagator: &mut Propagator,
    marks: &MarkList,
    lits: &[Lit],
    number: u32,
) -> Result<(), AddError>
    requires levels { AreLevels propagator.old marks.now }
    requires ready { IsReady propagator.old marks.now lits.now }
    requires distinct { NoRepeats lits.now }
    requires within { AreWithin propagator.old.vars lits.now }
    ensures levels { OnOk result (AreLevels propagator.new marks.now) }
    ensures grown { OnOk result (IsGrown propagator.old propagator.new lits.now) }
    ensures cells { OnOk result (held_cells propagator.new ≡ held_cells propagator.old + (length lits.now + 4)) }
    ensures fits { OnOk result (held_cells propagator.new ≤ propagator.old.most) }
    ensures refused { result ≡ Err AddError.Cells → propagator.old.most < held_cells propagator.old + (length lits.now + 4) }
    ensures err { OnErr result (propagator.new ≡ propagator.old) }
{
    let at = propagator.add(lits, number)?;
    let _index = at.index();
    propagator.attach(at, Part::All);
    Ok(())
}

/// How many levels a learned clause leaves: at each of them it has two literals that aren't false.
pub fn level_of(propagator: &Propagator, marks: &MarkList, lits: &[Lit]) -> usize
    requires levels { AreLevels propagator.now marks.now }
    requires some { 0 < length marks.now }
    requires learned { IsLearned propagator.now (mark_at marks.now (length marks.now - 1)) lits.now }
    ensures within { result < length marks.now }
    ensures ready { IsReady propagator.now (take result marks.now) lits.now }
{
    let place = highest(propagator, &lits[..lits.len() - 1]);
    let marks = marks.as_slice();
    let mut level = marks.len() - 1;
    'down: while level > 0 {
        if marks[level - 1] < place {
            return level;
        }
        level -= 1;
    }
    0
}

/// The greatest of one more than the places where the complements of literals come first; 0 where there are none.
fn highest(propagator: &Propagator, lits: &[Lit]) -> usize
    requires { AllFalse propagator.now.lits lits.now }
    ensures { IsPlaceOf propagator.now lits.now result }
{
    let _entries = propagator.entries();
    let mut most = 0;
    for l in lits {
        let place = propagator.place(l.neg()) as usize;
        if place > most {
            most = place;
        }
    }
    most
}

/// Decides open variables until a clause is false: then that clause. None where all variables have a value.
pub fn descend(
    propagator: &mut Propagator,
    marks: &mut MarkList,
    order: &mut Order,
    vars: u32,
) -> Result<Option<Cref>, NoMemory>
    requires levels { AreLevels propagator.old marks.old }
    requires room { vars ≤ propagator.old.vars }
    requires fits { vars ≤ MOST_VARS }
    ensures levels { OnOk result (AreLevels propagator.new marks.new) }
    ensures kept { OnOk result (IsKept propagator.old propagator.new) }
    ensures full { IfOk result (λ o. o ≡ None → IsFull propagator.new vars) }
    ensures against { IfOk result (λ o. IfSome o (λ at. IsAgainst propagator.new marks.new at)) }
{
    if let Some(at) = close(propagator, marks) {
        return Ok(Some(at));
    }
    'picked: for _turn in 0..vars {
        let Some(l) = order.pick(propagator) else {
            break;
        };
        if l.var() > vars {
            break;
        }
        if propagator.value(l).is_none() {
            decide(propagator, marks, l)?;
            if let Some(at) = close(propagator, marks) {
                return Ok(Some(at));
            }
        }
    }
    decide_rest(propagator, marks, vars)
}

/// Decides the open variables in order, until a clause is false: then that clause.
fn decide_rest(
    propagator: &mut Propagator,
    marks: &mut MarkList,
    vars: u32,
) -> Result<Option<Cref>, NoMemory>
    requires levels { AreLevels propagator.old marks.old }
    requires rest { IsRest propagator.old (length propagator.old.lits) }
    requires room { vars ≤ propagator.old.vars }
    requires fits { vars ≤ MOST_VARS }
    ensures levels { OnOk result (AreLevels propagator.new marks.new) }
    ensures kept { OnOk result (IsKept propagator.old propagator.new) }
    ensures full { IfOk result (λ o. o ≡ None → IsFull propagator.new vars) }
    ensures against { IfOk result (λ o. IfSome o (λ at. IsAgainst propagator.new marks.new at)) }
{
    for i in 0..vars {
        let l = Lit::from_code(2 * i + 3);
        if propagator.value(l).is_none() {
            decide(propagator, marks, l)?;
            if let Some(at) = close(propagator, marks) {
                return Ok(Some(at));
            }
        }
    }
    Ok(None)
}
