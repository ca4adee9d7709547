// Search by clause learning: decide until a clause is false, learn, go back, until a budget is spent.
ghost use Rattle.std.specs.Prelude.{ℕ, ◌≡◌, ◌≤◌, ◌<◌, ◌+◌, ◌⊎◌, [], ◌++◌, true, length, OnOk, IfOk, IfErr};
ghost use Rattle.sr_base.specs.Literal.{Literal, complement, has, variable};
ghost use Rattle.sr_base.specs.declared.literal.TheConstants.{MOST_VARS};
ghost use Rattle.sr_model.specs.Judging.{cells_of};
ghost use Rattle.sr_model.specs.Refutation.{Refutes};
ghost use Rattle.sr_watch.specs.State.{held_cells};
ghost use Rattle.sr_solve.specs.Cutting.{AreFresh, AreStampedUpTo};
ghost use Rattle.sr_solve.specs.Levels.{AreLevels, AreTied, IsFalseAt, IsFull};
ghost use Rattle.sr_solve.specs.Solving.{IsTurned, IsTurnedOver, IsLoaded, ArePositive, IsSearching, IsReadOff, Answers, Stops};

use crate::learning::{Conflict, learn};
use crate::levels::{MarkList, add, back_to, close, descend, level_of, restart};
use crate::order::Order;
use sr_base::{AddError, Items, Limits, Lit, LitList, NoMemory};
use sr_watch::{Cref, Propagator};
use sr_wit::Formula;
use std::alloc::Global;

/// What a search answers.
#[derive(Drop)]
pub enum Solved {
    /// A literal for each variable.
    Sat(LitList),
    /// Lemmas after which unit propagation refutes the formula.
    Unsat(Formula),
    /// The lemmas that were learned when a budget was spent.
    Unknown(Formula),
}

/// Why a search isn't begun, or isn't ended.
#[derive(Clone, Copy, Debug, PartialEq, Eq)]
pub enum SolveStop {
    /// With so many lemmas the clause numbers would pass the limit.
    Ids,
    /// The formula is held in more cells than the limit.
    Cells,
    NoMemory,
}

/// Learns from a false clause: adds the lemma to `lemmas`, goes back as far as it lets, and attaches it.
///
/// Where the lemma would pass the limit of cells, it stands in `lemmas` and isn't attached.
pub fn turn(
    propagator: &mut Propagator,
    marks: &mut MarkList,
    order: &mut Order,
    seen: &mut Vec<u32>,
    lits: &mut LitList,
    lemmas: &mut Formula,
    at: Cref,
    number: u32,
) -> Result<(), AddError>
    requires levels { AreLevels propagator.old marks.old }
    requires some { 0 < length marks.old }
    requires false_at { IsFalseAt propagator.old at }
    requires fresh { AreFresh seen.old.items number }
    requires room { length lemmas.old.clauses < 2147483646 }
    requires vars { lemmas.old.vars ≡ propagator.old.vars }
    ensures stamps { OnOk result (AreStampedUpTo seen.new.items number) }
    ensures ok { OnOk result (IsTurned propagator.old propagator.new marks.new lemmas.old.vars lemmas.old.clauses lemmas.new.clauses) }
    ensures vars { OnOk result (lemmas.new.vars ≡ lemmas.old.vars) }
    ensures over { result ≡ Err AddError.Cells → IsTurnedOver propagator.old lemmas.old.vars lemmas.old.clauses lemmas.new.clauses }
{
    let levels = marks.as_slice();
    let last = levels.len() - 1;
    let conflict = Conflict {
        root: levels[0],
        from: levels[last],
        number,
    };
    if learn(propagator, &conflict, at, order, seen, lits).is_err() {
        return Err(AddError::NoMemory);
    }
    if lemmas.push_lits(lits.as_slice()).is_err() {
        return Err(AddError::NoMemory);
    }
    let level = level_of(propagator, marks, lits.as_slice());
    back_to(propagator, marks, order, level);
    order.conflict();
    add(propagator, marks, lits.as_slice(), number)
}

/// Attaches the clauses of a formula.
fn load(alloc: Global, limits: &Limits, formula: &Formula) -> Result<Propagator, NoMemory>
    requires { formula.now.vars ≤ MOST_VARS }
    ensures ok { IfOk result (λ p. IsLoaded p formula.now limits.now.cells) }
    ensures positive { OnOk result (ArePositive formula.now.clauses) }
    ensures fits { IfOk result (λ p. held_cells p ≤ limits.now.cells) }
{
    let mut propagator = Propagator::new(alloc, limits);
    let marks = Items::new(alloc);
    propagator.grow(formula.vars())?;
    for i in 0..formula.count() {
        let lits = formula.clause(i + 1);
        look_at(lits);
        if add(&mut propagator, &marks, lits, i + 1).is_err() {
            return Err(NoMemory);
        }
    }
    Ok(propagator)
}

/// No literal is of the variable 0.
fn look_at(lits: &[Lit])
    ensures { (k : Literal) → has k lits.now ≡ true → 0 < variable k }
{
    for l in lits {
        let _var = l.var();
    }
}

/// The literals of the variables, each as it is true.
fn read_off(alloc: Global, propagator: &Propagator, vars: u32) -> Result<LitList, NoMemory>
    requires full { IsFull propagator.now vars }
    requires room { vars ≤ propagator.now.vars }
    requires fits { vars ≤ MOST_VARS }
    ensures { IfOk result (λ a. IsReadOff propagator.now vars a) }
{
    let mut model = Items::new(alloc);
    for i in 0..vars {
        let l = Lit::from_code(2 * i + 2);
        model.push(true_one(propagator, l))?;
    }
    Ok(model)
}

/// Which of a literal and its complement is true.
fn true_one(propagator: &Propagator, l: Lit) -> Lit
    requires valued { (has l propagator.now.lits ≡ true) ⊎ (has (complement l) propagator.now.lits ≡ true) }
    requires within { variable l ≤ propagator.now.vars }
    ensures is_true { has result propagator.now.lits ≡ true }
    ensures same { variable result ≡ variable l }
{
    if propagator.place(l) == 0 {
        return l.neg();
    }
    l
}

/// Searches until an answer is known or a budget is spent.
fn search(
    alloc: Global,
    propagator: &mut Propagator,
    formula: &Formula,
    conflicts: u32,
) -> Result<Solved, NoMemory>
    requires loaded { IsLoaded propagator.old formula.now propagator.old.most }
    requires fits { held_cells propagator.old ≤ propagator.old.most }
    requires positive { ArePositive formula.now.clauses }
    requires vars { formula.now.vars ≤ MOST_VARS }
    requires room { conflicts ≤ 2147483646 }
    ensures { IfOk result (Answers formula.now propagator.old.most conflicts) }
{
    let vars = formula.vars();
    let mut marks = Items::new(alloc);
    let mut seen = Vec::new(alloc);
    let mut lits = Items::new(alloc);
    let mut lemmas = Formula::new(alloc, vars);
    let mut order = Order::new(alloc, vars)?;
    for i in 0..conflicts {
        restart(propagator, &mut marks, &mut order);
        let Some(at) = descend(propagator, &mut marks, &mut order, vars)? else {
            return Ok(Solved::Sat(read_off(alloc, propagator, vars)?));
        };
        if marks.as_slice().is_empty() {
            return Ok(Solved::Unsat(lemmas));
        }
        match turn(
            propagator,
            &mut marks,
            &mut order,
            &mut seen,
            &mut lits,
            &mut lemmas,
            at,
            i + 1,
        ) {
            Ok(()) => {}
            Err(AddError::Cells) => return Ok(Solved::Unknown(lemmas)),
            Err(AddError::NoMemory) => return Err(NoMemory),
        }
    }
    if !marks.as_slice().is_empty() {
        back_to(propagator, &mut marks, &mut order, 0);
    }
    match close(propagator, &marks) {
        Some(_) => Ok(Solved::Unsat(lemmas)),
        None => Ok(Solved::Unknown(lemmas)),
    }
}

/// Searches for a model of a formula, or for lemmas after which unit propagation refutes it, with at most so many conflicts.
pub fn solve(
    alloc: Global,
    limits: &Limits,
    formula: &Formula,
    conflicts: u32,
) -> Result<Solved, SolveStop>
    requires { 1 ≤ conflicts }
    ensures answers { IfOk result (Answers formula.now limits.now.cells conflicts) }
    ensures stops { IfErr result (Stops formula.now limits.now conflicts) }
    ensures begins { OnOk result (length formula.now.clauses + conflicts + 1 ≤ limits.now.ids) }
    ensures holds { OnOk result (cells_of formula.now.clauses ≤ limits.now.cells) }
{
    let _vars = formula.vars();
    let ids = formula.count() as u64 + conflicts as u64 + 1;
    if ids > limits.ids() as u64 {
        return Err(SolveStop::Ids);
    }
    if formula.cells() > limits.cells() as u64 {
        return Err(SolveStop::Cells);
    }
    let Ok(mut propagator) = load(alloc, limits, formula) else {
        return Err(SolveStop::NoMemory);
    };
    match search(alloc, &mut propagator, formula, conflicts) {
        Ok(solved) => Ok(solved),
        Err(NoMemory) => Err(SolveStop::NoMemory),
    }
}
