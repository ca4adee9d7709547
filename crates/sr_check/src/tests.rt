// A proof from end to end.
ghost use Rattle.std.specs.Prelude.{◌↔◌, IsTrue};
ghost use Rattle.sr_wit.specs.Formulas.{UsesUpTo};

use crate::Checker;
use sr_base::{Clause, IdList, Items, Limits, Lit};
use sr_model::Verdict;
use sr_wit::{Formula, GroupList, LsrItem, Step};
use std::alloc::Global;
use std::test::Fail;

fn unit(alloc: Global, number: i64) -> Result<Clause, Fail> {
    let l = Lit::new(number).ok_or("no literal")?;
    Ok(Clause::from_lits(alloc, &[l])?)
}

fn uses_up_to(lits: &[Lit], vars: u32) -> bool
    ensures { IsTrue result ↔ UsesUpTo vars lits.now }
{
    lits.iter().all(|l| l.var() <= vars)
}

fn add(formula: &mut Formula, clause: Clause) -> Result<(), Fail> {
    let vars = formula.vars();
    if formula.count() < 2 && uses_up_to(clause.lits(), vars) {
        formula.push(clause)?;
    }
    Ok(())
}

fn contradiction(alloc: Global) -> Result<Formula, Fail> {
    let mut formula = Formula::new(alloc, 1);
    add(&mut formula, unit(alloc, 1)?)?;
    add(&mut formula, unit(alloc, -1)?)?;
    Ok(formula)
}

fn empty_clause(alloc: Global, hints: &[u32]) -> Result<LsrItem, Fail> {
    let mut prefix: IdList = Items::new(alloc);
    for hint in hints {
        prefix.push(*hint)?;
    }
    let clause = Clause::from_lits(alloc, &[])?;
    let step = Step::new(3, clause, None, prefix, GroupList::new(alloc)).ok_or("no step")?;
    Ok(LsrItem::Step(step))
}

#[test]
fn a_proof_is_verified(rt: HostRuntime) -> Result<(), Fail> {
    let formula = contradiction(rt.alloc())?;
    let limits = Limits::shipped();
    let Ok(mut checker) = Checker::new(rt.alloc(), formula, &limits, true) else {
        return Err(Fail::from("no checker"));
    };
    assert_eq!(rt; checker.verdict(), Verdict::Going);
    let item = empty_clause(rt.alloc(), &[1, 2])?;
    let Ok(verdict) = checker.take(&item) else {
        return Err(Fail::from("not taken"));
    };
    assert_eq!(rt; verdict, Verdict::Verified);
    Ok(())
}
