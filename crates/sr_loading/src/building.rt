// Formulas, lines, loaders and loaded proofs for the tests.
ghost use Rattle.std.specs.Prelude.{◌↔◌, IsTrue, IfOk};
ghost use Rattle.sr_wit.specs.Formulas.{UsesUpTo};
ghost use Rattle.sr_model.specs.Dsr.{LineHasPivot};
ghost use Rattle.sr_lemma.specs.Lines.{line_of};

use sr_base::{Clause, IdList, Items, Limits, Lit, LitList};
use sr_lemma::{DsrLine, Lemma};
use sr_load::{LoadError, Loaded, LoadedProof, Loader, Progress};
use sr_wit::Formula;
use std::alloc::Global;
use std::test::Fail;

/// Clauses or lines, as numbers. A line is a lemma, or, where its first number is 0, a deletion.
pub(crate) type Lists = &'static [&'static [i64]];

fn literals(alloc: Global, numbers: &[i64]) -> Result<LitList, Fail> {
    let mut lits = Items::new(alloc);
    for number in numbers {
        lits.push(Lit::new(*number).ok_or("no literal")?)?;
    }
    Ok(lits)
}

fn uses_up_to(lits: &[Lit], vars: u32) -> bool
    ensures { IsTrue result ↔ UsesUpTo vars lits.now }
{
    lits.iter().all(|l| l.var() <= vars)
}

/// Adds a clause to a formula, where it uses only the formula's variables.
pub(crate) fn add(formula: &mut Formula, clause: Clause) -> Result<(), Fail> {
    let vars = formula.vars();
    if formula.count() < 100 && uses_up_to(clause.lits(), vars) {
        formula.push(clause)?;
        Ok(())
    } else {
        Err(Fail::from("a clause out of range"))
    }
}

/// A formula over nine variables.
pub(crate) fn formula_of(alloc: Global, clauses: &[&[i64]]) -> Result<Formula, Fail> {
    let mut formula = Formula::new(alloc, 9);
    for numbers in clauses {
        let lits = literals(alloc, numbers)?;
        add(&mut formula, Clause::from_list(alloc, lits)?)?;
    }
    Ok(formula)
}

fn line_of_numbers(alloc: Global, numbers: &[i64]) -> Result<DsrLine, Fail>
    ensures { IfOk result (λ l. LineHasPivot (line_of l)) }
{
    if numbers.len() > 0 && numbers[0] == 0 {
        let lits = literals(alloc, &numbers[1..])?;
        return Ok(DsrLine::Del(Clause::from_list(alloc, lits)?));
    }
    let lits = literals(alloc, numbers)?;
    match Lemma::from_literals(alloc, lits, 0) {
        Ok(lemma) => Ok(DsrLine::Add(lemma)),
        Err(_) => Err(Fail::from("no lemma")),
    }
}

/// Takes a line, where loading goes on.
pub(crate) fn take(loader: &mut Loader, line: &mut DsrLine) -> Result<Progress, LoadError>
    requires { LineHasPivot (line_of line.old) }
{
    match loader.state() {
        Progress::Going => loader.line(line),
        stop => Ok(stop),
    }
}

/// Takes lines, also behind one that is refused, and gives the answer to the last one.
pub(crate) fn take_all(
    alloc: Global,
    loader: &mut Loader,
    lines: &[&[i64]],
) -> Result<Result<Progress, LoadError>, Fail> {
    let mut answer = Ok(loader.state());
    for numbers in lines {
        let mut line = line_of_numbers(alloc, numbers)?;
        answer = take(loader, &mut line);
    }
    Ok(answer)
}

/// A loader, behind a box since its parts are many.
pub(crate) fn new_loader(
    alloc: Global,
    formula: Formula,
    limits: &Limits,
    keep_units: bool,
) -> Result<Result<Box<Loader>, LoadError>, Fail> {
    match Loader::new(alloc, formula, limits, keep_units) {
        Ok(loader) => Ok(Ok(Box::new(alloc, loader)?)),
        Err(error) => Ok(Err(error)),
    }
}

/// A loader under the shipped limits.
pub(crate) fn loader_of(
    alloc: Global,
    formula: Formula,
    keep_units: bool,
) -> Result<Box<Loader>, Fail> {
    match new_loader(alloc, formula, &Limits::shipped(), keep_units)? {
        Ok(loader) => Ok(loader),
        Err(_) => Err(Fail::from("no loader")),
    }
}

/// The proof of a loader that has stopped at a conflict.
pub(crate) fn finish(alloc: Global, loader: Box<Loader>) -> Result<Box<LoadedProof>, Fail> {
    match loader.state() {
        Progress::Conflict => {
            let proof = Box::into_inner(loader).finish()?;
            Ok(Box::new(alloc, proof)?)
        }
        _ => Err(Fail::from("no conflict")),
    }
}

/// A proof that was loaded to its conflict.
pub(crate) fn loaded(
    alloc: Global,
    clauses: &[&[i64]],
    lines: &[&[i64]],
    keep_units: bool,
) -> Result<Box<LoadedProof>, Fail> {
    let formula = formula_of(alloc, clauses)?;
    let mut loader = loader_of(alloc, formula, keep_units)?;
    let _answer = take_all(alloc, &mut *loader, lines)?;
    finish(alloc, loader)
}

/// Takes lines back, where no literal is assumed, and gives the lemma's number, or 0.
pub(crate) fn back(proof: &mut LoadedProof) -> Result<u32, Fail> {
    if proof.mark() > 0 {
        return Err(Fail::from("assumed"));
    }
    Ok(proof.back().unwrap_or(0))
}

/// The numbers of the alive clauses, of which each is asked for from one after the last.
pub(crate) fn alive(alloc: Global, proof: &LoadedProof) -> Result<IdList, Fail> {
    let mut found = Items::new(alloc);
    let mut from = 0u32;
    for _ in 0..100 {
        let Some(id) = proof.alive_from(from) else {
            return Ok(found);
        };
        found.push(id)?;
        from = id.wrapping_add(1);
    }
    Ok(found)
}

/// Cites a clause, where it is alive and not cited.
#[tactic(auto, using(crate::proofs::Citing::alive_is_numbered))]
pub(crate) fn cite(proof: &mut LoadedProof, id: u32) -> Result<(), Fail> {
    if proof.is_cited(id) {
        return Ok(());
    }
    if let Some(alive) = proof.alive_from(id) {
        if alive == id {
            proof.cite(alive)?;
        }
    }
    Ok(())
}

/// Fails where something doesn't hold of the n-th case.
pub(crate) fn expect(holds: bool, case: u64, what: &str) -> Result<(), Fail> {
    if holds {
        Ok(())
    } else {
        Err(Fail::new(format_args!("case {case}: {what}")))
    }
}
