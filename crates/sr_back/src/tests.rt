// A pass over a formula that has the empty clause, and no lemma: what is asked of a loaded proof can be met.
ghost use Rattle.std.specs.Prelude.{IfOk};
ghost use Rattle.sr_load.specs.Loaded.{IsLoaded};

use crate::{Back, backward};
use sr_base::{Clause, ClauseId, IdList, Lit, LitList, NoMemory};
use sr_load::Loaded;
use sr_wit::{Formula, Subst};
use std::alloc::Global;
use std::marker::Model;
use std::test::Fail;

/// The formula whose one clause is empty, as a loaded proof.
#[derive(Drop)]
struct EmptyClause {
    formula: Formula,
    cited: IdList,
    assumed: LitList,
}

impl Model for EmptyClause {
    ghost use Rattle.std.specs.Prelude.{◌≡◌, [], ◌∷◌};
    ghost use Rattle.sr_load.specs.Loaded.{LoadedState};

    ghost Value = { LoadedState };

    ghost view = { λ e. record { formula = e.formula; standing = []; undone = []; cited = e.cited; assumed = e.assumed } };

    ghost invariant = { λ e. e.formula.clauses ≡ [] ∷ [] };
}

impl Loaded for EmptyClause {
    ghost state = { λ e. e };

    fn formula(&self) -> &Formula {
        &self.formula
    }

    fn next(&self) -> ClauseId {
        self.formula.count() + 1
    }

    fn clause(&self, id: ClauseId) -> &[Lit] {
        self.formula.clause(id)
    }

    fn pivot(&self, _id: ClauseId) -> Lit {
        let _formula = &self.formula;
        unreachable!()
    }

    fn witness(&self, _id: ClauseId) -> Option<&Subst> {
        let _formula = &self.formula;
        None
    }

    fn is_cited(&self, id: ClauseId) -> bool {
        self.cited.as_slice().contains(&id)
    }

    fn cite(&mut self, id: ClauseId) -> Result<(), NoMemory> {
        self.cited.push(id)
    }

    fn back(&mut self) -> Option<ClauseId> {
        let _formula = &self.formula;
        None
    }

    fn assume(&mut self, l: Lit) -> Result<(), NoMemory> {
        self.assumed.push(l)
    }

    fn mark(&self) -> usize {
        self.assumed.as_slice().len()
    }

    fn undo_to(&mut self, mark: usize) {
        self.assumed.truncate(mark);
    }

    fn refute(&mut self, chain: &mut IdList) -> Result<bool, NoMemory> {
        chain.truncate(0);
        if !self.assumed.as_slice().is_empty() {
            return Err(NoMemory);
        }
        chain.push(1)?;
        Ok(true)
    }
}

fn empty_clause(alloc: Global) -> Result<EmptyClause, Fail>
    ensures { IfOk result IsLoaded }
{
    let mut formula = Formula::new(alloc, 0);
    formula.push(Clause::from_lits(alloc, &[])?)?;
    Ok(EmptyClause {
        formula,
        cited: IdList::new(alloc),
        assumed: LitList::new(alloc),
    })
}

#[test]
fn the_empty_clause_is_the_one_step(rt: HostRuntime) -> Result<(), Fail> {
    let mut proof = empty_clause(rt.alloc())?;
    let Back::Done(steps) = backward(rt.alloc(), &mut proof)? else {
        return Err(Fail::from("no step"));
    };
    assert_eq!(rt; (steps.len(), steps.id(0)), (1, 2));
    assert_eq!(rt; steps.prefix(0), [1].as_slice());
    Ok(())
}
