// The candidates of a witness over three clauses.
use crate::{Occurrences, gather_candidates};
use sr_base::Lit;
use sr_table::{IdSet, IdTable};
use sr_wit::Subst;
use std::alloc::Global;
use std::test::Fail;

fn literal(number: i64) -> Result<Lit, Fail> {
    Ok(Lit::new(number).ok_or("no literal")?)
}

fn enter(
    lists: &mut Occurrences,
    table: &mut IdTable,
    id: u32,
    numbers: &[i64; 2],
) -> Result<(), Fail> {
    let lits = [literal(numbers[0])?, literal(numbers[1])?];
    lists.enter(id, &lits)?;
    table.set(id, 1)?;
    Ok(())
}

/// The clauses 1: 1 2, 2: -1 3 and 5000: -1 -2.
fn three_clauses(alloc: Global) -> Result<(Occurrences, IdTable), Fail> {
    let mut lists = Occurrences::begin(alloc);
    let mut table = IdTable::new(alloc)?;
    enter(&mut lists, &mut table, 1, &[1, 2])?;
    enter(&mut lists, &mut table, 2, &[-1, 3])?;
    enter(&mut lists, &mut table, 5_000, &[-1, -2])?;
    Ok((lists, table))
}

#[test]
fn a_pivot_touches_the_clauses_with_its_complement(rt: HostRuntime) -> Result<(), Fail> {
    let (mut lists, mut table) = three_clauses(rt.alloc())?;
    let witness = Subst::pivot_only(rt.alloc(), literal(1)?)?;
    let mut numbers = IdSet::new(rt.alloc())?;
    gather_candidates(&mut lists, &table, &witness, &mut numbers)?;
    assert_eq!(rt; numbers.as_slice(), [2, 5_000].as_slice());
    table.unset(2);
    gather_candidates(&mut lists, &table, &witness, &mut numbers)?;
    assert_eq!(rt; numbers.as_slice(), [5_000].as_slice());
    Ok(())
}

#[test]
fn lists_are_forgotten_only_above_their_limit(rt: HostRuntime) -> Result<(), Fail> {
    let (mut lists, _table) = three_clauses(rt.alloc())?;
    lists.limit(6);
    assert_eq!(rt; lists.is_built(), true);
    lists.limit(5);
    assert_eq!(rt; lists.is_built(), false);
    Ok(())
}
