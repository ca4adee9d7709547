// The clauses of which a witness may leave something: those that hold a literal that it makes false or sends elsewhere. The
// others are satisfied, or keep all their literals.
ghost use Rattle.std.specs.Prelude.{[], ◌∷◌, OnOk};
ghost use Rattle.sr_base.specs.Literal.{compl};
ghost use Rattle.sr_model.specs.Substitution.{substitution};
ghost use Rattle.sr_table.specs.Numbers.{KeepsHeld};
ghost use Rattle.sr_occurs.specs.Occurring.{KeepsFor};
ghost use Rattle.sr_occurs.specs.Candidates.{Gathers, GathersLeft, sent_literals};

use crate::occurrences::Occurrences;
use sr_base::{Lit, NoMemory};
use sr_table::{IdSet, IdTable};
use sr_wit::Subst;

/// Gathers the numbers of the clauses of which a witness may leave something, each once, out of those that a table leads
/// from.
pub fn gather_candidates(
    lists: &mut Occurrences,
    table: &IdTable,
    subst: &Subst,
    numbers: &mut IdSet,
) -> Result<(), NoMemory>
    ensures listed { KeepsFor table.now lists.old lists.new }
    ensures left { OnOk result (GathersLeft table.now lists.old (substitution subst.now) numbers.new) }
{
    numbers.clear()?;
    lists.gather(table, subst.pivot().neg(), numbers)?;
    gather_complements(lists, table, subst.assigned(), numbers)?;
    gather_sent(lists, table, subst.maps(), numbers)?;
    Ok(())
}

/// Gathers the clauses that hold the complement of one of the literals.
fn gather_complements(
    lists: &mut Occurrences,
    table: &IdTable,
    lits: &[Lit],
    numbers: &mut IdSet,
) -> Result<(), NoMemory>
    ensures listed { KeepsFor table.now lists.old lists.new }
    ensures kept { KeepsHeld numbers.old numbers.new }
    ensures ok { OnOk result (Gathers table.now lists.old (compl lits.now) numbers.new) }
{
    for l in lits {
        lists.gather(table, l.neg(), numbers)?;
    }
    Ok(())
}

/// Gathers the clauses that hold a literal that is sent elsewhere, or its complement.
fn gather_sent(
    lists: &mut Occurrences,
    table: &IdTable,
    maps: &[(Lit, Lit)],
    numbers: &mut IdSet,
) -> Result<(), NoMemory>
    ensures listed { KeepsFor table.now lists.old lists.new }
    ensures kept { KeepsHeld numbers.old numbers.new }
    ensures ok { OnOk result (Gathers table.now lists.old (sent_literals maps.now) numbers.new) }
{
    for (from, to) in maps {
        gather_map(lists, table, *from, *to, numbers)?;
    }
    Ok(())
}

/// Gathers the clauses that hold a literal or its complement, if it is sent elsewhere.
fn gather_map(
    lists: &mut Occurrences,
    table: &IdTable,
    from: Lit,
    to: Lit,
    numbers: &mut IdSet,
) -> Result<(), NoMemory>
    ensures listed { KeepsFor table.now lists.old lists.new }
    ensures kept { KeepsHeld numbers.old numbers.new }
    ensures ok { OnOk result (Gathers table.now lists.old (sent_literals ((from, to) ∷ [])) numbers.new) }
{
    if from.is(to) {
        return Ok(());
    }
    lists.gather(table, from, numbers)?;
    lists.gather(table, from.neg(), numbers)?;
    Ok(())
}
