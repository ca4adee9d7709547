// The lists by literal of the live clauses.
ghost use Rattle.std.specs.Prelude.{◌≡◌, IfOk, OnOk, OnErr};
ghost use Rattle.sr_occurs.specs.Occurring.{AreListed, KeepsListed};

use crate::live::LiveClauses;
use sr_base::NoMemory;
use sr_occurs::Occurrences;
use std::alloc::Global;

/// Builds the lists of the live clauses, unless they are built.
pub fn build_lists(
    alloc: Global,
    lists: &mut Occurrences,
    live: &LiveClauses,
) -> Result<(), NoMemory>
    requires { KeepsListed lists.old live.now }
    ensures ok { OnOk result (AreListed lists.new live.now) }
    ensures err { OnErr result (lists.new ≡ lists.old) }
{
    if !lists.is_built() {
        *lists = lists_of(alloc, live)?;
    }
    Ok(())
}

/// The lists of the live clauses.
fn lists_of(alloc: Global, live: &LiveClauses) -> Result<Occurrences, NoMemory>
    ensures { IfOk result (λ o. AreListed o live.now) }
{
    let mut lists = Occurrences::begin(alloc);
    let mut walk = live.walk();
    while let Some((id, lits)) = walk.next() {
        lists.enter(id, lits)?;
    }
    Ok(lists)
}
