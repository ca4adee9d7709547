// The groups of a step by the numbers of their clauses. A table leads from the number of a live clause to the place of
// its first group, counted from 1. It is built for one step, and all that was set is unset after it.
ghost use Rattle.std.specs.Prelude.{◌≡◌, OnOk, OnErr};
ghost use Rattle.sr_model.specs.Meeting.{group_of};
ghost use Rattle.sr_table.specs.Pages.{entry, SameEntries};
ghost use Rattle.sr_check.specs.Indexing.{place_from, IsClear, IsWithin, IsIndex, Notes};

use crate::live::LiveClauses;
use sr_base::NoMemory;
use sr_table::IdTable;
use sr_wit::GroupList;

/// Leads from each live clause to its first group.
pub fn build(index: &mut IdTable, live: &LiveClauses, groups: &GroupList) -> Result<(), NoMemory>
    requires { IsClear index.old }
    ensures ok { OnOk result (IsIndex index.new live.now groups.now) }
    ensures within { IsWithin index.new groups.now }
{
    if groups.len() >= u32::MAX as usize {
        return Err(NoMemory);
    }
    for i in 0..groups.len() {
        note(index, live, groups.id(i), i as u32 + 1)?;
    }
    Ok(())
}

/// Leads from a live clause to a place, if it leads nowhere yet.
fn note(index: &mut IdTable, live: &LiveClauses, number: u32, place: u32) -> Result<(), NoMemory>
    ensures ok { OnOk result (Notes live.now index.old index.new number place) }
    ensures err { OnErr result (SameEntries index.old index.new) }
{
    if live.get(number).is_none() || index.get(number) != 0 {
        return Ok(());
    }
    index.set(number, place)
}

/// Unsets the numbers of the groups.
pub fn forget(index: &mut IdTable, groups: &GroupList)
    requires { IsWithin index.old groups.now }
    ensures { IsClear index.new }
{
    for i in 0..groups.len() {
        index.unset(groups.id(i));
    }
}

/// The hints for a clause: those of its first group, to which the table leads, or none.
pub fn hints_for<'a>(index: &IdTable, groups: &'a GroupList, number: u32) -> &'a [u32]
    requires { entry index.now number ≡ place_from 1 groups.now number }
    ensures { result.now ≡ group_of groups.now number }
{
    let place = index.get(number) as usize;
    if place == 0 {
        return &[];
    }
    groups.hints(place - 1)
}
