// Which of some numbers aren't live when they are dropped one after another. A number that comes twice is dead the second
// time, so the clauses are marked on the way, and all marks are taken away in the end.
ghost use Rattle.std.specs.Prelude.{◌≡◌, ◌≢◌, ℕ, ◌≤◌, Bool, ◌&&◌, not, length, take, slice_get};
ghost use Rattle.sr_model.specs.Assignment.{holds_number};
ghost use Rattle.sr_model.specs.Chain.{Numbered, clause_of};
ghost use Rattle.sr_model.specs.Judging.{first_dead};
ghost use Rattle.sr_table.specs.Pages.{entry};
ghost use Rattle.sr_check.specs.Storage.{LeadsTo, IsLinked, Unmarks, IsMarked, AreUnmarked, KeepsClauses};

use sr_arena::{ClauseMem, Cref};
use sr_base::ClauseId;
use sr_table::IdTable;

/// The first of the numbers that isn't live when its turn comes.
pub fn find_dead(mem: &mut ClauseMem, table: &IdTable, ids: &[ClauseId]) -> Option<ClauseId>
    requires linked { IsLinked mem.old table.now }
    requires unmarked { AreUnmarked mem.old table.now }
    ensures dead { (live : Numbered) → LeadsTo mem.old table.now live → result ≡ first_dead live ids.now }
    ensures same { KeepsClauses mem.old mem.new }
    ensures unmarked { AreUnmarked mem.new table.now }
{
    let reached = mark_each(mem, table, ids);
    unmark(mem, table, &ids[..reached]);
    ids.get(reached).copied()
}

/// Marks the clauses of the numbers up to the first that isn't live or is marked already, and answers how many they are.
fn mark_each(mem: &mut ClauseMem, table: &IdTable, ids: &[ClauseId]) -> usize
    requires linked { IsLinked mem.old table.now }
    requires unmarked { AreUnmarked mem.old table.now }
    ensures within { result ≤ length ids.now }
    ensures dead { (live : Numbered) → LeadsTo mem.old table.now live → first_dead live ids.now ≡ slice_get ids.now result }
    ensures marks { (n : ℕ) → entry table.now n ≢ 0 → IsMarked mem.new table.now n (holds_number n (take result ids.now)) }
    ensures same { KeepsClauses mem.old mem.new }
{
    for (i, id) in ids.iter().enumerate() {
        let Some(at) = Cref::from_index(table.get(*id)) else {
            return i;
        };
        if mem.mark(at) {
            return i;
        }
        mem.set_mark(at, true);
    }
    ids.len()
}

/// Takes away the marks of the clauses of the numbers.
fn unmark(mem: &mut ClauseMem, table: &IdTable, ids: &[ClauseId])
    requires { IsLinked mem.old table.now }
    ensures marks { Unmarks mem.old mem.new table.now ids.now }
    ensures same { KeepsClauses mem.old mem.new }
{
    for id in ids {
        if let Some(at) = Cref::from_index(table.get(*id)) {
            mem.set_mark(at, false);
        }
    }
}
