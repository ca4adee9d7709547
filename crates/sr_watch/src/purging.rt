// Watches of clauses that aren't attached any more.
//
// A clause that is detached stays in the lists until a walk meets it. It is flagged and not marked, and before it is attached
// again all lists are rid of such clauses.
ghost use Rattle.std.specs.Prelude.{ℕ, ◌≡◌, ◌<◌, [], None, true, false, length, slice_index_or};
ghost use Rattle.sr_arena.specs.Cells.{IsHeld, cell_at};
ghost use Rattle.sr_model.specs.Assignment.{holds_number};
ghost use Rattle.sr_watch.specs.Watching.{AreStocked};
ghost use Rattle.sr_watch.specs.Purging.{IsPurgedAt, IsPurged, AreCleared};

use crate::watches::is_on;
use sr_arena::{ClauseMem, Cref};
use sr_lists::{Lists, Watch};

/// Drops the watches of all clauses that aren't attached to the side.
pub fn purge(lists: &mut Lists, memory: &ClauseMem, core: bool)
    requires walked { lists.old.walked ≡ None }
    requires ahead { lists.old.ahead ≡ [] }
    requires stocked { AreStocked core memory.now lists.old [] }
    ensures { IsPurged core memory.now lists.old lists.new }
{
    for key in 0..lists.keys() {
        purge_list(lists, memory, core, key);
    }
}

/// The same in one list.
fn purge_list(lists: &mut Lists, memory: &ClauseMem, core: bool, key: usize)
    requires key { key < length lists.old.lists }
    requires walked { lists.old.walked ≡ None }
    requires ahead { lists.old.ahead ≡ [] }
    requires stocked { AreStocked core memory.now lists.old [] }
    ensures { IsPurgedAt core memory.now lists.old lists.new key }
{
    lists.begin(key);
    while let Some(watch) = lists.next() {
        let Watch { blocker, at } = watch;
        if !is_on(memory, at, core) {
            continue;
        }
        lists.keep(Watch { blocker, at });
    }
    lists.end();
}

/// No clause is taken for one that may still be listed.
pub fn clear(memory: &mut ClauseMem, known: &[Cref])
    requires { (i : ℕ) → i < length known.now → IsHeld memory.old (slice_index_or known.now i 0) }
    ensures cleared { AreCleared memory.old memory.new }
    ensures all { (r : ℕ) → holds_number r known.now ≡ true → (cell_at memory.new r).marked ≡ false → (cell_at memory.new r).flagged ≡ false }
{
    for i in 0..known.len() {
        let at = known[i];
        if memory.mark(at) {
            continue;
        }
        memory.set_flag(at, false);
    }
}
