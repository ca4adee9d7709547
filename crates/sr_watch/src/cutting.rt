// Entries that are cut, or get another reason.
//
// A clause of one literal that is the reason of an entry is true as long as that entry stands, so it isn't listed. Where the
// entry goes, the clause is listed again before. So where thousands of such clauses are detached one after another, each is
// looked at only when an entry of its own goes.
ghost use Rattle.std.specs.Prelude.{ℕ, List, ◌≡◌, ◌≤◌, length, take, IfSome};
ghost use Rattle.sr_arena.specs.Cells.{Memory, held_in};
ghost use Rattle.sr_watch.specs.Trail.{first_entries};
ghost use Rattle.sr_watch.specs.Walking.{HasSameShape};
ghost use Rattle.sr_watch.specs.Reasons.{AreReasons, MaySucceed, released_entries};
ghost use Rattle.sr_watch.specs.Resting.{IsResting, HasRoom, AreWatched};

use crate::trail::Trail;
use crate::watches::{UNSEEN, Watches, is_on, single};
use sr_arena::{ClauseMem, Cref};
use sr_lists::Watch;

/// Keeps the first entries alone.
pub fn cut(
    memory: &ClauseMem,
    trail: &mut Trail,
    core: &mut Watches,
    rest: &mut Watches,
    mark: usize,
)
    requires mark { mark ≤ length trail.old.lits }
    requires reasons { AreReasons memory.now trail.old }
    requires watched { (known : List ℕ) × AreWatched memory.now known trail.old core.old rest.old }
    ensures value { trail.new ≡ first_entries trail.old mark }
    ensures watched { (known : List ℕ) → AreWatched memory.now known trail.old core.old rest.old → AreWatched memory.now known trail.new core.new rest.new }
{
    if mark == trail.lits().len() {
        return;
    }
    unsee_reasons(memory, trail, core, true, mark);
    unsee_reasons(memory, trail, rest, false, mark);
    trail.cut(mark);
    core.fall_back(mark);
    rest.fall_back(mark);
}

/// Puts the clauses of one literal of a side that are the reasons of entries from `mark` on among those that weren't seen.
#[inline]
fn unsee_reasons(memory: &ClauseMem, trail: &Trail, watches: &mut Watches, core: bool, mark: usize)
    requires reasons { AreReasons memory.now trail.now }
    requires resting { IsResting core memory.now trail.now watches.old }
    requires room { (known : List ℕ) × (length (held_in memory.now.cells) ≡ length known) × HasRoom (length known) watches.old.lists }
    ensures shape { HasSameShape watches.old.lists watches.new.lists }
    ensures resting { IsResting core memory.now (record trail.now { reasons = take mark trail.now.reasons }) watches.new }
{
    if watches.top <= mark {
        return;
    }
    list_reasons(memory, trail, watches, core, mark);
}

/// The same where there may be some. The last comes first, so they will be looked at in the order of their entries.
fn list_reasons(memory: &ClauseMem, trail: &Trail, watches: &mut Watches, core: bool, mark: usize)
    requires reasons { AreReasons memory.now trail.now }
    requires resting { IsResting core memory.now trail.now watches.old }
    requires room { (known : List ℕ) × (length (held_in memory.now.cells) ≡ length known) × HasRoom (length known) watches.old.lists }
    ensures shape { HasSameShape watches.old.lists watches.new.lists }
    ensures resting { IsResting core memory.now (record trail.now { reasons = take mark trail.now.reasons }) watches.new }
{
    let reasons = trail.reasons();
    let mut place = watches.top.min(reasons.len());
    while place > mark {
        place -= 1;
        let Some(at) = Cref::from_index(reasons[place]) else {
            continue;
        };
        if !is_on(memory, at, core) {
            continue;
        }
        if let Some(blocker) = single(memory, at) {
            watches.lists.push(UNSEEN, Watch { blocker, at });
        }
    }
    watches.top = watches.top.min(mark);
}

/// The clause that takes over from the reason of an entry becomes its reason. Where there is none, the entries from there on
/// are cut.
pub fn succeed(
    memory: &ClauseMem,
    trail: &mut Trail,
    core: &mut Watches,
    rest: &mut Watches,
    place: usize,
    heir: Option<Cref>,
)
    requires place { place ≤ length trail.old.lits }
    requires reasons { AreReasons memory.now trail.old }
    requires heir { IfSome heir (λ r. MaySucceed memory.now trail.old place r) }
    requires watched { (known : List ℕ) × AreWatched memory.now known trail.old core.old rest.old }
    ensures value { trail.new ≡ released_entries trail.old place heir }
    ensures watched { (known : List ℕ) → AreWatched memory.now known trail.old core.old rest.old → AreWatched memory.now known trail.new core.new rest.new }
{
    match heir {
        None => cut(memory, trail, core, rest, place),
        Some(reason) => trail.set_reason(place, reason.index()),
    }
}
