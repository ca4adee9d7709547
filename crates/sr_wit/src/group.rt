// Groups of hints: each is for one clause that a witness touches. The hints of all groups stand in one vector, beside the
// numbers of the clauses and the places where the groups start.
ghost use Rattle.std.specs.Prelude.{◌≡◌, ◌+◌, ◌<◌, [], ◌∷◌, ◌++◌, length, drop, OnOk, OnErr, slice_index_or, slice_range};
ghost use Rattle.sr_wit.specs.Groups.{AreStarts, end_before, with_hint};

use sr_base::NoMemory;
use std::alloc::Global;
use std::marker::Model;

/// The number of a group's clause, and the place of its first hint.
#[derive(Clone, Copy)]
struct GroupStart {
    id: u32,
    start: usize,
}

/// The groups of a step: each is the number of a clause, and the hints that refute what a witness leaves of it.
#[derive(Drop)]
pub struct GroupList {
    hints: Vec<u32>,
    starts: Vec<GroupStart>,
}

impl Model for GroupList {
    ghost use Rattle.std.specs.Prelude.{List, length};
    ghost use Rattle.sr_model.specs.Meeting.{Group};
    ghost use Rattle.sr_wit.specs.Groups.{AreStarts, groups_from};

    ghost Value = { List Group };

    ghost view = { λ s. groups_from s.starts.items s.hints.items };

    ghost invariant = { λ s. AreStarts s.starts.items (length s.hints.items) };
}

impl GroupList {
    /// No groups. It takes no memory.
    pub fn new(alloc: Global) -> GroupList
        ensures { result ≡ [] }
    {
        GroupList {
            hints: Vec::new(alloc),
            starts: Vec::new(alloc),
        }
    }

    /// Removes all groups. The list keeps its memory.
    pub fn clear(&mut self)
        ensures { self.new ≡ [] }
    {
        self.starts.clear();
        self.hints.clear();
    }

    /// The number of groups.
    #[inline]
    pub fn len(&self) -> usize
        ensures { result ≡ length self.now }
    {
        self.starts.len()
    }

    /// The number of the clause of the group at an index.
    #[inline]
    pub fn id(&self, i: usize) -> u32
        requires { i < length self.now }
        ensures { result ≡ (slice_index_or self.now i (0, [])).0 }
    {
        id_at(&self.starts, i)
    }

    /// The hints of the group at an index, in order.
    #[inline]
    pub fn hints(&self, i: usize) -> &[u32]
        requires { i < length self.now }
        ensures { result.now ≡ (slice_index_or self.now i (0, [])).1 }
    {
        hints_at(&self.hints, &self.starts, i)
    }

    /// Adds the group of a clause at the end, without hints. The list stays as it was where memory lacks.
    #[inline]
    pub fn begin(&mut self, id: u32) -> Result<(), NoMemory>
        ensures ok { OnOk result (self.new ≡ self.old ++ (id, []) ∷ []) }
        ensures err { OnErr result (self.new ≡ self.old) }
    {
        let start = self.hints.len();
        let group = GroupStart { id, start };
        if self.starts.push(group).is_err() {
            return Err(NoMemory);
        }
        Ok(())
    }

    /// Adds a hint to the last group. The list stays as it was where memory lacks.
    #[inline]
    pub fn add_hint(&mut self, hint: u32) -> Result<(), NoMemory>
        requires { 0 < length self.old }
        ensures ok { OnOk result (self.new ≡ with_hint self.old hint) }
        ensures err { OnErr result (self.new ≡ self.old) }
    {
        if self.hints.push(hint).is_err() {
            return Err(NoMemory);
        }
        Ok(())
    }
}

#[inline]
fn id_at(starts: &[GroupStart], i: usize) -> u32
    requires { i < length starts.now }
    ensures { result ≡ (slice_index_or starts.now i (record { id = 0; start = 0 })).id }
{
    starts[i].id
}

/// The hints of the group at an index. They end where the next one starts.
#[inline]
fn hints_at<'a>(hints: &'a [u32], starts: &[GroupStart], i: usize) -> &'a [u32]
    requires starts { AreStarts starts.now (length hints.now) }
    requires index { i < length starts.now }
    ensures { result.now ≡ slice_range hints.now (slice_index_or starts.now i (record { id = 0; start = 0 })).start
        (end_before (drop (i + 1) starts.now) (length hints.now)) }
{
    let start = starts[i].start;
    if i + 1 == starts.len() {
        return &hints[start..];
    }
    let end = starts[i + 1].start;
    &hints[start..end]
}
