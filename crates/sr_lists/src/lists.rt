// The lists of all keys. A list lies on the stack of its key, and a walk goes along that stack in place,
// from the newest watch on.
//
// The place of a watch that is taken is a hole. A watch that is kept goes into it. Where none is, the
// newest watch of the stack moves there before the next one is taken, and the stack is a place shorter.
// The newest place lies behind the walk or is the hole itself, so what lies ahead stays where it is. A
// watch that is pushed gets a place newer than all others, and so it is behind the walk too.
//
// While a hole is open it takes a place beside those of all watches: so the stacks have room for one
// place more than the lists have room for watches.
ghost use Rattle.std.specs.Prelude.{ℕ, ◌≡◌, ◌+◌, ◌-◌, ◌<◌, ◌≤◌, [], Some, None, false, length, max, IsSome, IsNone, IsTrue, IsOk, ◌↔◌, IfSome, OnOk, OnErr, MatchOption};
ghost use Rattle.sr_lists.specs.Family.{Family, entries, HasKeys, IsPushed, IsBegun, IsTaken, IsEnded, AreSameLists};
ghost use Rattle.sr_lists.specs.Stacks.{stack_at, count_on};
ghost use Rattle.sr_lists.specs.Walk.{IsAlong, open_at, IsOpen, IsClosed, IsFilled};

use crate::blocks::Watch;
use crate::stacks::Stacks;
use sr_base::NoMemory;
use std::alloc::Global;
use std::marker::Model;

/// No more watches than this have room, since a hole takes a place too.
const MOST: usize = usize::MAX - 1;

/// For each key from 0 on a list of watches, in any order.
///
/// One list at a time may be walked: the watches that lie ahead are taken out one by one, and what isn't kept
/// is gone.
#[derive(Drop)]
pub struct Lists {
    stacks: Stacks,
    /// The list that is walked.
    walked: Option<usize>,
    /// The place that the walk comes to next; 0 at its end.
    next: u32,
    /// The place of the watch that was taken last and not kept; 0 where there is none.
    hole: u32,
    /// How many places are on the stacks, the hole included.
    held: usize,
    room: usize,
}

impl Model for Lists {
    ghost use Rattle.sr_lists.specs.Family.{Family};
    ghost use Rattle.sr_lists.specs.Walk.{seen, IsWalked};

    ghost Value = { Family };

    ghost view = { λ s. seen s.stacks s.walked s.next s.hole s.room };

    ghost invariant = { λ s. IsWalked s.stacks s.walked s.next s.hole s.held s.room };
}

impl Lists {
    /// No keys, and no room. It takes no memory.
    pub fn new(alloc: Global) -> Lists
        ensures { result ≡ record { lists = []; ahead = []; walked = None; room = 0 } }
    {
        let stacks = Stacks::new(alloc);
        stacks.apart();
        Lists {
            stacks,
            walked: None,
            next: 0,
            hole: 0,
            held: 0,
            room: 0,
        }
    }

    /// How many keys there are.
    #[inline]
    pub fn keys(&self) -> usize
        ensures { result ≡ length self.now.lists }
    {
        self.stacks.keys()
    }

    /// How many watches there are.
    #[inline]
    pub fn count(&self) -> usize
        ensures { result ≡ entries self.now }
    {
        if self.hole == 0 {
            self.held
        } else {
            self.held - 1
        }
    }

    /// For how many watches more there is room.
    #[inline]
    pub fn left(&self) -> usize
        ensures { entries self.now + result ≡ self.now.room }
    {
        self.room - self.count()
    }

    /// Whether a list is walked.
    #[inline]
    pub fn is_walked(&self) -> bool
        ensures walk { IsTrue result ↔ IsSome self.now.walked }
        ensures idle { result ≡ false → IsNone self.now.walked }
    {
        self.walked.is_some()
    }

    /// Sees that there are so many keys. New ones have empty lists. Want of memory changes nothing.
    pub fn grow(&mut self, keys: usize) -> Result<(), NoMemory>
        ensures ok { OnOk result (HasKeys self.old self.new keys) }
        ensures has_keys { keys ≤ length self.old.lists → IsOk result }
        ensures err { OnErr result (AreSameLists self.old self.new × (self.new.room ≡ self.old.room)) }
    {
        self.stacks.grow(keys)?;
        self.stacks.apart();
        Ok(())
    }

    /// Sees that there is room for so many watches more, in whichever lists. Want of memory changes nothing.
    pub fn reserve(&mut self, more: usize) -> Result<(), NoMemory>
        ensures same { AreSameLists self.old self.new }
        ensures ok { OnOk result (self.new.room ≡ max self.old.room (entries self.old + more)) }
        ensures has_room { entries self.old + more ≤ self.old.room → IsOk result }
        ensures err { OnErr result (self.new.room ≡ self.old.room) }
    {
        if more <= self.left() {
            return Ok(());
        }
        let count = self.count();
        if count > MOST || more > MOST - count {
            return Err(NoMemory);
        }
        let room = count + more;
        self.stacks.reserve(room + 1)?;
        self.stacks.apart();
        self.room = room;
        Ok(())
    }

    /// Adds a watch to a list. It takes no memory.
    #[inline]
    pub fn push(&mut self, key: usize, watch: Watch)
        requires key { key < length self.old.lists }
        requires room { entries self.old < self.old.room }
        ensures { IsPushed self.old self.new key watch }
    {
        self.stacks.add(key, watch);
        self.stacks.apart();
        self.held += 1;
    }

    /// Begins a walk along the list of a key: all its watches lie ahead.
    #[inline]
    pub fn begin(&mut self, key: usize)
        requires key { key < length self.old.lists }
        requires idle { IsNone self.old.walked }
        ensures { IsBegun self.old self.new key }
    {
        self.walked = Some(key);
        self.next = self.stacks.newest(key);
    }

    /// Takes a watch that lies ahead out of the lists; none at the end of the walk.
    #[inline]
    pub fn next(&mut self) -> Option<Watch>
        ensures { MatchOption result ((self.old.ahead ≡ []) × (self.new ≡ self.old)) (λ w. IsTaken self.old self.new w) }
    {
        let place = self.next;
        if place == 0 {
            return None;
        }
        fill(&mut self.stacks, &mut self.held, self.walked, self.hole);
        let watch = self.stacks.watch(place);
        let older = self.stacks.older(place);
        self.next = older;
        self.hole = place;
        Some(watch)
    }

    /// Puts a watch into the list that is walked, behind the walk. It takes no memory.
    #[inline(always)]
    pub fn keep(&mut self, watch: Watch)
        requires walk { IsSome self.old.walked }
        requires room { entries self.old < self.old.room }
        ensures { IfSome self.old.walked (λ key. IsPushed self.old self.new key watch) }
    {
        if self.hole == 0 {
            self.push_on_walked(watch);
            return;
        }
        self.stacks.put(self.hole, watch);
        self.stacks.apart();
        self.hole = 0;
    }

    /// Adds a watch to the list that is walked, in a place of its own.
    #[cold]
    #[inline(never)]
    fn push_on_walked(&mut self, watch: Watch)
        requires walk { IsSome self.old.walked }
        requires room { entries self.old < self.old.room }
        ensures { IfSome self.old.walked (λ key. IsPushed self.old self.new key watch) }
    {
        if let Some(key) = self.walked {
            self.push(key, watch);
        }
    }

    /// Ends the walk. What still lay ahead stays in the list.
    pub fn end(&mut self)
        requires { IsSome self.old.walked }
        ensures { IfSome self.old.walked (λ key. IsEnded self.old self.new key) }
    {
        fill(&mut self.stacks, &mut self.held, self.walked, self.hole);
        self.walked = None;
        self.next = 0;
        self.hole = 0;
    }
}

/// Fills the hole on the walked stack, where there is one. Then the stacks hold a place less.
#[inline]
fn fill(stacks: &mut Stacks, held: &mut usize, walked: Option<usize>, hole: u32)
    requires hole { IsOpen stacks.old walked hole }
    requires some { 0 < hole → 0 < held.old }
    ensures filled { (next : ℕ) → IsAlong stacks.old walked next hole → IsFilled stacks.old stacks.new walked next hole }
    ensures held { held.new + open_at hole ≡ held.old }
{
    stacks.apart();
    if hole == 0 {
        return;
    }
    *held -= 1;
    match walked {
        None => {}
        Some(key) => close(stacks, key, hole),
    }
}

/// Moves the newest watch of a stack into a place on it.
fn close(stacks: &mut Stacks, key: usize, hole: u32)
    requires key { key < length stacks.old.stacks }
    requires there { 0 < count_on hole (stack_at stacks.old key) }
    ensures { IsClosed stacks.old stacks.new key hole }
{
    stacks.apart();
    let watch = stacks.watch(stacks.newest(key));
    stacks.put(hole, watch);
    stacks.remove(key);
    stacks.apart();
}
