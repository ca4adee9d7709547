// Stacks of places that hold watches, one for each key, in blocks that pass from stack to stack.
ghost use Rattle.std.specs.Prelude.{ℕ, List, ◌≡◌, ◌+◌, ◌-◌, ◌*◌, ◌%◌, ◌<◌, ◌≤◌, [], ◌∷◌, ◌++◌, length, max, drop, set, replicate, vec_capacity, IsOk, OnOk, OnErr};
ghost use Rattle.sr_lists.specs.Stacks.{Stacked, stack_at, places_of, held_at, first_of, AreApart, IsAdded};
ghost use Rattle.sr_lists.specs.Chains.{HaveRoom, HasRoomForBlock, IsLast, IsSameBlock, IsFreed, IsFresh};

use crate::blocks::{Watch, nothing};
use sr_base::NoMemory;
use std::alloc::Global;
use std::marker::Model;

/// How many places a block has.
pub const PLACES: usize = 8;

/// The places of so many blocks are numbers of 32 bits.
pub const MOST_BLOCKS: usize = 536870911;

/// For each key from 0 on a stack of places, each of which holds a watch.
///
/// Every block but the one with a stack's newest place is full.
#[derive(Drop)]
pub struct Stacks {
    /// For each key the newest place on its stack; 0 where there is none.
    newest: Vec<u32>,
    /// For each block the place below its first one, 0 where there is none. For a free block the next free one.
    below: Vec<u32>,
    cells: Vec<Watch>,
    /// A free block; 0 where there is none.
    free: u32,
    room: usize,
}

impl Model for Stacks {
    ghost use Rattle.std.specs.Prelude.{vec_capacity};
    ghost use Rattle.sr_lists.specs.Stacks.{Stacked};
    ghost use Rattle.sr_lists.specs.Chains.{stacks_in, IsChained};

    ghost Value = { Stacked };

    ghost view = { λ s. record { stacks = stacks_in s.below.items s.newest.items; cells = s.cells.items; room = s.room } };

    ghost invariant = { λ s. IsChained s.newest.items s.below.items s.cells.items s.free s.room
        (vec_capacity s.below) (vec_capacity s.cells) };
}

impl Stacks {
    /// No keys, and no room. It takes no memory.
    pub fn new(alloc: Global) -> Stacks
        ensures { result ≡ record { stacks = []; cells = []; room = 0 } }
    {
        Stacks {
            newest: Vec::new(alloc),
            below: Vec::new(alloc),
            cells: Vec::new(alloc),
            free: 0,
            room: 0,
        }
    }

    /// How many keys there are.
    #[inline]
    pub fn keys(&self) -> usize
        ensures { result ≡ length self.now.stacks }
    {
        self.newest.len()
    }

    /// For how many places there is room.
    #[inline]
    pub fn room(&self) -> usize
        ensures { result ≡ self.now.room }
    {
        self.room
    }

    /// No place is on two stacks.
    #[inline]
    pub fn apart(&self)
        ensures { AreApart self.now }
    {
        let _below = &self.below;
    }

    /// Sees that there are so many keys. New ones have empty stacks. Want of memory changes nothing.
    pub fn grow(&mut self, keys: usize) -> Result<(), NoMemory>
        ensures ok { OnOk result (self.new ≡ record self.old { stacks = self.old.stacks ++ replicate (keys - length self.old.stacks) [] }) }
        ensures has_keys { keys ≤ length self.old.stacks → IsOk result }
        ensures err { OnErr result (self.new ≡ self.old) }
    {
        if keys <= self.newest.len() {
            return Ok(());
        }
        make_room(&mut self.below, &mut self.cells, self.room, keys)?;
        if self.newest.resize(keys, 0).is_err() {
            return Err(NoMemory);
        }
        Ok(())
    }

    /// Sees that there is room for so many places, on whichever stacks. Want of memory changes nothing.
    pub fn reserve(&mut self, room: usize) -> Result<(), NoMemory>
        ensures ok { OnOk result (self.new ≡ record self.old { room = max self.old.room room }) }
        ensures has_room { room ≤ self.old.room → IsOk result }
        ensures err { OnErr result (self.new ≡ self.old) }
    {
        if room <= self.room {
            return Ok(());
        }
        let keys = self.newest.len();
        make_room(&mut self.below, &mut self.cells, room, keys)?;
        self.room = room;
        Ok(())
    }

    /// The newest place on a stack; 0 where there is none.
    #[inline]
    pub fn newest(&self, key: usize) -> u32
        requires { key < length self.now.stacks }
        ensures { result ≡ first_of (stack_at self.now key) }
    {
        self.newest[key]
    }

    /// The place below one on its stack; 0 where there is none.
    #[inline]
    pub fn older(&self, place: u32) -> u32
        requires some { 0 < place }
        requires place { place < length self.now.cells }
        ensures { (key : ℕ) (front rest : List ℕ) → stack_at self.now key ≡ front ++ place ∷ rest → result ≡ first_of rest }
    {
        if place as usize % PLACES > 0 {
            place - 1
        } else {
            self.below[place as usize / PLACES]
        }
    }

    /// What a place holds.
    #[inline]
    pub fn watch(&self, place: u32) -> Watch
        requires { place < length self.now.cells }
        ensures { held_at self.now.cells place ≡ result ∷ [] }
    {
        self.cells[place as usize]
    }

    /// Changes what a place holds.
    #[inline]
    pub fn put(&mut self, place: u32, watch: Watch)
        requires { place < length self.old.cells }
        ensures { self.new ≡ record self.old { cells = set self.old.cells place watch } }
    {
        self.cells[place as usize] = watch;
    }

    /// Adds a place that holds a watch to a stack. It takes no memory.
    #[inline]
    pub fn add(&mut self, key: usize, watch: Watch)
        requires key { key < length self.old.stacks }
        requires room { places_of self.old < self.old.room }
        ensures { IsAdded self.old self.new key watch }
    {
        let newest = self.newest[key];
        let above = next_place(&mut self.below, &mut self.cells, &mut self.free, newest);
        self.cells[above as usize] = watch;
        self.newest[key] = above;
    }

    /// Takes the newest place off a stack.
    #[inline]
    pub fn remove(&mut self, key: usize)
        requires key { key < length self.old.stacks }
        requires some { 0 < length (stack_at self.old key) }
        ensures { self.new ≡ record self.old { stacks = set self.old.stacks key (drop 1 (stack_at self.old key)) } }
    {
        let newest = self.newest[key];
        if newest as usize % PLACES > 0 {
            self.newest[key] = newest - 1;
            return;
        }
        let block = newest / PLACES as u32;
        self.newest[key] = self.below[block as usize];
        self.below[block as usize] = self.free;
        self.free = block;
    }
}

/// The place above the newest one of a stack: the next one in its block, or the first one of another block.
#[inline]
fn next_place(below: &mut Vec<u32>, cells: &mut Vec<Watch>, free: &mut u32, newest: u32) -> u32
    requires room { IsLast newest → free.old ≡ 0 → HasRoomForBlock (length below.old.items) (vec_capacity below.old) (vec_capacity cells.old) }
    requires free { 0 < free.old → free.old < length below.old.items }
    requires size { length cells.old.items ≡ PLACES * length below.old.items }
    requires most { length below.old.items ≤ MOST_BLOCKS }
    ensures inside { 0 < newest → newest % PLACES < PLACES - 1 → IsSameBlock below.old.items free.old newest below.new.items free.new result }
    ensures freed { IsLast newest → 0 < free.old → IsFreed below.old.items free.old newest below.new.items free.new result }
    ensures fresh { IsLast newest → free.old ≡ 0 → IsFresh below.old.items newest below.new.items free.new result }
    ensures size { length cells.new.items ≡ PLACES * length below.new.items }
    ensures longer { length cells.old.items ≤ length cells.new.items }
    ensures held { (q : ℕ) → q < length cells.old.items → held_at cells.new.items q ≡ held_at cells.old.items q }
    ensures rooms { (vec_capacity below.new ≡ vec_capacity below.old) × (vec_capacity cells.new ≡ vec_capacity cells.old) }
{
    if newest > 0 && (newest as usize) % PLACES < PLACES - 1 {
        return newest + 1;
    }
    begin_block(below, cells, free, newest)
}

/// The first place of a free block, or else of a new one, above the newest place of a stack.
fn begin_block(below: &mut Vec<u32>, cells: &mut Vec<Watch>, free: &mut u32, newest: u32) -> u32
    requires room { free.old ≡ 0 → HasRoomForBlock (length below.old.items) (vec_capacity below.old) (vec_capacity cells.old) }
    requires free { 0 < free.old → free.old < length below.old.items }
    requires size { length cells.old.items ≡ PLACES * length below.old.items }
    requires most { length below.old.items ≤ MOST_BLOCKS }
    ensures freed { 0 < free.old → IsFreed below.old.items free.old newest below.new.items free.new result }
    ensures fresh { free.old ≡ 0 → IsFresh below.old.items newest below.new.items free.new result }
    ensures size { length cells.new.items ≡ PLACES * length below.new.items }
    ensures longer { length cells.old.items ≤ length cells.new.items }
    ensures held { (q : ℕ) → q < length cells.old.items → held_at cells.new.items q ≡ held_at cells.old.items q }
    ensures rooms { (vec_capacity below.new ≡ vec_capacity below.old) × (vec_capacity cells.new ≡ vec_capacity cells.old) }
{
    let block = *free;
    if block > 0 {
        *free = below[block as usize];
        below[block as usize] = newest;
        return block * PLACES as u32;
    }
    if below.len() == 0 {
        push_block(below, cells, 0);
    }
    let place = cells.len() as u32;
    push_block(below, cells, newest);
    place
}

/// A new block. There is room for it.
fn push_block(below: &mut Vec<u32>, cells: &mut Vec<Watch>, newest: u32)
    requires below { length below.old.items < vec_capacity below.old }
    requires cells { length cells.old.items + PLACES ≤ vec_capacity cells.old }
    ensures below { below.new.items ≡ below.old.items ++ newest ∷ [] }
    ensures size { length cells.new.items ≡ length cells.old.items + PLACES }
    ensures held { (q : ℕ) → q < length cells.old.items → held_at cells.new.items q ≡ held_at cells.old.items q }
    ensures below_room { vec_capacity below.new ≡ vec_capacity below.old }
    ensures cells_room { vec_capacity cells.new ≡ vec_capacity cells.old }
{
    below.push_reserved(newest);
    fill(cells, PLACES, nothing());
}

/// Adds so many copies of an item. There is room for them.
fn fill<T: Copy>(list: &mut Vec<T>, count: usize, item: T)
    requires { length list.old.items + count ≤ vec_capacity list.old }
    ensures items { list.new.items ≡ list.old.items ++ replicate count item }
    ensures room { vec_capacity list.new ≡ vec_capacity list.old }
{
    for _i in 0..count {
        list.push_reserved(item);
    }
}

/// Sees that there is room for the blocks of so many places on the stacks of so many keys. On each stack one block at most isn't
/// full, and the first block isn't used.
fn make_room(
    below: &mut Vec<u32>,
    cells: &mut Vec<Watch>,
    room: usize,
    keys: usize,
) -> Result<(), NoMemory>
    ensures below { below.new.items ≡ below.old.items }
    ensures cells { cells.new.items ≡ cells.old.items }
    ensures ok { OnOk result (HaveRoom room keys (vec_capacity below.new) (vec_capacity cells.new)) }
    ensures below_room { vec_capacity below.old ≤ vec_capacity below.new }
    ensures cells_room { vec_capacity cells.old ≤ vec_capacity cells.new }
{
    let some = room.min(1);
    if room > PLACES * MOST_BLOCKS {
        return Err(NoMemory);
    }
    let blocks = some + (room + (PLACES - 1) * room.min(keys)) / PLACES;
    if blocks > MOST_BLOCKS {
        return Err(NoMemory);
    }
    reserve_to(below, blocks)?;
    reserve_to(cells, PLACES * blocks)
}

/// Sees that the list has room for so many items in all.
fn reserve_to<T: Drop>(list: &mut Vec<T>, room: usize) -> Result<(), NoMemory>
    ensures items { list.new.items ≡ list.old.items }
    ensures room { OnOk result (room ≤ vec_capacity list.new) }
    ensures grown { vec_capacity list.old ≤ vec_capacity list.new }
{
    let count = list.len();
    if count >= room {
        return Ok(());
    }
    match list.reserve(room - count) {
        Ok(()) => Ok(()),
        Err(_) => Err(NoMemory),
    }
}
