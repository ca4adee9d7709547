// A table of parts in the order of their variables. Slots by a hash of the variable tell most parts at once, and that a
// variable has none; where two variables have one slot, the part is found by binary search.
ghost use Rattle.std.specs.Prelude.{◌≡◌, ◌≢◌, ◌<◌, ℕ, length, slice_index_or, MatchOption, IfOk, All, Contains};
ghost use Rattle.std.specs.List.Sorted.{IsNonDecreasingBy};
ghost use Rattle.sr_wit.specs.Tables.{slot_of, AreSlots};

use crate::parts::{Part, find};
use sr_base::NoMemory;
use sr_model::Image;
use std::alloc::Global;
use std::marker::Model;

/// A table of so few parts has no slots.
const SHORT: usize = 4;

/// A table of so many parts has no slots.
const LONG: usize = 1 << 24;

/// Parts in the order of their variables.
#[derive(Drop)]
pub(crate) struct PartTable {
    alloc: Global,
    parts: Vec<Part>,
    slots: Vec<u32>,
    shift: u32,
}

impl Model for PartTable {
    ghost use Rattle.std.specs.Prelude.{◌<◌, List, ℕ};
    ghost use Rattle.sr_model.specs.declared.images.Image.{Image};
    ghost use Rattle.sr_wit.specs.Tables.{AreSlots};

    ghost Value = { List (ℕ × Image) };

    ghost view = { λ t. t.parts.items };

    ghost invariant = { λ t. (t.shift < 32) × AreSlots t.parts.items t.slots.items t.shift };
}

impl PartTable {
    /// A table of these parts.
    pub(crate) fn new(alloc: Global, parts: Vec<Part>) -> Result<PartTable, NoMemory>
        ensures { IfOk result (λ t. t ≡ parts.items) }
    {
        let mut slots = Vec::new(alloc);
        let len = parts.len();
        let mut shift = 31;
        if len > SHORT && len < LONG {
            shift = shift_for(len);
            if slots.resize(1 << (32 - shift), 0).is_err() {
                return Err(NoMemory);
            }
            note_parts(&parts, &mut slots, shift);
        }
        Ok(PartTable {
            alloc,
            parts,
            slots,
            shift,
        })
    }

    /// The allocator.
    pub(crate) fn alloc(&self) -> Global {
        self.alloc
    }

    /// The image of a variable.
    #[inline]
    pub(crate) fn find(&self, var: u32) -> Option<Image>
        requires { IsNonDecreasingBy (λ p. p.0) self.now }
        ensures { MatchOption result (All (λ p. p.0 ≢ var) self.now) (λ image. Contains self.now (var, image)) }
    {
        let slot = slot_of(var, self.shift);
        if slot < self.slots.len() {
            let place = self.slots[slot] as usize;
            if place == 0 {
                return None;
            }
            let part = &self.parts[place - 1];
            if part.0 == var {
                return Some(part.1);
            }
        }
        find(&self.parts, var)
    }
}

/// How far a hash is shifted, so that there are two to four slots for each part.
fn shift_for(len: usize) -> u32
    requires { len < 16777216 }
    ensures { result < 32 }
{
    let mut size = 2;
    let mut shift = 31;
    while size < 2 * len && shift > 7 {
        size *= 2;
        shift -= 1;
    }
    shift
}

/// The slot of a variable.
#[inline]
fn slot_of(var: u32, shift: u32) -> usize
    requires { shift < 32 }
    ensures { result ≡ slot_of var shift }
{
    ((var as u64 * 2_654_435_769 % 4_294_967_296) >> shift) as usize
}

/// Notes the places of parts at the slots of their variables.
fn note_parts(parts: &[Part], slots: &mut Vec<u32>, shift: u32)
    requires shift { shift < 32 }
    requires short { length parts.now < 16777216 }
    requires clear { (i : ℕ) → slice_index_or slots.old.items i 0 ≡ 0 }
    ensures { AreSlots parts.now slots.new.items shift }
{
    for (i, part) in parts.iter().enumerate() {
        let slot = slot_of(part.0, shift);
        if slot < slots.len() {
            slots[slot] = i as u32 + 1;
        }
    }
}
