// The lists into which an item is read, and the item that is made of them.
ghost use Rattle.std.specs.Prelude.{◌≡◌, IfOk};
ghost use Rattle.sr_model.specs.Judging.{ItemHasPivot};
ghost use Rattle.sr_wit.specs.LsrItems.{item_of};
ghost use Rattle.sr_lsr.specs.Frames.{MakesItem, IsSmallFrame, no_lists, left_by, holds_parts};
ghost use Rattle.sr_lsr.specs.Written.{IsSmallItem};

use crate::hints::Hints;
use crate::steps::make_step;
use sr_base::{IdList, InputError, Items, LitList, NoMemory};
use sr_wit::{GroupList, LsrItem, StepLists};
use std::alloc::Global;
use std::mem;

/// Few steps have more literals, or hints in their prefix.
const ROOM: usize = 64;

/// The lists of an item. They are kept from item to item, so that reading takes no memory but what a list needs to grow.
#[derive(Drop)]
pub(crate) struct ItemLists {
    /// The literals of a step as they are written, with those of its witness.
    pub lits: LitList,
    /// The hints of a step.
    pub hints: Hints,
    /// The numbers of a deletion.
    pub ids: IdList,
}

/// An item without its lists: the number in front of it and, for a step, the place of the `0` that ends its literals.
#[derive(Clone, Copy, Debug, PartialEq, Eq)]
pub(crate) enum ItemFrame {
    Step { id: u32, end: u64 },
    Drop { id: u32 },
}

impl ItemLists {
    /// Empty lists, with room for the literals and the hints of most steps.
    pub(crate) fn new(alloc: Global) -> Result<ItemLists, NoMemory>
        ensures { IfOk result (λ l. l ≡ no_lists) }
    {
        Ok(ItemLists {
            lits: Items::with_capacity(alloc, ROOM)?,
            hints: Hints {
                prefix: Items::with_capacity(alloc, ROOM)?,
                groups: GroupList::new(alloc),
            },
            ids: Items::new(alloc),
        })
    }

    /// Takes over the lists of an item that was made of some, for reading the next one into their memory.
    pub(crate) fn reuse(&mut self, item: LsrItem)
        ensures { self.new ≡ holds_parts item self.old }
    {
        match item {
            LsrItem::Step(step) => {
                let StepLists {
                    lits,
                    prefix,
                    groups,
                } = step.into_lists();
                self.lits = lits;
                self.hints = Hints { prefix, groups };
            }
            LsrItem::Drop { ids, .. } => self.ids = ids,
        }
    }
}

/// The item of its frame and the lists that were read with it. Those that are its own are taken over, and left empty. A
/// step's witness has the first literal of its clause as its pivot.
///
/// # Errors
///
/// `Text` with the place of the frame, for a step: `OddMap` where a literal behind the third pivot is left over, or else
/// `Twice` where a variable gets two different images.
pub(crate) fn make_item(
    alloc: Global,
    frame: ItemFrame,
    lists: &mut ItemLists,
) -> Result<LsrItem, InputError>
    ensures item { MakesItem frame lists.old result }
    ensures lists { lists.new ≡ left_by frame lists.old }
    ensures small { IsSmallFrame frame lists.old → IfOk result (λ x. IsSmallItem (item_of x)) }
    ensures pivot { IfOk result (λ x. ItemHasPivot (item_of x)) }
{
    match frame {
        ItemFrame::Step { id, end } => {
            let lits = mem::replace(&mut lists.lits, Items::new(alloc));
            let none = Hints {
                prefix: Items::new(alloc),
                groups: GroupList::new(alloc),
            };
            let hints = mem::replace(&mut lists.hints, none);
            let step = make_step(alloc, id, lits, end, hints)?;
            Ok(LsrItem::Step(step))
        }
        ItemFrame::Drop { id } => {
            let ids = mem::replace(&mut lists.ids, Items::new(alloc));
            Ok(LsrItem::Drop { id, ids })
        }
    }
}
