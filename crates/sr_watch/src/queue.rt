// Places of entries, of which the greatest comes next.
ghost use Rattle.std.specs.Prelude.{◌≡◌, [], OnOk, OnErr, MatchOption};
ghost use Rattle.sr_watch.specs.Queued.{IsPut, NoneBelow, IsLastBelow};

use sr_base::NoMemory;
use std::alloc::Global;
use std::collections::BinaryHeap;
use std::marker::Model;

/// Places of entries, in no order that is told.
#[derive(Drop)]
pub struct Queue {
    heap: BinaryHeap<u32>,
}

impl Model for Queue {
    ghost use Rattle.std.specs.Prelude.{List, ℕ};
    ghost use Rattle.std.specs.Ordering.{nat_cmp};
    ghost use Rattle.std.specs.BinaryHeap.{heap_items, IsHeap};

    ghost Value = { List ℕ };

    ghost view = { λ q. heap_items q.heap };

    ghost invariant = { λ q. IsHeap nat_cmp (heap_items q.heap) };
}

impl Queue {
    /// No places. It takes no memory.
    pub fn new(alloc: Global) -> Queue
        ensures { result ≡ [] }
    {
        Queue {
            heap: BinaryHeap::new(alloc),
        }
    }

    /// Takes all places out, and keeps the room that they had.
    pub fn clear(&mut self)
        ensures { self.new ≡ [] }
    {
        self.heap.clear();
    }

    /// Puts a place in. Want of memory changes nothing.
    pub fn put(&mut self, place: u32) -> Result<(), NoMemory>
        ensures ok { OnOk result (IsPut self.old self.new place) }
        ensures err { OnErr result (self.new ≡ self.old) }
    {
        let Ok(()) = self.heap.push(place) else {
            return Err(NoMemory);
        };
        Ok(())
    }

    /// Takes the greatest of the places below `end` out, and those that aren't below it.
    pub fn next_below(&mut self, end: usize) -> Option<usize>
        ensures { MatchOption result (NoneBelow end self.old) (λ n. IsLastBelow end self.old self.new n) }
    {
        while let Some(place) = self.heap.pop() {
            if (place as usize) < end {
                return Some(place as usize);
            }
        }
        None
    }
}
