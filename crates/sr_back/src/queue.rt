// Clause numbers of which the least comes next.
ghost use Rattle.std.specs.Prelude.{◌≡◌, ◌+◌, ◌-◌, ◌≤◌, ◌<◌, ◌∷◌, [], All, Bool, ℕ, length, OnOk, MatchOption, IfSome};
ghost use Rattle.std.specs.List.{list_any};
ghost use Rattle.std.specs.Ordering.{nat_cmp};
ghost use Rattle.std.specs.BinaryHeap.{heap_items, IsHeap, IsUpperBound};
ghost use Rattle.sr_back.specs.Queued.{Puts, AreAbove};

use sr_base::{ClauseId, NoMemory};
use std::alloc::Global;
use std::collections::BinaryHeap;
use std::marker::Model;

/// Clause numbers, of which the least comes first.
#[derive(Drop)]
pub struct Queue {
    /// How far each number lies below the greatest one that there can be, since a heap gives its greatest item first. A number
    /// may stand here more than once.
    heap: BinaryHeap<u32>,
}

impl Model for Queue {
    ghost use Rattle.std.specs.Prelude.{List, ℕ};
    ghost use Rattle.std.specs.Ordering.{nat_cmp};
    ghost use Rattle.std.specs.BinaryHeap.{heap_items, IsHeap};
    ghost use Rattle.sr_back.specs.Queued.{from_top};

    ghost Value = { List ℕ };

    ghost view = { λ q. from_top (heap_items q.heap) };

    ghost invariant = { λ q. IsHeap nat_cmp (heap_items q.heap) };
}

impl Queue {
    /// No numbers.
    pub fn new(alloc: Global) -> Queue
        ensures { result ≡ [] }
    {
        Queue {
            heap: BinaryHeap::new(alloc),
        }
    }

    /// Puts a number in.
    pub fn put(&mut self, id: ClauseId) -> Result<(), NoMemory>
        ensures puts { OnOk result (Puts self.old self.new id) }
        ensures few { length self.new ≤ length self.old + 1 }
    {
        let Ok(()) = self.heap.push(u32::MAX - id) else {
            return Err(NoMemory);
        };
        Ok(())
    }

    /// Takes the least number out.
    pub fn next(&mut self) -> Option<ClauseId>
        ensures taken { MatchOption result (self.old ≡ []) (λ n. Puts self.new self.old n) }
        ensures least { IfSome result (λ n. AreAbove n self.new) }
    {
        let top = self.heap.pop()?;
        drop_copies(&mut self.heap, top);
        Some(u32::MAX - top)
    }
}

/// Takes all items out that are the greatest one.
fn drop_copies(heap: &mut BinaryHeap<u32>, top: u32)
    requires heap { IsHeap nat_cmp (heap_items heap.old) }
    requires most { IsUpperBound nat_cmp top (heap_items heap.old) }
    ensures fits { top ≤ 4294967295 }
    ensures heap { IsHeap nat_cmp (heap_items heap.new) }
    ensures below { All (λ k. k < top) (heap_items heap.new) }
    ensures stays { (p : ℕ → Bool) → list_any p (top ∷ heap_items heap.new) ≡ list_any p (top ∷ heap_items heap.old) }
{
    while let Some(next) = heap.peek() {
        if *next != top {
            return;
        }
        let _copy = heap.pop();
    }
}
