// Numbers by hash. A map leads from each hash that has numbers to these; one alone stands in the map itself.
ghost use Rattle.std.specs.Prelude.{ℕ, ◌≡◌, ◌<◌, [], length, OnOk};
ghost use Rattle.sr_load.specs.Buckets.{bucket_of, HasMore, HasLess};

use crate::numbers::Numbers;
use indexmap::IndexMap;
use sr_base::{ClauseId, NoMemory};
use std::alloc::Global;
use std::marker::Model;

/// Lists of numbers, by hashes.
#[derive(Drop)]
pub struct ByHash {
    map: IndexMap<u64, Numbers>,
}

impl Model for ByHash {
    ghost use Rattle.sr_load.specs.Buckets.{Bucketed};

    ghost Value = { Bucketed };

    ghost view = { λ b. record { entries = b.map.entries } };
}

impl ByHash {
    /// No numbers. It takes no memory.
    pub fn new(alloc: Global) -> ByHash
        ensures { (h : ℕ) → bucket_of result h ≡ [] }
    {
        ByHash {
            map: IndexMap::new(alloc),
        }
    }

    /// The numbers under a hash.
    pub fn numbers(&self, hash: u64) -> &[ClauseId]
        ensures { result.now ≡ bucket_of self.now hash }
    {
        match self.map.get(&hash) {
            Some(numbers) => numbers.as_slice(),
            None => &[],
        }
    }

    /// Puts a number behind those under a hash. Where memory lacks, the lists are to be dropped.
    pub fn push(&mut self, hash: u64, number: ClauseId) -> Result<(), NoMemory>
        ensures { OnOk result (HasMore self.old self.new hash number) }
    {
        let alloc = *self.map.allocator();
        if let Some(numbers) = self.map.get_mut(&hash) {
            return numbers.push(alloc, number);
        }
        match self.map.insert(hash, Numbers::One(number)) {
            Ok(_) => Ok(()),
            Err(_) => Err(NoMemory),
        }
    }

    /// Takes the number at a place under a hash out. A hash that has no number left leaves the map.
    pub fn take(&mut self, hash: u64, place: usize)
        requires { place < length (bucket_of self.old hash) }
        ensures { HasLess self.old self.new hash place }
    {
        let is_last = match self.map.get_mut(&hash) {
            Some(numbers) => numbers.take(place),
            None => false,
        };
        if is_last {
            self.map.swap_remove(&hash);
        }
    }
}
