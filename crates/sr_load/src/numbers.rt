// The numbers of clauses of one hash. There is mostly one, and it takes no memory of its own.
ghost use Rattle.std.specs.Prelude.{◌≡◌, ◌<◌, [], ◌∷◌, ◌++◌, true, false, length, remove, OnOk, IfOk};
ghost use Rattle.sr_load.specs.Buckets.{numbers_in};

use smallvec::SmallVec;
use sr_base::{ClauseId, NoMemory};
use std::alloc::Global;
use std::slice;

/// Some numbers, in order.
#[derive(Drop)]
pub enum Numbers {
    One(ClauseId),
    More(Box<SmallVec<ClauseId, 4>>),
}

impl Numbers {
    /// The numbers.
    pub fn as_slice(&self) -> &[ClauseId]
        ensures { result.now ≡ numbers_in self.now }
    {
        match self {
            Numbers::One(number) => slice::from_ref(number),
            Numbers::More(numbers) => numbers.as_slice(),
        }
    }

    /// Puts a number behind the others.
    pub fn push(&mut self, alloc: Global, number: ClauseId) -> Result<(), NoMemory>
        ensures { OnOk result (numbers_in self.new ≡ numbers_in self.old ++ number ∷ []) }
    {
        match self {
            Numbers::One(first) => {
                let two = both(alloc, *first, number)?;
                *self = Numbers::More(two);
                Ok(())
            }
            Numbers::More(numbers) => match numbers.push(number) {
                Ok(()) => Ok(()),
                Err(_) => Err(NoMemory),
            },
        }
    }

    /// Takes the number at a place out, and says whether it was the only one. Then it stays.
    pub fn take(&mut self, place: usize) -> bool
        requires { place < length (numbers_in self.old) }
        ensures left { result ≡ false → numbers_in self.new ≡ remove (numbers_in self.old) place }
        ensures none { result ≡ true → remove (numbers_in self.old) place ≡ [] }
    {
        match self {
            Numbers::One(_) => true,
            Numbers::More(numbers) => {
                numbers.remove(place);
                numbers.is_empty()
            }
        }
    }
}

/// Two numbers.
fn both(
    alloc: Global,
    first: ClauseId,
    second: ClauseId,
) -> Result<Box<SmallVec<ClauseId, 4>>, NoMemory>
    ensures { IfOk result (λ list. list.value.items ≡ first ∷ second ∷ []) }
{
    let mut numbers = SmallVec::new(alloc);
    if numbers.push(first).is_err() || numbers.push(second).is_err() {
        return Err(NoMemory);
    }
    match Box::new(alloc, numbers) {
        Ok(list) => Ok(list),
        Err(_) => Err(NoMemory),
    }
}
