// The region: for each clause two words and its literals. The rest of the crate sees cells.
ghost use Rattle.std.specs.Prelude.{◌≡◌, ℕ, ◌+◌, ◌-◌, ◌<◌, ◌≤◌, [], ◌∷◌, ◌++◌, length, map, take, drop, slice_set, vec_len, vec_capacity, IfOk, OnOk, OnErr, ◌⊎◌, true};
ghost use Rattle.std.specs.List.{swap};
ghost use Rattle.sr_base.specs.Words.{word_of, AllLiterals};
ghost use Rattle.sr_arena.specs.Cells.{gone, fresh, weights, first_held};
ghost use Rattle.sr_arena.specs.Compaction.{IsMoved, AreRising, moves_of};
ghost use Rattle.sr_arena.specs.Layout.{room_of, laid_at, lay, with_cell};

use crate::memory::MOST_USED;
use crate::moves::Move;
use crate::naming::moves_of;
use crate::sliding::slide;
use crate::walking::next_held;
use sr_base::{Lit, MOST_CELLS, NoMemory, Word, as_lits, as_words};
use std::alloc::Global;
use std::marker::Model;

/// Clauses in one region. A clause is named by the place of its first literal. Before it stand two words: its number, and its
/// size with three bits below it (marked, flagged, freed).
#[derive(Drop)]
pub struct Regions {
    words: Vec<Word>,
    used: u32,
}

impl Model for Regions {
    ghost use Rattle.sr_arena.specs.Layout.{Laid, laid_of, room_of, IsLaid};

    ghost Value = { Laid };

    ghost view = { λ r. laid_of r.words.items r.used (room_of r.words) };

    ghost invariant = { λ r. IsLaid r.words.items r.used };
}

impl Regions {
    /// No clause. It takes no memory.
    pub fn new(alloc: Global) -> Regions
        ensures { result ≡ record { cells = gone ∷ []; used = 0; room = 0 } }
    {
        Regions {
            words: Vec::new(alloc),
            used: 0,
        }
    }

    /// The cells of 32 bits that are counted for the region.
    pub fn used(&self) -> u32
        ensures { result ≡ self.now.used }
    {
        self.used
    }

    /// The literals of a clause.
    #[inline]
    pub fn lits(&self, at: usize) -> &[Lit]
        requires { (laid_at self.now at).held ≡ true }
        ensures { result.now ≡ (laid_at self.now at).lits }
    {
        let size = (self.words[at - 1].code / 8) as usize;
        let part = &self.words[at..at + size];
        as_lits(part)
    }

    /// How many literals a clause has.
    #[inline]
    pub fn len(&self, at: usize) -> usize
        requires { (laid_at self.now at).held ≡ true }
        ensures { result ≡ length (laid_at self.now at).lits }
    {
        (self.words[at - 1].code / 8) as usize
    }

    /// Exchanges two literals of a clause.
    #[inline]
    pub fn swap(&mut self, at: usize, i: usize, j: usize)
        requires held { (laid_at self.old at).held ≡ true }
        requires i_within { i < length (laid_at self.old at).lits }
        requires j_within { j < length (laid_at self.old at).lits }
        ensures { let c = laid_at self.old at in self.new ≡ lay self.old at (record c { lits = swap c.lits i j }) }
    {
        exchange(&mut self.words, at + i, at + j);
    }

    /// The number of a clause.
    #[inline]
    pub fn number(&self, at: usize) -> u32
        requires { (laid_at self.now at).held ≡ true }
        ensures { result ≡ (laid_at self.now at).number }
    {
        self.words[at - 2].code
    }

    /// Sets the number of a clause.
    #[inline]
    pub fn set_number(&mut self, at: usize, number: u32)
        requires { (laid_at self.old at).held ≡ true }
        ensures { let c = laid_at self.old at in self.new ≡ lay self.old at (record c { number = number }) }
    {
        write(&mut self.words, at - 2, number);
    }

    /// Whether a clause is marked.
    #[inline]
    pub fn mark(&self, at: usize) -> bool
        requires { (laid_at self.now at).held ≡ true }
        ensures { result ≡ (laid_at self.now at).marked }
    {
        self.words[at - 1].code % 2 == 1
    }

    /// Whether a clause is flagged.
    #[inline]
    pub fn flag(&self, at: usize) -> bool
        requires { (laid_at self.now at).held ≡ true }
        ensures { result ≡ (laid_at self.now at).flagged }
    {
        self.words[at - 1].code / 2 % 2 == 1
    }

    /// Sets the mark and the flag of a clause.
    #[inline]
    pub fn set_bits(&mut self, at: usize, marked: bool, flagged: bool)
        requires { (laid_at self.old at).held ≡ true }
        ensures { let c = laid_at self.old at in self.new ≡ lay self.old at (record c { marked = marked; flagged = flagged }) }
    {
        let size = self.words[at - 1].code / 8;
        let code = marked as u32 + 2 * flagged as u32 + 8 * size;
        write(&mut self.words, at - 1, code);
    }

    /// Lets a clause go, and answers how many literals it had.
    pub fn free(&mut self, at: usize) -> u32
        requires { (laid_at self.old at).held ≡ true }
        ensures value { self.new ≡ lay self.old at gone }
        ensures len { result ≡ length (laid_at self.old at).lits }
    {
        let size = self.words[at - 1].code / 8;
        write(&mut self.words, at - 1, 4 + 8 * size);
        size
    }

    /// The first held clause after another one, or the first of all after 0; 0 where there is none.
    pub fn next(&self, after: usize) -> usize
        requires { (after ≡ 0) ⊎ ((laid_at self.now after).held ≡ true) }
        ensures value { result ≡ first_held (after + 1) (drop (after + 1) self.now.cells) }
        ensures fits { result < 4294967296 }
    {
        let mut read = 0;
        if after > 0 {
            read = after + (self.words[after - 1].code / 8) as usize;
        }
        next_held(&self.words, read)
    }

    /// Makes room for a clause of so many literals.
    pub fn reserve(&mut self, len: usize) -> Result<(), NoMemory>
        requires { len ≤ MOST_CELLS }
        ensures same { self.new ≡ record self.old { room = self.new.room } }
        ensures ok { OnOk result (len + 2 ≤ self.new.room) }
        ensures full { OnErr result (self.old.room < len + 2) }
        ensures err { OnErr result (self.new ≡ self.old) }
    {
        match self.words.reserve(len + 2) {
            Ok(()) => Ok(()),
            Err(_) => Err(NoMemory),
        }
    }

    /// Adds a clause after the others, and answers its place.
    pub fn push(&mut self, lits: &[Lit], number: u32) -> Result<u32, NoMemory>
        requires long { length lits.now ≤ MOST_CELLS }
        requires room { self.old.used ≤ MOST_USED }
        ensures at { IfOk result (λ at. at ≡ length self.old.cells + 1) }
        ensures ok { OnOk result (self.new ≡ with_cell self.old (fresh lits.now number) self.new.room) }
        ensures full { OnErr result (self.old.room < length lits.now + 2) }
        ensures err { OnErr result (self.new ≡ self.old) }
    {
        if self.words.reserve(lits.len() + 2).is_err() {
            return Err(NoMemory);
        }
        let place = self.words.len() as u32 + 2;
        let size = lits.len() as u32;
        extend(&mut self.words, number, 8 * size, lits);
        self.used += size + 4;
        Ok(place)
    }

    /// Where a compaction would move the held clauses.
    pub fn moves(&self, alloc: Global) -> Result<Vec<Move>, NoMemory>
        ensures moves { IfOk result (λ moves. moves.items ≡ moves_of self.now.cells) }
        ensures rising { IfOk result (λ moves. AreRising moves.items) }
    {
        moves_of(alloc, &self.words)
    }

    /// Slides the held clauses together, in order. It is told the cells of held clauses.
    pub fn slide(&mut self, held: u32)
        requires held { held ≡ weights self.old.cells }
        requires low { held ≤ MOST_CELLS }
        ensures moved { IsMoved self.old.cells self.new.cells (moves_of self.old.cells) }
        ensures used { self.new.used ≡ weights self.new.cells }
    {
        slide(&mut self.words);
        self.used = held;
    }
}

/// Exchanges two words.
#[inline]
fn exchange(words: &mut Vec<Word>, a: usize, b: usize)
    requires a_within { a < length words.old.items }
    requires b_within { b < length words.old.items }
    ensures words { words.new.items ≡ swap words.old.items a b }
    ensures room { room_of words.new ≡ room_of words.old }
{
    words.as_mut_slice().swap(a, b);
}

/// Writes one word.
#[inline]
fn write(words: &mut Vec<Word>, at: usize, code: u32)
    requires { at < length words.old.items }
    ensures words { words.new.items ≡ slice_set words.old.items at (record { code = code }) }
    ensures room { room_of words.new ≡ room_of words.old }
{
    words[at] = Word { code };
}

/// Adds a clause's words, for which there is room.
fn extend(words: &mut Vec<Word>, number: u32, size: u32, lits: &[Lit])
    requires { length lits.now + 2 ≤ room_of words.old }
    ensures words { words.new.items ≡ words.old.items ++ (record { code = number } ∷ record { code = size } ∷ map word_of lits.now) }
    ensures all { AllLiterals (map word_of lits.now) }
{
    words.push_reserved(Word { code: number });
    words.push_reserved(Word { code: size });
    let _ = words.extend_from_slice(as_words(lits));
}
