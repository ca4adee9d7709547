// Numbers in lists by their marks, in time that is linear in the numbers. The table of marks becomes a table of links, with a
// chain for each mark; then the chains are laid one after another.
ghost use Rattle.std.specs.Prelude.{◌≡◌, ◌==◌, ℕ, ◌^◌, ◌+◌, ◌<◌, ◌≤◌, [], List, ◌∷◌, ◌++◌, length, drop, slice_index, slice_index_or, slice_range, IfOk, OnOk, OnErr};
ghost use Rattle.sr_wit.specs.Pieces.{AreEnds, start_at};
ghost use Rattle.sr_placing.specs.Marks.{numbers_where, IsChain, AreChains};

use sr_base::{ClauseId, NoMemory};
use std::alloc::Global;
use std::marker::Model;

/// Lists of numbers that are kept in one, each up to its end.
#[derive(Drop)]
pub struct NumberLists {
    numbers: Vec<ClauseId>,
    ends: Vec<usize>,
}

impl Model for NumberLists {
    ghost use Rattle.std.specs.Prelude.{List, ℕ, length};
    ghost use Rattle.sr_wit.specs.Pieces.{pieces, AreEnds};

    ghost Value = { List (List ℕ) };

    ghost view = { λ s. pieces 0 s.ends.items s.numbers.items };

    ghost invariant = { λ s. AreEnds 0 s.ends.items (length s.numbers.items) };
}

impl NumberLists {
    /// The numbers of the list at an index.
    pub fn list(&self, i: usize) -> &[ClauseId]
        requires { i < length self.now }
        ensures { result.now ≡ slice_index_or self.now i [] }
    {
        piece(&self.numbers, &self.ends, i)
    }

    /// For each head the numbers of its mark, from 1 on and in rising order: the head at index `i` is for the mark `i + 1`. The
    /// marks are lost.
    pub fn of_marks(
        alloc: Global,
        marks: &mut [ClauseId],
        heads: &mut [ClauseId],
    ) -> Result<NumberLists, NoMemory>
        requires some { 1 ≤ length marks.old }
        requires few { length marks.old < 2 ^ 32 }
        requires marks { (n : ℕ) → slice_index marks.old n ≤ length heads.old }
        requires none { (i : ℕ) → slice_index heads.old i ≡ 0 }
        ensures count { IfOk result (λ lists. length lists ≡ length heads.old) }
        ensures lists { IfOk result (λ lists. (i : ℕ) → i < length heads.old → slice_index_or lists i [] ≡ numbers_where (λ x. x == i + 1) 1 (drop 1 marks.old)) }
    {
        chain_up(marks, heads);
        NumberLists::of_chains(alloc, marks, heads)
    }

    /// The lists that chains lead through.
    fn of_chains(
        alloc: Global,
        links: &[ClauseId],
        heads: &[ClauseId],
    ) -> Result<NumberLists, NoMemory>
        requires { (i : ℕ) → i < length heads.now → (c : List ℕ) × IsChain links.now 1 (slice_index heads.now i) c }
        ensures { IfOk result (λ lists. AreChains links.now heads.now lists) }
    {
        let mut numbers = Vec::new(alloc);
        let Ok(mut ends) = Vec::with_capacity(alloc, heads.len()) else {
            return Err(NoMemory);
        };
        for head in heads {
            push_chain(&mut numbers, links, *head)?;
            let end = numbers.len();
            if ends.push(end).is_err() {
                return Err(NoMemory);
            }
        }
        Ok(NumberLists { numbers, ends })
    }
}

/// The piece at an index. It begins at the end of the one before it.
fn piece<'a>(numbers: &'a [ClauseId], ends: &[usize], at: usize) -> &'a [ClauseId]
    requires cut { AreEnds 0 ends.now (length numbers.now) }
    requires index { at < length ends.now }
    ensures { result.now ≡ slice_range numbers.now (start_at 0 ends.now at) (slice_index ends.now at) }
{
    let end = ends[at];
    if at == 0 {
        return &numbers[..end];
    }
    let start = ends[at - 1];
    &numbers[start..end]
}

/// Adds the numbers of a chain.
fn push_chain(
    numbers: &mut Vec<ClauseId>,
    links: &[ClauseId],
    head: ClauseId,
) -> Result<(), NoMemory>
    requires { (c : List ℕ) × IsChain links.now 1 head c }
    ensures { OnOk result ((c : List ℕ) × IsChain links.now 1 head c × (numbers.new.items ≡ numbers.old.items ++ c)) }
{
    let mut n = head;
    while n != 0 {
        if numbers.push(n).is_err() {
            return Err(NoMemory);
        }
        n = links[n as usize];
    }
    Ok(())
}

/// Chains the numbers of each mark other than 0, in rising order. Mark `i + 1` has the head at index `i`.
fn chain_up(marks: &mut [ClauseId], heads: &mut [ClauseId])
    requires some { 1 ≤ length marks.old }
    requires few { length marks.old < 2 ^ 32 }
    requires marks { (n : ℕ) → slice_index marks.old n ≤ length heads.old }
    requires none { (i : ℕ) → slice_index heads.old i ≡ 0 }
    ensures { (i : ℕ) → i < length heads.old → IsChain marks.new 1 (slice_index heads.new i) (numbers_where (λ x. x == i + 1) 1 (drop 1 marks.old)) }
{
    let mut n = marks.len();
    while n > 1 {
        n -= 1;
        let mark = marks[n] as usize;
        if mark != 0 {
            marks[n] = heads[mark - 1];
            heads[mark - 1] = n as u32;
        }
    }
}
