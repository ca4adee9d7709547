// Propagation beside the plain test, on random clauses.
ghost use Rattle.std.specs.Prelude.{ℕ, ◌≡◌, ◌<◌, ◌≤◌, length, true, slice_index_or, IsTrue};
ghost use Rattle.sr_base.specs.Literal.{NoRepeats};
ghost use Rattle.sr_watch.specs.State.{AreWithin, IsHeld};

use crate::{Cref, CrefList, Found, Part, Propagator, Steps};
use sr_base::{Clause, Items, Limits, Lit, LitList, NoMemory, has};
use sr_model::refutes_plain;
use std::alloc::Global;
use std::marker::{Brand, Model};
use std::sync::ledger::{Blank, Ledger};
use std::test::Fail;

/// A propagator with the clauses that were added to it, and the literals that were assumed with their places.
#[derive(Drop)]
struct Bench {
    propagator: Propagator,
    refs: Vec<Cref>,
    clauses: Vec<LitList>,
    assumed: Vec<(usize, Lit)>,
    seed: u64,
}

impl Model for Bench {
    ghost use Rattle.std.specs.Prelude.{ℕ, ◌<◌, List, length, slice_index_or};
    ghost use Rattle.sr_watch.specs.State.{State, IsHeld};

    ghost Value = { ℕ };

    ghost view = { λ b. b.seed };

    ghost invariant = { λ b. (i : ℕ) → i < length b.refs.items → IsHeld b.propagator (slice_index_or b.refs.items i 0) };
}

/// Whether all variables have room.
fn are_within(lits: &[Lit], vars: u32) -> bool
    ensures { result ≡ true → AreWithin vars lits.now }
{
    for l in lits {
        if l.var() > vars {
            return false;
        }
    }
    true
}

impl Bench {
    fn new(alloc: Global, seed: u64) -> Result<Bench, Fail> {
        let limits = Limits::new(100, 100, 100_000, 1_000).ok_or("no limits")?;
        let mut propagator = Propagator::new(alloc, &limits);
        propagator.grow(5)?;
        Ok(Bench {
            propagator,
            refs: Vec::new(alloc),
            clauses: Vec::new(alloc),
            assumed: Vec::new(alloc),
            seed,
        })
    }

    /// A number below another one.
    fn below(&mut self, most: u64) -> u64 {
        self.seed = self
            .seed
            .wrapping_mul(6_364_136_223_846_793_005)
            .wrapping_add(1_442_695_040_888_963_407);
        if most == 0 {
            0
        } else {
            (self.seed >> 33) % most
        }
    }

    /// A literal of the first five variables.
    fn literal(&mut self) -> Option<Lit> {
        const LITERALS: [i64; 10] = [1, -1, 2, -2, 3, -3, 4, -4, 5, -5];
        let i = (self.below(10) % 10) as usize;
        Lit::new(LITERALS[i])
    }

    /// Adds a clause of up to three literals.
    fn add(&mut self, alloc: Global) -> Result<(), Fail> {
        let count = self.below(8);
        let mut lits = Items::new(alloc);
        for i in 0..3u64 {
            if i <= count {
                if let Some(l) = self.literal() {
                    lits.push(l)?;
                }
            }
        }
        self.hold(Clause::from_list(alloc, lits)?)
    }

    /// Holds a clause, where its variables have room.
    fn hold(&mut self, clause: Clause) -> Result<(), Fail> {
        if !are_within(clause.lits(), self.propagator.vars()) {
            return Ok(());
        }
        self.refs.reserve(1)?;
        let at = self.propagator.add(clause.lits(), 7)?;
        self.refs.push_reserved(at);
        self.clauses.push(clause.into_list())?;
        Ok(())
    }

    /// Holds a clause of these literals.
    fn hold_all(&mut self, alloc: Global, numbers: &[i64]) -> Result<(), Fail> {
        let mut lits = Items::new(alloc);
        for number in numbers {
            lits.push(Lit::new(*number).ok_or("no literal")?)?;
        }
        self.hold(Clause::from_list(alloc, lits)?)
    }

    /// Attaches a clause of one literal, one that was derived.
    fn cover(&mut self, alloc: Global, part: Part) -> Result<(), Fail> {
        let Some(l) = self.literal() else {
            return Ok(());
        };
        if self.reason(l.var()).is_none() || !has(self.propagator.entries(), l) {
            return Ok(());
        }
        let mut lits = Items::new(alloc);
        lits.push(l)?;
        let i = self.refs.len();
        self.hold(Clause::from_list(alloc, lits)?)?;
        self.attach(i, part);
        Ok(())
    }

    /// Which clause is the reason of a variable.
    fn reason(&self, var: u32) -> Option<usize> {
        if var > self.propagator.vars() {
            return None;
        }
        let at = self.propagator.reason(var)?;
        for i in 0..self.refs.len() {
            if self.refs[i] == at {
                return Some(i);
            }
        }
        None
    }

    /// The reason of the second variable, and the number of entries.
    fn second(&self) -> (Option<usize>, usize) {
        (self.reason(2), self.propagator.mark())
    }

    /// Detaches the reason of a variable.
    fn detach_reason(&mut self, var: u32) {
        if let Some(i) = self.reason(var) {
            self.detach(i);
        }
    }

    /// One of the references; none where there is none.
    fn choose(&mut self) -> Option<usize> {
        let count = self.refs.len();
        if count == 0 {
            return None;
        }
        let i = self.below(count as u64) as usize;
        if i < self.refs.len() { Some(i) } else { None }
    }

    fn part(&self, i: usize) -> Option<Part> {
        if i >= self.refs.len() {
            return None;
        }
        self.propagator.part(self.refs[i])
    }

    fn attach(&mut self, i: usize, part: Part) {
        if i < self.refs.len() {
            let at = self.refs[i];
            if self.propagator.part(at).is_none() {
                self.propagator.attach(at, part);
            }
        }
    }

    fn detach(&mut self, i: usize) {
        if i < self.refs.len() {
            let at = self.refs[i];
            if self.propagator.part(at).is_some() {
                self.propagator.detach(at);
                self.forget();
            }
        }
    }

    fn make_core(&mut self, i: usize) {
        if i < self.refs.len() {
            let at = self.refs[i];
            if self.propagator.part(at).is_some() {
                self.propagator.make_core(at);
            }
        }
    }

    /// Forgets what is assumed behind the entries.
    fn forget(&mut self) {
        let mark = self.propagator.mark();
        for _ in 0..self.assumed.len() {
            match self.assumed.last() {
                Some((place, _)) if *place >= mark => {
                    self.assumed.pop();
                }
                _ => return,
            }
        }
    }

    fn assume(&mut self, l: Lit) -> Result<(), Fail> {
        if l.var() > self.propagator.vars() {
            return Ok(());
        }
        let mark = self.propagator.mark();
        self.propagator.assume(l);
        if self.propagator.mark() > mark {
            self.assumed.push((mark, l))?;
        }
        Ok(())
    }

    fn undo(&mut self, mark: usize) {
        if mark <= self.propagator.mark() {
            self.propagator.undo_to(mark);
            self.forget();
        }
    }

    /// The clauses that are attached to the part.
    fn attached(&self, alloc: Global, part: Part) -> Result<Vec<Clause>, Fail> {
        let mut found = Vec::new(alloc);
        for i in 0..self.clauses.len() {
            let counts = match self.part(i) {
                None => false,
                Some(Part::Core) => true,
                Some(Part::All) => part == Part::All,
            };
            if counts {
                found.push(Clause::from_lits(alloc, self.clauses[i].as_slice())?)?;
            }
        }
        Ok(found)
    }

    /// The literals that are assumed.
    fn assumptions(&self, alloc: Global) -> Result<LitList, Fail> {
        let mut lits = Items::new(alloc);
        for (_, l) in &self.assumed {
            lits.push(*l)?;
        }
        Ok(lits)
    }

    /// Whether all reasons are of the core.
    fn has_core_reasons(&self) -> bool {
        for var in 1..6u32 {
            if let Some(i) = self.reason(var) {
                if self.part(i) != Some(Part::Core) {
                    return false;
                }
            }
        }
        true
    }

    /// Propagates, and says whether the answer is that of the plain test.
    fn propagate<L: Ledger>(
        &mut self,
        alloc: Global,
        part: Part,
        steps: &mut Steps<L>,
    ) -> Result<bool, Fail> {
        let clauses = self.attached(alloc, part)?;
        let assumed = self.assumptions(alloc)?;
        let refuted = refutes_plain(alloc, &clauses, assumed.as_slice())?;
        let found = self.propagator.propagate(part, steps);
        Ok(match found {
            Found::Still => !refuted,
            Found::Conflict(_) => refuted || (part == Part::Core && !self.has_core_reasons()),
            Found::Pair(l) => refuted
                && has(assumed.as_slice(), l)
                && has(assumed.as_slice(), l.neg()),
        })
    }

    /// One random call.
    fn act<L: Ledger>(&mut self, alloc: Global, steps: &mut Steps<L>) -> Result<bool, Fail> {
        let what = self.below(16);
        let i = self.choose().unwrap_or(0);
        let part = if self.below(2) == 0 {
            Part::Core
        } else {
            Part::All
        };
        match what {
            0 | 1 => self.add(alloc)?,
            2 | 3 | 4 => self.attach(i, part),
            5 => self.detach(i),
            6 => self.make_core(i),
            7 | 8 => {
                if let Some(l) = self.literal() {
                    self.assume(l)?;
                }
            }
            9 => {
                let mark = self.below(8) as usize;
                self.undo(mark);
            }
            10 | 11 => self.cover(alloc, part)?,
            12 | 13 => {
                if let Some(l) = self.literal() {
                    self.detach_reason(l.var());
                }
            }
            _ => return self.propagate(alloc, part, steps),
        }
        Ok(true)
    }
}

/// How many of so many random runs meet an answer that isn't that of the plain test.
fn mistakes<L: Ledger>(alloc: Global, runs: u64, steps: &mut Steps<L>) -> Result<u64, Fail> {
    let mut bad = 0u64;
    for seed in 0..runs {
        let mut bench = Bench::new(alloc, seed)?;
        for _ in 0..60 {
            if !bench.act(alloc, steps)? {
                bad = bad.saturating_add(1);
            }
        }
    }
    Ok(bad)
}

/// A propagator over the four clauses of two variables, attached to no core.
fn four_clauses(alloc: Global) -> Result<Bench, Fail> {
    let mut bench = Bench::new(alloc, 0)?;
    for pair in [[1, 2], [-1, 2], [1, -2], [-1, -2]] {
        bench.hold_all(alloc, &pair)?;
    }
    for i in 0..4 {
        bench.attach(i, Part::All);
    }
    Ok(bench)
}

/// What follows from one literal: nothing more, or a conflict.
fn is_still<L: Ledger>(alloc: Global, number: i64, steps: &mut Steps<L>) -> Result<bool, Fail> {
    let mut bench = four_clauses(alloc)?;
    bench.assume(Lit::new(number).ok_or("no literal")?)?;
    match bench.propagator.propagate(Part::All, steps) {
        Found::Still => Ok(true),
        Found::Conflict(_) => Ok(false),
        Found::Pair(_) => Err("a pair")?,
    }
}

fn is_still_once<L: Ledger>(alloc: Global, number: i64, blank: Blank) -> Result<bool, Fail>
    requires name { blank.name ≡ L.name }
    requires parts { blank.parts ≡ L.parts }
    requires some { 0 < blank.parts }
{
    let mut steps = Steps::<L>::new(blank);
    is_still(alloc, number, &mut steps)
}

/// A propagator with the entries 1 and 2: clause 0 has 1, clause 1 has -1 and 2, and 2 and 3 have 2 alone.
fn two_entries<L: Ledger>(alloc: Global, steps: &mut Steps<L>) -> Result<Bench, Fail> {
    let mut bench = Bench::new(alloc, 0)?;
    bench.hold_all(alloc, &[1])?;
    bench.hold_all(alloc, &[-1, 2])?;
    bench.hold_all(alloc, &[2])?;
    bench.hold_all(alloc, &[2])?;
    bench.attach(0, Part::All);
    bench.attach(1, Part::All);
    bench.propagator.propagate(Part::All, steps);
    Ok(bench)
}

/// The reason of the second entry and the number of entries, as clauses of one literal come and reasons go.
fn successions<L: Ledger>(
    alloc: Global,
    steps: &mut Steps<L>,
) -> Result<Vec<(Option<usize>, usize)>, Fail> {
    let mut bench = two_entries(alloc, steps)?;
    let mut seen = Vec::new(alloc);
    seen.push(bench.second())?;
    bench.attach(2, Part::All);
    seen.push(bench.second())?;
    bench.detach(1);
    seen.push(bench.second())?;
    bench.attach(1, Part::All);
    bench.attach(3, Part::Core);
    seen.push(bench.second())?;
    bench.detach(3);
    bench.detach(2);
    seen.push(bench.second())?;
    bench.detach(1);
    seen.push(bench.second())?;
    Ok(seen)
}

/// The number of entries once a clause of one literal is detached that took over from one of two literals, where the other one
/// of these became false later.
fn left_entries<L: Ledger>(alloc: Global, steps: &mut Steps<L>) -> Result<usize, Fail> {
    let mut bench = Bench::new(alloc, 0)?;
    bench.hold_all(alloc, &[1, 2])?;
    bench.hold_all(alloc, &[2])?;
    let l = Lit::new(-1).ok_or("no literal")?;
    bench.attach(0, Part::All);
    bench.assume(l)?;
    bench.propagator.propagate(Part::All, steps);
    bench.attach(1, Part::All);
    bench.undo(0);
    bench.propagator.propagate(Part::All, steps);
    bench.assume(l)?;
    bench.detach(1);
    Ok(bench.propagator.mark())
}

/// Both.
fn successions_once<L: Ledger>(
    alloc: Global,
    blank: Blank,
) -> Result<(Vec<(Option<usize>, usize)>, usize), Fail>
    requires name { blank.name ≡ L.name }
    requires parts { blank.parts ≡ L.parts }
    requires some { 0 < blank.parts }
{
    let mut steps = Steps::<L>::new(blank);
    let seen = successions(alloc, &mut steps)?;
    let left = left_entries(alloc, &mut steps)?;
    Ok((seen, left))
}

fn all_successions(alloc: Global) -> Result<(Vec<(Option<usize>, usize)>, usize), Fail> {
    successions_once::<Brand>(alloc, Blank::new(1))
}

fn follows_nothing(alloc: Global, number: i64) -> Result<bool, Fail> {
    is_still_once::<Brand>(alloc, number, Blank::new(1))
}

/// The same with a count of its own.
fn mistakes_of<L: Ledger>(alloc: Global, runs: u64, blank: Blank) -> Result<u64, Fail>
    requires name { blank.name ≡ L.name }
    requires parts { blank.parts ≡ L.parts }
    requires some { 0 < blank.parts }
{
    let mut steps = Steps::<L>::new(blank);
    mistakes(alloc, runs, &mut steps)
}

fn all_mistakes(alloc: Global, runs: u64) -> Result<u64, Fail> {
    mistakes_of::<Brand>(alloc, runs, Blank::new(1))
}

#[test]
fn random_calls(rt: HostRuntime) -> Result<(), Fail> {
    assert_eq!(rt; all_mistakes(rt.alloc(), 300)?, 0);
    Ok(())
}

#[test]
fn four_clauses_over_two_variables(rt: HostRuntime) -> Result<(), Fail> {
    assert!(rt; follows_nothing(rt.alloc(), 3)?);
    assert!(rt; !follows_nothing(rt.alloc(), -2)?);
    Ok(())
}

#[test]
fn clauses_of_one_literal_take_over(rt: HostRuntime) -> Result<(), Fail> {
    let (seen, left) = all_successions(rt.alloc())?;
    let wanted = [
        (Some(1), 2),
        (Some(2), 2),
        (Some(2), 2),
        (Some(2), 2),
        (Some(1), 2),
        (None, 1),
    ];
    assert_eq!(rt; seen.as_slice(), wanted.as_slice());
    assert_eq!(rt; left, 0);
    Ok(())
}
