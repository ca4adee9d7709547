// The lines of a proof, with the clauses before and after them in a propagator.
ghost use Rattle.std.specs.Prelude.{ℕ, ◌≡◌, ◌≢◌, ◌+◌, ◌<◌, ◌≤◌, ◌↔◌, [], ◌∷◌, ◌++◌, true, false, All, length, take, Some, IfOk, OnOk, OnErr, IsTrue};
ghost use Rattle.std.specs.Option.{option_copied};
ghost use Rattle.sr_base.specs.Literal.{NoRepeats};
ghost use Rattle.sr_model.specs.Refutation.{is_empty, Refutes};
ghost use Rattle.sr_model.specs.Chain.{clauses};
ghost use Rattle.sr_model.specs.Judging.{cells_of};
ghost use Rattle.sr_model.specs.Dsr.{lemma_line, LineHasPivot};
ghost use Rattle.sr_lemma.specs.Lines.{lemma_told};
ghost use Rattle.sr_trimming.specs.Loading.{joined, removed, passed, IsUnit};
ghost use Rattle.sr_trimming.specs.From.{LemmasHavePivots};
ghost use Rattle.sr_load.specs.Loading.{lemmas_in, passed_in};
ghost use Rattle.sr_load.specs.Holding.{IsLoading, IsBare, HoldsFirst, before_lines, with_line};
ghost use Rattle.sr_model.specs.Assignment.{holds_number};
ghost use Rattle.sr_trimming.specs.Placing.{numbers};
ghost use Rattle.sr_load.specs.Loaded.{all_lines, all_in, next_of, alive_in, citing, assuming, HasPivotAt, HasWitnessAt, HasClauseAt, TakesBack};
ghost use Rattle.sr_load.specs.Taking.{TookLine};
ghost use Rattle.sr_load.specs.Finding.{PartTests, AreCited, IsNumber, AliveOrBack};
ghost use Rattle.sr_load.specs.Numbers.{has_clause};
ghost use Rattle.sr_load.specs.Buckets.{AreDistinct};

use crate::counting::{lits_at, propagate};
use crate::finding::{is_still, test};
use crate::holding::hold;
use crate::levels::{assume, close, undo_to};
use crate::records::{Event, Told};
use crate::room::{make_room, make_room_for_all};
use crate::units::is_unit_in;
use sr_arena::Cref;
use sr_base::{ClauseId, IdList, Items, Limits, Lit, LitList, NoMemory};
use sr_lemma::Lemma;
use sr_watch::{CrefList, Part, Propagator};
use sr_wit::{Formula, Subst};
use std::alloc::Global;
use std::marker::Model;
use std::snapshot::Snapshot;

/// A formula and the lines of a proof, of which the first ones stand and the others were taken back. The clauses that are
/// alive after the standing lines are attached.
#[derive(Drop)]
pub struct Timeline {
    formula: Formula,
    propagator: Propagator,
    /// The reference of each number, from 1 on.
    refs: Vec<Cref>,
    told: Vec<Told>,
    lines: Vec<Event>,
    standing: usize,
    /// How many deletions were passed over.
    passed: usize,
    /// The number of the last clause before the lines that were taken back.
    reached: ClauseId,
    cited: IdList,
    /// Whether each number is cited, from 1 on.
    flags: Vec<bool>,
    assumed: LitList,
    /// The entries before each assumed literal.
    marks: Vec<usize>,
    /// Room to work in.
    chain: CrefList,
}

impl Model for Timeline {
    ghost use Rattle.std.specs.Prelude.{◌≤◌, length};
    ghost use Rattle.sr_load.specs.Loaded.{LoadedState};
    ghost use Rattle.sr_load.specs.Records.{loaded_at};
    ghost use Rattle.sr_load.specs.Tied.{Keeps};
    ghost use Rattle.sr_load.specs.Records.{AreCounted};

    ghost Value = { LoadedState };

    ghost view = { λ t. loaded_at t.formula t.lines.items t.standing t.cited t.assumed };

    ghost invariant = { λ t. Keeps (loaded_at t.formula t.lines.items t.standing t.cited t.assumed) t.propagator t.refs.items t.told.items t.flags.items t.marks.items t.reached
        × AreCounted t.lines.items t.standing t.passed };
}

impl Timeline {
    /// A formula, before any line.
    pub fn new(alloc: Global, formula: Formula, limits: &Limits) -> Result<Timeline, NoMemory>
        ensures { IfOk result (λ t. t ≡ before_lines formula) }
    {
        let mut propagator = Propagator::new(alloc, limits);
        make_room_for_all(&mut propagator, &formula)?;
        let mut refs = Vec::new(alloc);
        let mut flags = Vec::new(alloc);
        hold_all(&formula, &mut propagator, &mut refs, &mut flags)?;
        let reached = formula.count();
        Ok(Timeline {
            formula,
            propagator,
            refs,
            told: Vec::new(alloc),
            lines: Vec::new(alloc),
            standing: 0,
            passed: 0,
            reached,
            cited: Items::new(alloc),
            flags,
            assumed: Items::new(alloc),
            marks: Vec::new(alloc),
            chain: Items::new(alloc),
        })
    }

    /// A lemma joins the clauses. Its witness is taken out of it.
    pub fn join(&mut self, lemma: &mut Lemma) -> Result<(), NoMemory>
        requires loading { IsLoading self.old }
        requires some { is_empty lemma.old.clause ≡ false }
        requires pivot { LineHasPivot (lemma_line (lemma_told lemma.old)) }
        requires small { next_of self.old < 2147483647 }
        ensures ok { OnOk result (self.new ≡ with_line self.old (joined (lemma_told lemma.old))) }
        ensures err { OnErr result (self.new ≡ self.old) }
        ensures clause { lemma.new.clause ≡ lemma.old.clause }
    {
        let told = Snapshot::of(&*lemma);
        if self.told.reserve(1).is_err() || self.lines.reserve(1).is_err() {
            return Err(NoMemory);
        }
        let pivot = lemma.clause.lits()[0];
        hold(
            &mut self.propagator,
            &mut self.refs,
            &mut self.flags,
            lemma.clause.lits(),
        )?;
        let witness = lemma.witness.take();
        self.told.push_reserved(Told { pivot, witness });
        self.lines.push_reserved(Event::Joined(told));
        self.standing += 1;
        self.reached += 1;
        Ok(())
    }

    /// The clause of a number is removed.
    pub fn remove(&mut self, id: ClauseId) -> Result<(), NoMemory>
        requires loading { IsLoading self.old }
        requires alive { has_clause (alive_in self.old) id ≡ true }
        ensures ok { OnOk result (self.new ≡ with_line self.old (removed id)) }
        ensures err { OnErr result (self.new ≡ self.old) }
    {
        if self.lines.reserve(1).is_err() {
            return Err(NoMemory);
        }
        self.lines.push_reserved(Event::Removed(id));
        self.standing += 1;
        let at = self.refs[id as usize - 1];
        self.propagator.detach(at);
        Ok(())
    }

    /// A line is passed over.
    pub fn pass(&mut self) -> Result<(), NoMemory>
        requires { IsLoading self.old }
        ensures ok { OnOk result (self.new ≡ with_line self.old passed) }
        ensures err { OnErr result (self.new ≡ self.old) }
    {
        if self.lines.reserve(1).is_err() {
            return Err(NoMemory);
        }
        self.lines.push_reserved(Event::Passed);
        self.standing += 1;
        self.passed += 1;
        Ok(())
    }

    /// How many lines that still stand or were taken back were passed over.
    pub fn passed(&self) -> u64
        ensures { result ≡ passed_in (all_lines self.now) }
    {
        self.passed as u64
    }

    /// How many lemmas there are.
    pub fn lemmas(&self) -> u32
        ensures value { result ≡ lemmas_in (all_lines self.now) }
        ensures few { result < 2147483647 }
        ensures pivots { LemmasHavePivots (all_lines self.now) }
        ensures distinct { All NoRepeats (clauses (all_in self.now)) }
        ensures small { next_of self.now ≤ 2147483647 }
    {
        self.told.len() as u32
    }

    /// The cells of the clauses of the formula and of all lemmas.
    pub fn cells(&self) -> u32
        ensures { result ≡ cells_of (clauses (all_in self.now)) }
    {
        let _told = &self.told;
        self.propagator.held_cells()
    }

    /// Whether the alive clauses refute what is assumed.
    pub fn is_refuted(&mut self) -> bool
        ensures same { self.new ≡ self.old }
        ensures value { IsTrue result ↔ Refutes (clauses (alive_in self.old)) self.old.assumed }
    {
        let found = propagate(&mut self.propagator, Part::All);
        !is_still(&found)
    }

    /// Whether one literal of a clause is forced by the alive clauses, and so are the complements of its others.
    pub fn is_unit(&mut self, lits: &[Lit]) -> bool
        requires none { self.old.assumed ≡ [] }
        requires open { ¬ Refutes (clauses (alive_in self.old)) [] }
        requires distinct { NoRepeats lits.now }
        ensures same { self.new ≡ self.old }
        ensures yes { IsTrue result → IsUnit (clauses (alive_in self.old)) lits.now }
        ensures only { IsUnit (clauses (alive_in self.old)) lits.now → IsTrue result }
    {
        let _found = propagate(&mut self.propagator, Part::All);
        is_unit_in(&self.propagator, lits)
    }

    /// The formula.
    pub fn formula(&self) -> &Formula
        ensures { result.now ≡ self.now.formula }
    {
        &self.formula
    }

    /// The number after those of all lemmas.
    pub fn next(&self) -> ClauseId
        ensures value { result ≡ next_of self.now }
        ensures low { 0 < result }
        ensures small { result ≤ 2147483647 }
        ensures distinct { AreDistinct self.now }
    {
        self.refs.len() as u32 + 1
    }

    /// The literals of the clause of a number, in any order.
    pub fn clause(&self, id: ClauseId) -> &[Lit]
        requires low { 0 < id }
        requires high { id < next_of self.now }
        ensures { HasClauseAt self.now id result.now }
    {
        lits_at(&self.propagator, self.refs[id as usize - 1])
    }

    /// The pivot of a lemma.
    pub fn pivot(&self, id: ClauseId) -> Lit
        requires low { length self.now.formula.clauses < id }
        requires high { id < next_of self.now }
        ensures { HasPivotAt self.now id result }
    {
        self.told[(id - self.formula.count() - 1) as usize].pivot
    }

    /// The witness that is written for a lemma.
    pub fn witness(&self, id: ClauseId) -> Option<&Subst>
        requires low { length self.now.formula.clauses < id }
        requires high { id < next_of self.now }
        ensures { HasWitnessAt self.now id (option_copied result) }
    {
        self.told[(id - self.formula.count() - 1) as usize]
            .witness
            .as_ref()
    }

    /// Whether a number is cited.
    pub fn is_cited(&self, id: ClauseId) -> bool
        ensures { result ≡ holds_number id self.now.cited }
    {
        id > 0 && id as usize <= self.flags.len() && self.flags[id as usize - 1]
    }

    /// Cites the clause of a number.
    pub fn cite(&mut self, id: ClauseId) -> Result<(), NoMemory>
        requires { holds_number id (numbers (alive_in self.old)) ≡ true }
        ensures ok { OnOk result (self.new ≡ citing self.old id) }
        ensures err { OnErr result (self.new ≡ self.old) }
    {
        self.cited.push(id)?;
        self.flags[id as usize - 1] = true;
        let at = self.refs[id as usize - 1];
        self.propagator.make_core(at);
        // A clause of one literal is looked at here, and not again in each test above.
        close(&mut self.propagator, Part::Core, !self.marks.is_empty());
        Ok(())
    }

    /// Assumes a literal.
    pub fn assume(&mut self, l: Lit) -> Result<(), NoMemory>
        ensures ok { OnOk result (self.new ≡ assuming self.old l) }
        ensures err { OnErr result (self.new ≡ self.old) }
    {
        make_room(&mut self.propagator, l.var())?;
        assume(&mut self.propagator, &mut self.assumed, &mut self.marks, l)
    }

    /// How many literals are assumed.
    pub fn mark(&self) -> usize
        ensures { result ≡ length self.now.assumed }
    {
        self.assumed.as_slice().len()
    }

    /// Keeps the first literals that were assumed alone.
    pub fn undo_to(&mut self, mark: usize)
        requires { mark ≤ length self.old.assumed }
        ensures { self.new ≡ record self.old { assumed = take mark self.old.assumed } }
    {
        undo_to(
            &mut self.propagator,
            &mut self.assumed,
            &mut self.marks,
            mark,
        );
    }

    /// Whether the alive clauses of a part refute what is assumed. Where there is a conflict, `chain` is a lean chain over
    /// the alive clauses, also of those that aren't of the part; else it is empty, also where memory lacks.
    pub fn test(&mut self, part: Part, chain: &mut IdList) -> Result<bool, NoMemory>
        ensures same { self.new ≡ self.old }
        ensures ok { IfOk result (λ b. PartTests self.old part b chain.new) }
        ensures err { OnErr result (chain.new ≡ []) }
    {
        test(&mut self.propagator, part, &mut self.chain, chain)
    }

    /// The numbers that are cited, in order.
    pub fn cited(&self) -> &[ClauseId]
        ensures value { result.now ≡ self.now.cited }
        ensures known { (n : ℕ) → holds_number n self.now.cited ≡ true → IsNumber self.now n }
        ensures alive { AliveOrBack self.now }
    {
        let _flags = &self.flags;
        self.cited.as_slice()
    }

    /// The literals that are assumed, in order.
    pub fn assumed(&self) -> &[Lit]
        ensures { result.now ≡ self.now.assumed }
    {
        self.assumed.as_slice()
    }

    /// Whether all numbers are cited.
    pub fn are_cited(&self, ids: &[ClauseId]) -> bool
        ensures { IsTrue result → AreCited self.now ids.now }
    {
        for id in ids {
            if !self.is_cited(*id) {
                return false;
            }
        }
        true
    }

    /// Whether the clause of a number is alive.
    pub fn is_alive(&self, id: ClauseId) -> bool
        requires low { 0 < id }
        requires high { id < next_of self.now }
        ensures { result ≡ has_clause (alive_in self.now) id }
    {
        self.propagator.part(self.refs[id as usize - 1]).is_some()
    }

    /// Takes lines back, from the last one standing, until a lemma's line was taken back, and gives that lemma's number.
    pub fn back(&mut self) -> Option<ClauseId>
        requires { self.old.assumed ≡ [] }
        ensures { TakesBack self.old self.new result }
    {
        'lines: while self.standing > 0 {
            let lemma = self.take_back();
            if lemma.is_some() {
                return lemma;
            }
        }
        None
    }

    /// Takes the last line standing back, and gives the number of its lemma.
    fn take_back(&mut self) -> Option<ClauseId>
        requires some { self.old.standing ≢ [] }
        requires none { self.old.assumed ≡ [] }
        ensures { TookLine self.old self.new result }
    {
        self.standing -= 1;
        match &self.lines[self.standing] {
            Event::Joined(_) => {
                let id = self.reached;
                self.reached -= 1;
                let at = self.refs[id as usize - 1];
                self.propagator.detach(at);
                Some(id)
            }
            Event::Removed(id) => {
                let at = self.refs[*id as usize - 1];
                self.propagator.attach(at, Part::All);
                None
            }
            Event::Passed => None,
        }
    }
}

/// Holds the clauses of a formula under their numbers.
fn hold_all(
    formula: &Formula,
    propagator: &mut Propagator,
    refs: &mut Vec<Cref>,
    flags: &mut Vec<bool>,
) -> Result<(), NoMemory>
    requires none { IsBare propagator.old }
    requires refs { refs.old.items ≡ [] }
    requires flags { flags.old.items ≡ [] }
    ensures ok { OnOk result (HoldsFirst propagator.new refs.new.items flags.new.items formula.now.clauses (length formula.now.clauses)) }
{
    for i in 0..formula.count() {
        hold(propagator, refs, flags, formula.clause(i + 1))?;
    }
    Ok(())
}
