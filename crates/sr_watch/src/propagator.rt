// The propagator.
ghost use Rattle.std.specs.Prelude.{ℕ, List, ◌≡◌, ◌≢◌, ◌≤◌, ◌<◌, ◌+◌, ◌*◌, ◌↔◌, [], ◌∷◌, ◌++◌, length, true, None, Some, max, reverse, vec_capacity, IsTrue, IsOk, OnOk, OnErr, IfOk, IfErr, MatchOption};
ghost use Rattle.sr_base.specs.Literal.{complement, has, variable, NoRepeats, SameSet};
ghost use Rattle.sr_arena.specs.Cells.{reference};
ghost use Rattle.sr_watch.specs.State.{no_clause, held_clause, slot_at, lits_at, reason_at, AllFalse, IsHeld, IsAttached, held_cells, AreWithin, assumed, value_in, reason_in, IsSound};
ghost use Rattle.sr_watch.specs.Changes.{IsAdded, with_part, cut_to, with_assumed, AreReordered, IsAttachedTo, IsDetached, Derives, AreDerivedBy};
ghost use Rattle.sr_watch.specs.Meaning.{Means, IsLeast, IsAsked};
ghost use Rattle.sr_watch.specs.Lean.{IsChain, stands_in};
ghost use Rattle.sr_watch.specs.Trail.{place_in};
ghost use Rattle.sr_watch.specs.Reading.{most_reads};
ghost use Rattle.sr_watch.specs.Running.{FindsSelf, asked_clause, ClosesAt, AreAttached, IsSpare, IsUsed};
ghost use Rattle.sr_base.specs.declared.literal.TheConstants.{MOST_VARS};

use crate::chains::{collect, first_clash};
use crate::closing::close_part;
use crate::cutting::{cut, succeed};
use crate::marks::Marks;
use crate::needed::Needed;
use crate::parting::{attach_to, forget, freshen, set_part};
use crate::parts::{Found, Part};
use crate::queue::Queue;
use crate::reasons::{heir, place_of, take_over};
use crate::scanning::{reason_of, value_of};
use crate::spares::Spares;
use crate::trail::Trail;
use crate::watches::Watches;
use sr_arena::{ClauseMem, Cref, CrefList, Steps};
use sr_base::{AddError, Limits, Lit, NoMemory, has};
use std::alloc::Global;
use std::marker::Model;
use std::sync::ledger::Ledger;

/// Clauses, and literals that are assumed or derived from them.
///
/// Clauses are held under references. Those that are attached propagate, as the core or as the rest. Only
/// `grow`, `add` and `chain` take memory: with the room that the first two make, all other calls always give
/// their answer. The order of a clause's literals is the propagator's own affair.
#[derive(Drop)]
pub struct Propagator {
    memory: ClauseMem,
    known: Vec<Cref>,
    most: u32,
    trail: Trail,
    /// What a chain stands on; no literals are marked between calls.
    needed: Needed,
    /// The reasons that clauses of one literal took over from.
    spares: Spares,
    core: Watches,
    rest: Watches,
}

impl Model for Propagator {
    ghost use Rattle.std.specs.Prelude.{◌≡◌, ◌≤◌, vec_capacity};
    ghost use Rattle.sr_watch.specs.State.{State};
    ghost use Rattle.sr_watch.specs.Inside.{state_of, IsKept};
    ghost use Rattle.sr_watch.specs.Marks.{AreReady};
    ghost use Rattle.sr_watch.specs.Reasons.{AreSpares};
    ghost use Rattle.sr_watch.specs.Resting.{AreWatched};
    ghost use Rattle.sr_arena.specs.Cells.{held_cells};
    ghost use Rattle.sr_base.specs.declared.limits.TheConstants.{MOST_CELLS};

    ghost Value = { State };

    ghost view = { λ p. state_of p.trail.vars p.memory p.trail.lits p.trail.reasons };

    ghost invariant = { λ p. IsKept p.trail.vars p.memory p.known.items p.trail.lits p.trail.reasons × (p.most ≡ p.memory.most)
        × (p.most ≤ MOST_CELLS) × (p.memory.used ≡ held_cells p.memory) × AreReady p.needed.marks p.trail.vars
        × AreWatched p.memory p.known.items p.trail p.core p.rest × AreSpares p.memory p.trail.vars p.spares };
}

impl Propagator {
    /// No clauses and no entries, and no variable with room. It takes no memory.
    pub fn new(alloc: Global, limits: &Limits) -> Propagator
        ensures { result ≡ record { vars = 0; most = limits.now.cells; slots = no_clause ∷ []; lits = []; reasons = [] } }
    {
        Propagator {
            memory: ClauseMem::new(alloc, limits),
            known: Vec::new(alloc),
            most: limits.cells(),
            trail: Trail::new(alloc),
            needed: Needed {
                marks: Marks::new(alloc),
                queue: Queue::new(alloc),
            },
            spares: Spares::new(alloc),
            core: Watches::new(alloc),
            rest: Watches::new(alloc),
        }
    }

    /// Makes room for the variables up to `var`. Want of memory changes nothing.
    pub fn grow(&mut self, var: u32) -> Result<(), NoMemory>
        requires { var ≤ MOST_VARS }
        ensures ok { OnOk result (self.new ≡ record self.old { vars = max self.old.vars var }) }
        ensures has_room { var ≤ self.old.vars → IsOk result }
        ensures err { OnErr result (self.new ≡ self.old) }
    {
        if var <= self.trail.vars() {
            return Ok(());
        }
        self.needed.marks.grow(var)?;
        self.spares.grow(var)?;
        self.core.grow(var)?;
        self.rest.grow(var)?;
        self.trail.grow(var)
    }

    /// The greatest variable that has room; 0 where none has.
    #[inline]
    pub fn vars(&self) -> u32
        ensures { result ≡ self.now.vars }
    {
        self.trail.vars()
    }

    /// Holds a clause, with a number of the caller's. It isn't attached.
    ///
    /// A clause of n literals counts n + 4 cells. Where the limit of cells would be passed, that is the
    /// answer, also where memory lacks. Neither refusal changes anything.
    pub fn add(&mut self, lits: &[Lit], number: u32) -> Result<Cref, AddError>
        requires distinct { NoRepeats lits.now }
        requires room { AreWithin self.old.vars lits.now }
        ensures ok { IfOk result (λ at. IsAdded self.old self.new at (held_clause lits.now number)) }
        ensures cells { OnOk result (held_cells self.new ≡ held_cells self.old + (length lits.now + 4)) }
        ensures fits { OnOk result (held_cells self.new ≤ self.old.most) }
        ensures refused { result ≡ Err AddError.Cells ↔ (self.old.most < held_cells self.old + (length lits.now + 4)) }
        ensures err { OnErr result (self.new ≡ self.old) }
    {
        if !self.has_cells(lits.len()) {
            return Err(AddError::Cells);
        }
        if self.known.reserve(1).is_err() {
            return Err(AddError::NoMemory);
        }
        let clauses = self.known.len() + 1;
        if self.core.reserve(clauses).is_err() {
            return Err(AddError::NoMemory);
        }
        if self.rest.reserve(clauses).is_err() {
            return Err(AddError::NoMemory);
        }
        match self.memory.add(lits, number) {
            Err(_) => Err(AddError::NoMemory),
            Ok(at) => {
                self.known.push_reserved(at);
                Ok(at)
            }
        }
    }

    /// Whether a clause of so many literals fits the limit of cells.
    fn has_cells(&self, len: usize) -> bool
        ensures { IsTrue result ↔ (held_cells self.now + (len + 4) ≤ self.now.most) }
    {
        let free = (self.most - self.memory.held_cells()) as usize;
        free >= 4 && len <= free - 4
    }

    /// The literals of a held clause, in an order of the propagator's own. It takes one step.
    pub fn clause<L: Ledger>(&self, at: Cref, steps: &mut Steps<L>) -> &[Lit]
        requires { IsHeld self.now at }
        ensures set { SameSet result.now (lits_at self.now at) }
        ensures size { length result.now ≡ length (lits_at self.now at) }
        ensures distinct { NoRepeats result.now }
        ensures tick { steps.new ≡ steps.old + 1 }
    {
        self.memory.lits(at, steps)
    }

    /// The number of a held clause, as it was given to [`Propagator::add`].
    pub fn number(&self, at: Cref) -> u32
        requires { IsHeld self.now at }
        ensures { result ≡ (slot_at self.now at).number }
    {
        self.memory.number(at)
    }

    /// The part that a held clause is attached to; none where it isn't attached.
    pub fn part(&self, at: Cref) -> Option<Part>
        requires { IsHeld self.now at }
        ensures { result ≡ (slot_at self.now at).part }
    {
        if !self.memory.mark(at) {
            return None;
        }
        if self.memory.flag(at) {
            Some(Part::Core)
        } else {
            Some(Part::All)
        }
    }

    /// The cells of held clauses: for each its literals and four more.
    pub fn held_cells(&self) -> u32
        ensures { result ≡ held_cells self.now }
    {
        self.memory.held_cells()
    }

    /// Attaches a held clause to a part. What it forces is found by the next propagation; a clause of one literal becomes the
    /// reason of that literal's derived entry at once, where the reason has more literals.
    pub fn attach(&mut self, at: Cref, part: Part)
        requires held { IsHeld self.old at }
        requires loose { (slot_at self.old at).part ≡ None }
        ensures value { IsAttachedTo self.old self.new at part }
        ensures cells { held_cells self.new ≡ held_cells self.old }
    {
        freshen(
            &mut self.memory,
            &mut self.core,
            &mut self.rest,
            &self.known,
            at,
        );
        attach_to(
            &mut self.memory,
            &mut self.core,
            &mut self.rest,
            &self.trail,
            at,
            part,
        );
        take_over(&self.memory, &mut self.trail, &mut self.spares, at);
    }

    /// Detaches a clause. Where an entry's reason goes and no other takes over, that entry and all after it
    /// go.
    pub fn detach(&mut self, at: Cref)
        requires { IsAttached self.old at }
        ensures value { (n : ℕ) × IsDetached self.old self.new at n }
        ensures cells { held_cells self.new ≡ held_cells self.old }
    {
        let place = place_of(&self.memory, &self.trail, at);
        let heir = heir(&self.memory, &self.trail, &self.spares, at, place);
        forget(&mut self.core, at);
        forget(&mut self.rest, at);
        set_part(&mut self.memory, at, None);
        succeed(
            &self.memory,
            &mut self.trail,
            &mut self.core,
            &mut self.rest,
            place,
            heir,
        );
    }

    /// Makes an attached clause one of the core.
    pub fn make_core(&mut self, at: Cref)
        requires { IsAttached self.old at }
        ensures value { IsAttachedTo self.old self.new at Part.Core }
        ensures cells { held_cells self.new ≡ held_cells self.old }
    {
        if self.memory.flag(at) {
            return;
        }
        forget(&mut self.rest, at);
        set_part(&mut self.memory, at, None);
        attach_to(
            &mut self.memory,
            &mut self.core,
            &mut self.rest,
            &self.trail,
            at,
            Part::Core,
        );
    }

    /// The literals of the entries, in order.
    pub fn entries(&self) -> &[Lit]
        ensures value { result.now ≡ self.now.lits }
        ensures sound { IsSound self.now }
    {
        self.trail.lits()
    }

    /// The reasons of the entries, in order: the number of a reference, and 0 where the entry is assumed.
    #[inline]
    pub fn reasons(&self) -> &[u32]
        ensures value { result.now ≡ self.now.reasons }
        ensures sound { IsSound self.now }
    {
        self.trail.reasons()
    }

    /// One more than the place where a literal comes first among the entries; 0 where it isn't true.
    #[inline]
    pub fn place(&self, l: Lit) -> u32
        requires { variable l ≤ self.now.vars }
        ensures value { result ≡ place_in self.now.lits l }
        ensures sound { IsSound self.now }
    {
        self.trail.place(l)
    }

    /// Assumes a literal. It changes nothing where the literal is assumed already.
    pub fn assume(&mut self, l: Lit)
        requires { variable l ≤ self.old.vars }
        ensures { self.new ≡ with_assumed self.old l }
    {
        if !self.trail.is_assumed(l) {
            self.trail.push(l, 0);
        }
    }

    /// The length of the list of entries.
    pub fn mark(&self) -> usize
        ensures { result ≡ length self.now.lits }
    {
        self.trail.lits().len()
    }

    /// Keeps the first entries alone.
    pub fn undo_to(&mut self, mark: usize)
        requires { mark ≤ length self.old.lits }
        ensures { self.new ≡ cut_to self.old mark }
    {
        cut(
            &self.memory,
            &mut self.trail,
            &mut self.core,
            &mut self.rest,
            mark,
        );
    }

    /// What the first entry of its variable makes a literal; none where it is neither true nor false.
    pub fn value(&self, l: Lit) -> Option<bool>
        requires { variable l ≤ self.now.vars }
        ensures { result ≡ value_in self.now.lits l }
    {
        let is_true = self.trail.place(l);
        let is_false = self.trail.place(l.neg());
        value_of(is_true, is_false)
    }

    /// The reason of a variable's derived entry; none where it has no such entry.
    pub fn reason(&self, var: u32) -> Option<Cref>
        requires { var ≤ self.now.vars }
        ensures { reference result ≡ reason_in self.now.lits self.now.reasons var }
    {
        let reason = reason_of(self.trail.lits(), self.trail.reasons(), var);
        Cref::from_index(reason)
    }

    /// Derives what follows by the clauses of the part, until nothing more does or a clause is false.
    ///
    /// An assumed pair, or a derived literal whose complement was assumed later, is answered at once.
    pub fn propagate<L: Ledger>(&mut self, part: Part, steps: &mut Steps<L>) -> Found
        ensures derives { Derives self.old self.new }
        ensures by_part { AreDerivedBy part self.old self.new }
        ensures means { Means part self.new result }
        ensures cells { held_cells self.new ≡ held_cells self.old }
        ensures sound { IsSound self.new }
        ensures least { IsLeast self.new }
        ensures reads { steps.new ≤ steps.old + most_reads part self.new }
    {
        if let Some(found) = self.against_itself() {
            return found;
        }
        match close_part(
            &mut self.memory,
            &mut self.core,
            &mut self.rest,
            &mut self.trail,
            part,
            steps,
        ) {
            Some(at) => Found::Conflict(at),
            None => Found::Still,
        }
    }

    /// Writes a lean chain for a conflict or a pair into `chain`, in the place of what it held. For a pair it
    /// is empty.
    ///
    /// Want of memory leaves `chain` empty.
    pub fn chain<L: Ledger>(
        &mut self,
        found: Found,
        chain: &mut CrefList,
        steps: &mut Steps<L>,
    ) -> Result<(), NoMemory>
        requires { IsAsked self.old found }
        ensures same { self.new ≡ self.old }
        ensures ok { OnOk result (IsChain self.old (asked_clause found) chain.new) }
        ensures err { OnErr result (chain.new ≡ []) }
    {
        chain.truncate(0);
        let Found::Conflict(at) = found else {
            return Ok(());
        };
        self.chain_of(at, chain, steps)
    }

    /// The same for a clause that is false.
    fn chain_of<L: Ledger>(
        &mut self,
        at: Cref,
        chain: &mut CrefList,
        steps: &mut Steps<L>,
    ) -> Result<(), NoMemory>
        requires attached { IsAttached self.old at }
        requires all_false { AllFalse self.old.lits (lits_at self.old at) }
        requires empty { chain.old ≡ [] }
        ensures same { self.new ≡ self.old }
        ensures ok { OnOk result (IsChain self.old at chain.new) }
        ensures err { OnErr result (chain.new ≡ []) }
    {
        if self.trail.has_assumed_pair() {
            return Ok(());
        }
        let end = first_clash(&self.trail);
        let last = self.closing(end, at);
        let base = self.trail.root_len().max(self.rest.kept_len());
        match collect(
            &self.trail,
            &self.memory,
            &mut self.needed,
            last,
            end,
            base,
            chain,
            steps,
        ) {
            Err(e) => {
                chain.truncate(0);
                Err(e)
            }
            Ok(()) => {
                chain.reverse();
                Ok(())
            }
        }
    }

    /// The reason of an entry, or this clause past the end.
    fn closing(&self, end: usize, at: Cref) -> Cref
        requires { end < length self.now.lits → reason_at self.now end ≢ 0 }
        ensures sound { IsSound self.now }
        ensures past { end ≡ length self.now.lits → result ≡ at }
        ensures within { end < length self.now.lits → result ≡ reason_at self.now end }
    {
        let reasons = self.trail.reasons();
        if end >= reasons.len() {
            return at;
        }
        match Cref::from_index(reasons[end]) {
            None => at,
            Some(reason) => reason,
        }
    }

    /// What the entries hold already against themselves.
    fn against_itself(&self) -> Option<Found>
        ensures finds { FindsSelf self.now result }
        ensures sound { IsSound self.now }
    {
        let clash = self.trail.clash() as usize;
        if clash == 0 {
            return None;
        }
        let l = self.trail.lits()[clash - 1];
        if self.trail.is_assumed(l.neg()) {
            return Some(Found::Pair(l));
        }
        let place = self.trail.place(l.neg()) as usize;
        match Cref::from_index(self.trail.reasons()[place - 1]) {
            None => unreachable!(),
            Some(at) => Some(Found::Conflict(at)),
        }
    }
}
