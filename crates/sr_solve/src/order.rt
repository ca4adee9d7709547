// Which open variable is decided next, with which sign, and when the search begins anew.
//
// Nothing is promised of any of it: a literal that has a value is passed over, and variables that are never picked are decided
// at the end. So any heuristic may stand here, and needs no proof but that it is safe. Variables are picked by their activity,
// which conflicts raise and time lowers (Moskewicz, Madigan, Zhao, Zhang and Malik 2001; Eén and Sörensson 2003), with the
// sign that they had last (Pipatsrisawat and Darwiche 2007). The search begins anew after numbers of conflicts that follow the
// sequence 1, 1, 2, 1, 1, 2, 4 (Luby, Sinclair and Zuckerman 1993), times a constant.
ghost use Rattle.std.specs.Prelude.{◌≤◌};
ghost use Rattle.sr_base.specs.declared.literal.TheConstants.{MOST_VARS};

use crate::heap::{Heap, filled};
use sr_base::{Lit, MOST_VARS, NoMemory};
use sr_watch::Propagator;
use std::alloc::Global;
use std::marker::Model;

/// How many conflicts the sequence of restarts counts by.
const RESTART_UNIT: u64 = 100;

/// By what a conflict's variables become more active, at first.
const FIRST_STEP: u64 = 1 << 32;

/// Where steps are larger, all is divided.
const MOST_STEP: u64 = 1 << 56;

/// By what it is divided.
const DIVISOR: u64 = 1 << 16;

/// An order of the variables. A contract sees one more than the greatest variable.
#[derive(Drop)]
pub struct Order {
    heap: Heap,
    /// For each variable the sign that it had last.
    phases: Vec<bool>,
    /// By what the variables of the next conflict become more active.
    step: u64,
    /// How many conflicts come before the next restart.
    left: u64,
    /// Where the sequence of restarts stands, and its term there.
    turn: u64,
    term: u64,
}

impl Model for Order {
    ghost use Rattle.std.specs.Prelude.{ℕ, ◌≡◌, length};

    ghost Value = { ℕ };

    ghost view = { λ o. o.heap };

    ghost invariant = { λ o. length o.phases.items ≡ o.heap };
}

impl Order {
    /// The variables up to one, in order.
    pub fn new(alloc: Global, vars: u32) -> Result<Order, NoMemory>
        requires { vars ≤ MOST_VARS }
    {
        Ok(Order {
            heap: Heap::new(alloc, vars)?,
            phases: filled(alloc, vars as usize + 1, false)?,
            step: FIRST_STEP,
            left: RESTART_UNIT,
            turn: 1,
            term: 1,
        })
    }

    /// A variable takes part in a conflict.
    #[inline]
    pub fn bump(&mut self, l: Lit) {
        let var = l.var();
        if (var as usize) < self.phases.len() {
            self.heap.bump(var, self.step);
        }
    }

    /// A conflict is over: later ones count for more.
    pub fn conflict(&mut self) {
        self.left = self.left.saturating_sub(1);
        self.step = self.step.saturating_add(self.step / 16);
        if self.step > MOST_STEP {
            self.step /= DIVISOR;
            self.heap.divide(DIVISOR);
        }
    }

    /// Entries are undone.
    pub fn undo(&mut self, entries: &[Lit]) {
        for l in entries {
            self.reopen(*l);
        }
    }

    /// The variable of a literal that was true has no value any more.
    #[inline]
    fn reopen(&mut self, l: Lit) {
        let var = l.var();
        if (var as usize) < self.phases.len() {
            self.phases[var as usize] = l.code() % 2 == 0;
            self.heap.insert(var);
        }
    }

    /// Whether the search goes back to the root before its next decision.
    pub fn restarts(&mut self) -> bool {
        if self.left > 0 {
            return false;
        }
        if self.turn & self.turn.wrapping_neg() == self.term {
            self.turn = self.turn.wrapping_add(1);
            self.term = 1;
        } else {
            self.term = self.term.wrapping_mul(2);
        }
        self.left = RESTART_UNIT.wrapping_mul(self.term);
        true
    }

    /// A literal to decide; none where it knows of no open one.
    pub fn pick(&mut self, propagator: &Propagator) -> Option<Lit> {
        for _turn in 0..self.heap.count() {
            let var = self.heap.pop()?;
            if var == 0 || var > MOST_VARS || var > propagator.vars() {
                return None;
            }
            let l = Lit::from_code(2 * var + 1);
            if propagator.value(l).is_none() {
                return Some(self.sign(l));
            }
        }
        None
    }

    /// The literal of a variable with the sign that it had last.
    #[inline]
    fn sign(&self, l: Lit) -> Lit {
        let var = l.var() as usize;
        if var < self.phases.len() && self.phases[var] {
            return l.neg();
        }
        l
    }
}
