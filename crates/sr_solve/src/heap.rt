// Variables in a binary heap by activity: the most active one comes first.
//
// The table of places always lists all variables, and the first ones of them are the heap. So a variable that leaves the heap
// is swapped behind its end, and comes back from there.
ghost use Rattle.std.specs.Prelude.{ℕ, ◌≡◌, ◌≤◌, ◌<◌, ◌+◌, replicate, IfOk, IfSome};
ghost use Rattle.sr_base.specs.declared.literal.TheConstants.{MOST_VARS};

use sr_base::NoMemory;
use std::alloc::Global;
use std::marker::Model;

/// A heap of variables. A contract sees one more than the greatest variable.
#[derive(Drop)]
pub struct Heap {
    /// The variables, those in the heap first.
    vars: Vec<u32>,
    /// For each variable where it stands in `vars`.
    places: Vec<u32>,
    activity: Vec<u64>,
    /// How many variables are in the heap.
    count: u32,
}

impl Model for Heap {
    ghost use Rattle.std.specs.Prelude.{ℕ, length};
    ghost use Rattle.sr_solve.specs.Ordering.{IsHeap};

    ghost Value = { ℕ };

    ghost view = { λ h. length h.activity.items };

    ghost invariant = { λ h. IsHeap h.vars.items h.places.items (length h.activity.items) h.count };
}

/// So many equal items.
pub fn filled<T: Copy>(alloc: Global, size: usize, x: T) -> Result<Vec<T>, NoMemory>
    ensures { IfOk result (λ v. v.items ≡ replicate size x) }
{
    let mut items = Vec::new(alloc);
    match items.resize(size, x) {
        Ok(()) => Ok(items),
        Err(_) => Err(NoMemory),
    }
}

impl Heap {
    /// All variables up to one, in order, none of them active.
    pub fn new(alloc: Global, vars: u32) -> Result<Heap, NoMemory>
        requires { vars ≤ MOST_VARS }
        ensures { IfOk result (λ h. h ≡ vars + 1) }
    {
        let size = vars as usize + 1;
        let mut heap = Heap {
            vars: filled(alloc, size, 0)?,
            places: filled(alloc, size, 0)?,
            activity: filled(alloc, size, 0)?,
            count: vars,
        };
        for i in 0..vars {
            heap.put(i, i + 1);
        }
        heap.put(vars, 0);
        Ok(heap)
    }

    /// How many variables are in the heap.
    pub fn count(&self) -> u32
        ensures { result ≤ self.now }
    {
        self.count
    }

    /// The variable at a place.
    #[inline(always)]
    fn at(&self, place: u32) -> u32
        requires { place < self.now }
        ensures { result < self.now }
    {
        self.vars[place as usize]
    }

    /// The place of a variable.
    #[inline(always)]
    fn place(&self, var: u32) -> u32
        requires { var < self.now }
        ensures { result < self.now }
    {
        self.places[var as usize]
    }

    /// How active a variable is.
    #[inline(always)]
    fn activity(&self, var: u32) -> u64
        requires { var < self.now }
    {
        self.activity[var as usize]
    }

    /// Puts a variable at a place.
    #[inline(always)]
    fn put(&mut self, place: u32, var: u32)
        requires place { place < self.old }
        requires var { var < self.old }
        ensures { self.new ≡ self.old }
    {
        self.vars[place as usize] = var;
        self.places[var as usize] = place;
    }

    /// Moves the variable at a place up, past those that are less active.
    fn rise(&mut self, place: u32)
        requires { place < self.old }
        ensures { self.new ≡ self.old }
    {
        let var = self.at(place);
        let activity = self.activity(var);
        let mut here = place;
        'up: while here > 0 {
            let above = (here - 1) / 2;
            let other = self.at(above);
            if self.activity(other) >= activity {
                break;
            }
            self.put(here, other);
            here = above;
        }
        self.put(here, var);
    }

    /// Which of the two places below one holds the more active variable; none where both are behind the heap's end.
    #[inline(always)]
    fn below(&self, place: u32) -> Option<u32>
        requires { place < self.now }
        ensures { IfSome result (λ b. (place < b) × (b < self.now)) }
    {
        let left = 2 * place as u64 + 1;
        if left >= self.count as u64 {
            return None;
        }
        let left = left as u32;
        let right = left + 1;
        if right < self.count && self.activity(self.at(right)) > self.activity(self.at(left)) {
            return Some(right);
        }
        Some(left)
    }

    /// Moves the variable at a place down, past those that are more active.
    fn sink(&mut self, place: u32)
        requires { place < self.old }
        ensures { self.new ≡ self.old }
    {
        let var = self.at(place);
        let activity = self.activity(var);
        let mut here = place;
        'down: while let Some(below) = self.below(here) {
            let other = self.at(below);
            if self.activity(other) <= activity {
                break;
            }
            self.put(here, other);
            here = below;
        }
        self.put(here, var);
    }

    /// Takes the most active variable out.
    pub fn pop(&mut self) -> Option<u32>
        ensures var { IfSome result (λ v. v < self.new) }
        ensures same { self.new ≡ self.old }
    {
        if self.count == 0 {
            return None;
        }
        let last = self.count - 1;
        let top = self.at(0);
        let other = self.at(last);
        self.put(0, other);
        self.put(last, top);
        self.count = last;
        self.sink(0);
        Some(top)
    }

    /// Puts a variable back, where it isn't in the heap.
    pub fn insert(&mut self, var: u32)
        requires { var < self.old }
        ensures { self.new ≡ self.old }
    {
        let place = self.place(var);
        let end = self.count;
        if place < end {
            return;
        }
        let other = self.at(end);
        self.put(place, other);
        self.put(end, var);
        self.count = end + 1;
        self.rise(end);
    }

    /// Makes a variable more active.
    pub fn bump(&mut self, var: u32, by: u64)
        requires { var < self.old }
        ensures { self.new ≡ self.old }
    {
        self.activity[var as usize] = self.activity[var as usize].saturating_add(by);
        let place = self.place(var);
        if place < self.count {
            self.rise(place);
        }
    }

    /// Divides how active each variable is.
    pub fn divide(&mut self, by: u64)
        requires { 0 < by }
        ensures { self.new ≡ self.old }
    {
        for i in 0..self.activity.len() {
            self.activity[i] /= by;
        }
    }
}
