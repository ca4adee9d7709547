// Which calls of a desk in memory are to fail.
ghost use Rattle.std.specs.Prelude.{◌≡◌, ◌++◌, ◌∷◌, [], OnOk, OnErr, min, ◌^◌, ◌-◌};
ghost use Rattle.sr_desk.specs.Refusing.{kind_number, one_more, calls_in, calls_after, refuses_in};

use sr_base::NoMemory;
use std::alloc::Global;

/// A call of the outside.
#[derive(Clone, Copy, Debug, PartialEq, Eq)]
pub enum CallKind {
    BeginRead,
    BeginWrite,
    Read,
    Write,
    Finish,
}

/// The n-th call of a kind, counted from 1.
#[derive(Clone, Copy, Debug, PartialEq, Eq)]
pub(crate) struct Refusal {
    pub kind: CallKind,
    pub nth: u32,
}

fn number(kind: CallKind) -> u8
    ensures { result ≡ kind_number kind }
{
    match kind {
        CallKind::BeginRead => 0,
        CallKind::BeginWrite => 1,
        CallKind::Read => 2,
        CallKind::Write => 3,
        CallKind::Finish => 4,
    }
}

/// The calls so far, by kind, and those that are to fail.
#[derive(Drop)]
pub(crate) struct Refusals {
    pub calls: [u64; 5],
    pub refused: Vec<Refusal>,
}

impl Refusals {
    pub(crate) fn new(alloc: Global) -> Refusals
        ensures calls { result.calls ≡ 0 ∷ 0 ∷ 0 ∷ 0 ∷ 0 ∷ [] }
        ensures refused { result.refused.items ≡ [] }
    {
        Refusals {
            calls: [0; 5],
            refused: Vec::new(alloc),
        }
    }

    pub(crate) fn refuse(&mut self, kind: CallKind, nth: u32) -> Result<(), NoMemory>
        ensures ok { OnOk result (self.new.refused.items ≡ self.old.refused.items ++ record { kind = kind; nth = nth } ∷ []) }
        ensures err { OnErr result (self.new.refused.items ≡ self.old.refused.items) }
        ensures calls { self.new.calls ≡ self.old.calls }
    {
        if self.refused.push(Refusal { kind, nth }).is_err() {
            return Err(NoMemory);
        }
        Ok(())
    }

    /// The calls of this kind so far.
    pub(crate) fn calls(&self, kind: CallKind) -> u32
        ensures { result ≡ min (calls_in self.now.calls kind) (2 ^ 32 - 1) }
    {
        self.calls[number(kind) as usize].min(u64::from(u32::MAX)) as u32
    }

    /// Counts a call, and says whether it is to fail.
    pub(crate) fn due(&mut self, kind: CallKind) -> bool
        ensures due { result ≡ refuses_in self.old.refused.items kind (one_more (calls_in self.old.calls kind)) }
        ensures calls { self.new.calls ≡ calls_after self.old.calls kind }
        ensures counted { calls_in self.new.calls kind ≡ one_more (calls_in self.old.calls kind) }
        ensures refused { self.new.refused.items ≡ self.old.refused.items }
    {
        let at = number(kind) as usize;
        self.calls[at] = self.calls[at].saturating_add(1);
        let count = self.calls[at];
        self.refused.iter().any(|r| number(r.kind) == number(kind) && u64::from(r.nth) == count)
    }

    pub(crate) fn clear(&mut self)
        ensures calls { self.new.calls ≡ 0 ∷ 0 ∷ 0 ∷ 0 ∷ 0 ∷ [] }
        ensures refused { self.new.refused.items ≡ [] }
    {
        self.calls = [0; 5];
        self.refused.clear();
    }
}
