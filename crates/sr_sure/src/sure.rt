// Two texts in memory that are read as files.
ghost use Rattle.std.specs.Prelude.{◌≡◌};
ghost use Rattle.sr_sure.specs.Sure.{AllFit, AllUnused, AllSure};

use crate::standing::{Standing, Usage, begun, copy_front, is_end, raise, usage_of};
use sr_base::ByteList;
use sr_desk::{CallError, Desk, FileName, Slot, no_names};

/// Two texts in memory, as the files `formula` and `proof`. A file of any other name is empty. No read fails, and each call that
/// is to write does.
#[derive(Drop)]
pub struct SureDesk {
    formula: ByteList,
    proof: ByteList,
    begun: u8,
    reads_from: [FileName; 9],
    writes_to: [FileName; 9],
    slots: [Standing; 9],
    ghost fit: { AllFit formula proof slots },
    ghost later: { AllUnused begun slots },
    ghost sure: { AllSure slots },
}

const UNUSED: Standing = Standing {
    usage: Usage::Unused,
    place: 0,
    ended: false,
    faults: 0,
};

impl Desk for SureDesk {
    ghost use Rattle.sr_sure.specs.SureView.{outside_of};

    ghost outside = { outside_of };

    fn begin_read(&mut self, name: &str) -> Result<Slot, CallError> {
        let slot = Slot { number: self.begun };
        self.reads_from[slot.number as usize] = FileName::of(name);
        self.slots[slot.number as usize] = begun(usage_of(name));
        self.begun += 1;
        Ok(slot)
    }

    fn begin_write(&mut self, name: &str) -> Result<Slot, CallError> {
        let slot = Slot { number: self.begun };
        self.writes_to[slot.number as usize] = FileName::of(name);
        self.slots[slot.number as usize] = begun(Usage::Writing);
        self.begun += 1;
        Ok(slot)
    }

    fn read(&mut self, slot: Slot, buf: &mut [u8]) -> Result<usize, CallError> {
        let standing = self.slots[slot.number as usize];
        let count = copy_front(self.rest(standing), buf);
        self.slots[slot.number as usize] = Standing {
            place: standing.place + count,
            ended: is_end(count, buf),
            ..standing
        };
        Ok(count)
    }

    fn write(&mut self, slot: Slot, _piece: &[u8]) -> Result<usize, CallError> {
        raise(&mut self.slots, slot.number as usize);
        Err(CallError)
    }

    fn finish(&mut self, slot: Slot) -> Result<(), CallError> {
        raise(&mut self.slots, slot.number as usize);
        Err(CallError)
    }
}

impl SureDesk {
    ghost use Rattle.std.specs.Prelude.{◌≤◌, ◌<◌, ◌+◌, ◌^◌, Some, codes, drop, length};
    ghost use Rattle.sr_sure.specs.Sure.{text_by};
    ghost use Rattle.sr_sure.specs.SureView.{outside_of, HasTexts, IsFresh, NeverFails};

    /// The desk of a formula and a proof.
    pub fn new(formula: ByteList, proof: ByteList) -> SureDesk
        ensures texts { HasTexts formula proof (outside_of result) }
        ensures fresh { IsFresh (outside_of result) }
    {
        SureDesk {
            formula,
            proof,
            begun: 0,
            reads_from: no_names(),
            writes_to: no_names(),
            slots: [UNUSED; 9],
        }
    }

    /// What a slot that stands here has still to give.
    fn rest(&self, standing: Standing) -> &[u8]
        requires { standing.place ≤ length (text_by self.now.formula self.now.proof standing.usage) }
        ensures bytes { result.now ≡ drop standing.place (text_by self.now.formula self.now.proof standing.usage) }
        ensures fits { standing.place + length result.now < 2 ^ 64 }
    {
        let text: &[u8] = match standing.usage {
            Usage::Formula => self.formula.as_slice(),
            Usage::Proof => self.proof.as_slice(),
            _ => &[],
        };
        &text[standing.place..]
    }

    /// The text that is read as the formula.
    pub fn formula(&self) -> &ByteList
        ensures { (outside_of self.now).file (codes "formula") ≡ Some result.now }
    {
        &self.formula
    }

    /// The text that is read as the proof.
    pub fn proof(&self) -> &ByteList
        ensures { (outside_of self.now).file (codes "proof") ≡ Some result.now }
    {
        &self.proof
    }

    /// No read fails, whatever is asked of the desk.
    pub fn reads_never_fail(&self)
        ensures { NeverFails (outside_of self.now) }
    {}
}
