// Files in memory, for tests.
ghost use Rattle.std.specs.Prelude.{◌≡◌, ◌<◌};
ghost use Rattle.sr_desk.specs.MemoryParts.{AllFit, AllApart, AllUnused, AllNamed, names_of, texts_of, usage_at};
ghost use Rattle.sr_desk.specs.declared.held.Usage.TheVariants.{Output};

use crate::find::find;
use crate::held::{Usage, Version};
use crate::last_read::{LastRead, after_read};
use crate::refusals::Refusals;
use crate::steps::{add, append, copy_text, raise, text, text_len};
use crate::{CallError, CallKind, Desk, FileName, Slot, no_names};
use sr_base::NoMemory;
use std::alloc::Global;

/// Files and standard output in memory. All bytes are known.
///
/// Its reads and writes move few bytes at once, and its calls fail, where it is told so. Besides,
/// `begin_read` fails for a name that isn't known, and `begin_write` and `write` may fail where memory
/// runs out. What is written to the slot that was begun last with a name is the file of that name,
/// unless [`MemoryDesk::put_file`] has put another in its place.
#[derive(Drop)]
pub struct MemoryDesk {
    alloc: Global,
    versions: Vec<Version>,
    out: Vec<u8>,
    begun: u8,
    reads_from: [FileName; 9],
    writes_to: [FileName; 9],
    uses: [Usage; 9],
    last: [LastRead; 9],
    finished: [bool; 9],
    faults: [u64; 9],
    most: usize,
    refusals: Refusals,
    ghost fit: { AllFit (texts_of versions.items) uses },
    ghost apart: { AllApart uses },
    ghost later: { AllUnused begun uses },
    ghost named: { AllNamed (names_of versions.items) uses writes_to },
    ghost output: { usage_at uses 8 ≡ Output },
    ghost some: { 0 < most },
}

impl Desk for MemoryDesk {
    ghost use Rattle.std.specs.Prelude.{◌≡◌, ◌<◌, ◌≤◌, false, length, take, min, IsTrue, IfOk, OnOk, OnErr, IsErr, is_err, is_none, ◌||◌};
    ghost use Rattle.std.specs.Bool.{OnTrue};
    ghost use Rattle.sr_desk.specs.Outside.{OnlyReads, OnlyWrites, HasCause, can_write};
    ghost use Rattle.sr_desk.specs.Calls.{BeginsRead, BeginsWrite, ReadHands, WriteAppends, Finishes};
    ghost use Rattle.sr_desk.specs.Memory.{is_due, Counts, EmptiesFile, GrowsFile, MovesMost};
    ghost use Rattle.sr_desk.specs.MemoryView.{outside_of, memory_of};

    ghost outside = { outside_of };

    /// Fails exactly where it is refused or the name isn't known.
    fn begin_read(&mut self, name: &str) -> Result<Slot, CallError>
        requires { (outside_of self.old).begun < 8 }
        ensures begins { BeginsRead (outside_of self.old) (outside_of self.new) name.now result }
        ensures cause { HasCause (outside_of self.old).begun (outside_of self.old) (outside_of self.new) result }
        ensures fails { is_err result ≡ (is_due (memory_of self.old) CallKind.BeginRead || is_none ((outside_of self.old).file name.now)) }
        ensures counts { Counts CallKind.BeginRead (memory_of self.old) (memory_of self.new) }
        ensures owners { (memory_of self.new).writes_file ≡ (memory_of self.old).writes_file }
    {
        let slot = Slot { number: self.begun };
        self.begun += 1;
        self.reads_from[slot.number as usize] = FileName::of(name);
        if self.refusals.due(CallKind::BeginRead) {
            self.last[slot.number as usize] = LastRead::Failed;
            return Err(raise(&mut self.faults, slot));
        }
        match find(&self.versions, name.as_bytes()) {
            None => {
                self.last[slot.number as usize] = LastRead::Failed;
                Err(raise(&mut self.faults, slot))
            }
            Some(version) => {
                let end = text_len(&self.versions, version);
                self.uses[slot.number as usize] = Usage::Reading {
                    version,
                    place: 0,
                    end,
                };
                self.last[slot.number as usize] = LastRead::Fine;
                Ok(slot)
            }
        }
    }

    /// Fails where it is refused, and where memory runs out.
    fn begin_write(&mut self, name: &str) -> Result<Slot, CallError>
        requires { (outside_of self.old).begun < 8 }
        ensures begins { BeginsWrite (outside_of self.old) (outside_of self.new) name.now result }
        ensures cause { HasCause (outside_of self.old).begun (outside_of self.old) (outside_of self.new) result }
        ensures refused { OnTrue (is_due (memory_of self.old) CallKind.BeginWrite) (IsErr result) }
        ensures counts { Counts CallKind.BeginWrite (memory_of self.old) (memory_of self.new) }
        ensures empties { OnOk result (EmptiesFile (outside_of self.old).begun name.now (memory_of self.old) (memory_of self.new)) }
        ensures files { OnErr result ((outside_of self.new).file ≡ (outside_of self.old).file) }
        ensures owners { OnErr result ((memory_of self.new).writes_file ≡ (memory_of self.old).writes_file) }
    {
        let slot = Slot { number: self.begun };
        self.begun += 1;
        self.writes_to[slot.number as usize] = FileName::of(name);
        if self.refusals.due(CallKind::BeginWrite) {
            return Err(raise(&mut self.faults, slot));
        }
        match add(self.alloc, &mut self.versions, name.as_bytes(), &[]) {
            Err(_) => Err(raise(&mut self.faults, slot)),
            Ok(version) => {
                self.uses[slot.number as usize] = Usage::Writing { version };
                self.finished[slot.number as usize] = false;
                Ok(slot)
            }
        }
    }

    /// Fails exactly where it is refused.
    fn read(&mut self, slot: Slot, buf: &mut [u8]) -> Result<usize, CallError>
        requires { IsTrue ((outside_of self.old).slot slot.number).reads }
        ensures within { IfOk result (λ n. n ≤ length buf.new) }
        ensures only { OnlyReads slot.number (outside_of self.old) (outside_of self.new) }
        ensures bytes { ReadHands ((outside_of self.old).slot slot.number) ((outside_of self.new).slot slot.number) result buf.new }
        ensures cause { HasCause slot.number (outside_of self.old) (outside_of self.new) result }
        ensures fails { is_err result ≡ is_due (memory_of self.old) CallKind.Read }
        ensures count { IfOk result (λ n. MovesMost (memory_of self.old) slot.number (length buf.new) n) }
        ensures counts { Counts CallKind.Read (memory_of self.old) (memory_of self.new) }
        ensures owners { (memory_of self.new).writes_file ≡ (memory_of self.old).writes_file }
    {
        if self.refusals.due(CallKind::Read) {
            self.last[slot.number as usize] = LastRead::Failed;
            return Err(raise(&mut self.faults, slot));
        }
        match self.uses[slot.number as usize] {
            Usage::Reading {
                version,
                place,
                end,
            } => {
                let count = (end - place).min(buf.len()).min(self.most);
                copy_text(&self.versions, version, place, count, buf);
                self.uses[slot.number as usize] = Usage::Reading {
                    version,
                    place: place + count,
                    end,
                };
                self.last[slot.number as usize] = after_read(count, buf);
                Ok(count)
            }
            _ => unreachable!(),
        }
    }

    /// Fails where it is refused, and where memory runs out.
    fn write(&mut self, slot: Slot, piece: &[u8]) -> Result<usize, CallError>
        requires { IsTrue (can_write (outside_of self.old) slot.number) }
        ensures within { IfOk result (λ n. n ≤ length piece.now) }
        ensures only { OnlyWrites slot.number (outside_of self.old) (outside_of self.new) }
        ensures bytes { WriteAppends ((outside_of self.old).slot slot.number) ((outside_of self.new).slot slot.number) result piece.now }
        ensures finished { ((outside_of self.new).slot slot.number).finished ≡ false }
        ensures cause { HasCause slot.number (outside_of self.old) (outside_of self.new) result }
        ensures refused { OnTrue (is_due (memory_of self.old) CallKind.Write) (IsErr result) }
        ensures count { IfOk result (λ n. n ≡ min (length piece.now) (memory_of self.old).most) }
        ensures counts { Counts CallKind.Write (memory_of self.old) (memory_of self.new) }
        ensures grows { IfOk result (λ n. GrowsFile slot.number (memory_of self.old) (memory_of self.new) (take n piece.now)) }
        ensures files { OnErr result ((outside_of self.new).file ≡ (outside_of self.old).file) }
        ensures owners { (memory_of self.new).writes_file ≡ (memory_of self.old).writes_file }
    {
        self.finished[slot.number as usize] = false;
        if self.refusals.due(CallKind::Write) {
            return Err(raise(&mut self.faults, slot));
        }
        let count = piece.len().min(self.most);
        let usage = self.uses[slot.number as usize];
        if append(&mut self.versions, &mut self.out, usage, &piece[..count]).is_err() {
            return Err(raise(&mut self.faults, slot));
        }
        Ok(count)
    }

    /// Fails exactly where it is refused.
    fn finish(&mut self, slot: Slot) -> Result<(), CallError>
        requires { IsTrue (can_write (outside_of self.old) slot.number) }
        ensures finishes { Finishes slot.number (outside_of self.old) (outside_of self.new) result }
        ensures cause { HasCause slot.number (outside_of self.old) (outside_of self.new) result }
        ensures fails { is_err result ≡ is_due (memory_of self.old) CallKind.Finish }
        ensures counts { Counts CallKind.Finish (memory_of self.old) (memory_of self.new) }
        ensures owners { (memory_of self.new).writes_file ≡ (memory_of self.old).writes_file }
    {
        if self.refusals.due(CallKind::Finish) {
            return Err(raise(&mut self.faults, slot));
        }
        self.finished[slot.number as usize] = true;
        Ok(())
    }
}

impl MemoryDesk {
    ghost use Rattle.std.specs.Prelude.{OnOk, OnErr, IfOk, max, min, Some, option_map, ◌-◌, ◌^◌};
    ghost use Rattle.sr_desk.specs.Memory.{IsNew, IsRestarted, PutsFile, Refuses, SameOutside};
    ghost use Rattle.sr_desk.specs.MemoryView.{outside_of, memory_of};

    /// A desk without files, which moves as many bytes as there are and refuses nothing.
    pub fn new(alloc: Global) -> Result<MemoryDesk, NoMemory>
        ensures new { IfOk result (λ d. IsNew (memory_of d)) }
        ensures most { IfOk result (λ d. (memory_of d).most ≡ usize.MAX) }
    {
        Ok(MemoryDesk {
            alloc,
            versions: Vec::new(alloc),
            out: Vec::new(alloc),
            begun: 0,
            reads_from: no_names(),
            writes_to: no_names(),
            uses: FRESH,
            last: [LastRead::Fine; 9],
            finished: [false; 9],
            faults: [0; 9],
            most: usize::MAX,
            refusals: Refusals::new(alloc),
        })
    }

    /// Makes a file, or puts it in the place of the one that there was. Slots that read or write
    /// the old one go on with that.
    pub fn put_file(&mut self, name: &str, bytes: &[u8]) -> Result<(), NoMemory>
        ensures ok { OnOk result (PutsFile (memory_of self.old) (memory_of self.new) name.now bytes.now) }
        ensures err { OnErr result (SameOutside (outside_of self.old) (outside_of self.new)) }
        ensures owners { OnErr result ((memory_of self.new).writes_file ≡ (memory_of self.old).writes_file) }
        ensures rest { memory_of self.new ≡ record (memory_of self.old) {
          outside = outside_of self.new;
          writes_file = (memory_of self.new).writes_file;
        } }
    {
        match add(self.alloc, &mut self.versions, name.as_bytes(), bytes) {
            Ok(_) => Ok(()),
            Err(stop) => Err(stop),
        }
    }

    /// Sets the most bytes that a read or a write moves at once, at least one.
    pub fn piece(&mut self, most: usize)
        ensures { memory_of self.new ≡ record (memory_of self.old) { most = max most 1 } }
    {
        self.most = most.max(1);
    }

    /// Makes the n-th call of a kind fail, counted from 1 since the desk was made or restarted.
    pub fn refuse(&mut self, kind: CallKind, nth: u32) -> Result<(), NoMemory>
        ensures ok { OnOk result (Refuses kind nth (memory_of self.old) (memory_of self.new)) }
        ensures err { OnErr result ((memory_of self.new).refuses ≡ (memory_of self.old).refuses) }
        ensures rest { memory_of self.new ≡ record (memory_of self.old) { refuses = (memory_of self.new).refuses } }
    {
        self.refusals.refuse(kind, nth)
    }

    /// How many calls of this kind were made since the desk was made or restarted; it stays at its
    /// greatest value.
    pub fn calls(&self, kind: CallKind) -> u32
        ensures { result ≡ min ((memory_of self.now).calls kind) (2 ^ 32 - 1) }
    {
        self.refusals.calls(kind)
    }

    /// The bytes of a file; none exactly where there is no file of that name.
    pub fn file_bytes(&self, name: &str) -> Option<&[u8]>
        ensures { option_map (λ b. b.now) result ≡ (outside_of self.now).file name.now }
    {
        match find(&self.versions, name.as_bytes()) {
            None => None,
            Some(version) => Some(text(&self.versions, version)),
        }
    }

    /// What was written to standard output.
    pub fn out_bytes(&self) -> &[u8]
        ensures { ((outside_of self.now).slot 8).written ≡ Some result.now }
    {
        self.out.as_slice()
    }

    /// Forgets the slots, the refusals, what was printed, and how many calls were made; keeps the
    /// files, the counts of faults, and the most bytes that are moved at once.
    pub fn restart(&mut self)
        ensures restarted { IsRestarted (memory_of self.new) }
        ensures files { (outside_of self.new).file ≡ (outside_of self.old).file }
        ensures faults { (n : _) → ((outside_of self.new).slot n).faults ≡ ((outside_of self.old).slot n).faults }
        ensures most { (memory_of self.new).most ≡ (memory_of self.old).most }
    {
        self.begun = 0;
        self.reads_from = no_names();
        self.writes_to = no_names();
        self.uses = FRESH;
        self.last = [LastRead::Fine; 9];
        self.finished = [false; 9];
        self.out.clear();
        self.refusals.clear();
    }
}

const FRESH: [Usage; 9] = [
    Usage::Unused,
    Usage::Unused,
    Usage::Unused,
    Usage::Unused,
    Usage::Unused,
    Usage::Unused,
    Usage::Unused,
    Usage::Unused,
    Usage::Output,
];
