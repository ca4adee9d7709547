// Real files and standard output.
ghost use Rattle.std.specs.Prelude.{◌≡◌, ◌<◌, ◌≤◌, ◌++◌, List, ℕ, length, take, [], ◌∷◌, IfSome, IsNone, IsTrue};
ghost use Rattle.sr_desk.specs.Outside.{StaysKnown};
ghost use Rattle.sr_desk.specs.Calls.{Moves, Grows};
ghost use Rattle.sr_desk.specs.Host.{host_outside, left_in, held_in, no_targets, IsUnused};

use crate::history::History;
use crate::last_read::{LastRead, after_read};
use crate::opening::{create_named, open_named};
use crate::steps::raise;
use crate::target::Target;
use crate::{CallError, Desk, FileName, Slot, no_names};
use std::io::{self, Read, Write};
use std::rt::Runtime;

/// Real files and standard output, through the runtime.
///
/// Contracts see the names that files were begun with, the bytes that were read and written, and what
/// the runtime's files tell beside them. The files of the system tell nothing: that a call opens the
/// file that it names, and that files hand out what they hold, and hold what they take, is trusted.
#[derive(Drop)]
pub struct HostDesk<R: Runtime> {
    rt: R,
    sources: [Option<R::File>; 9],
    targets: [Target<R::File>; 9],
    begun: u8,
    reads_from: [FileName; 9],
    writes_to: [FileName; 9],
    reads: [bool; 9],
    writes: [bool; 9],
    finished: [bool; 9],
    last: [LastRead; 9],
    faults: [u64; 9],
    given: [History; 9],
    sent: [History; 9],
}

impl<R: Runtime> HostDesk<R> {
    pub fn new(rt: R) -> HostDesk<R>
        ensures { IsUnused (⟦<HostDesk<R> as Desk>⟧.outside result) }
    {
        HostDesk {
            rt,
            sources: [None, None, None, None, None, None, None, None, None],
            targets: targets(),
            begun: 0,
            reads_from: no_names(),
            writes_to: no_names(),
            reads: [false; 9],
            writes: [false; 9],
            finished: [false; 9],
            last: [LastRead::Fine; 9],
            faults: [0; 9],
            given: no_bytes(),
            sent: no_bytes(),
        }
    }
}

impl<R: Runtime> Desk for HostDesk<R> {
    ghost outside = { λ d. host_outside R.File.remaining R.File.contents record {
      begun = d.begun;
      reads_from = d.reads_from;
      writes_to = d.writes_to;
      reads = d.reads;
      writes = d.writes;
      finished = d.finished;
      last = d.last;
      faults = d.faults;
      given = d.given;
      sent = d.sent;
      sources = d.sources;
      targets = d.targets;
    } };

    fn begin_read(&mut self, name: &str) -> Result<Slot, CallError> {
        let slot = Slot { number: self.begun };
        let n = slot.number as usize;
        self.begun += 1;
        self.given[n] = History::new();
        let opening = open_named(&self.rt, name);
        self.reads_from[n] = opening.name;
        match opening.file {
            Some(file) => {
                self.sources[n] = Some(file);
                self.reads[n] = true;
                self.last[n] = LastRead::Fine;
                Ok(slot)
            }
            None => {
                self.last[n] = LastRead::Failed;
                Err(raise(&mut self.faults, slot))
            }
        }
    }

    fn begin_write(&mut self, name: &str) -> Result<Slot, CallError> {
        let slot = Slot { number: self.begun };
        let n = slot.number as usize;
        self.begun += 1;
        let opening = create_named(&self.rt, name);
        self.writes_to[n] = opening.name;
        match opening.file {
            Some(file) => {
                self.targets[n] = Target::File(file);
                self.writes[n] = true;
                self.finished[n] = false;
                self.sent[n] = History::new();
                Ok(slot)
            }
            None => Err(raise(&mut self.faults, slot)),
        }
    }

    fn read(&mut self, slot: Slot, buf: &mut [u8]) -> Result<usize, CallError> {
        let n = slot.number as usize;
        match read_from(&mut self.sources[n], buf) {
            Some(count) => {
                self.given[n].add(&buf[..count]);
                self.last[n] = after_read(count, buf);
                Ok(count)
            }
            None => {
                self.last[n] = LastRead::Failed;
                Err(raise(&mut self.faults, slot))
            }
        }
    }

    fn write(&mut self, slot: Slot, piece: &[u8]) -> Result<usize, CallError> {
        let n = slot.number as usize;
        self.finished[n] = false;
        match write_to(&mut self.targets[n], &self.rt, piece) {
            Some(count) => {
                self.sent[n].add(&piece[..count]);
                Ok(count)
            }
            None => Err(raise(&mut self.faults, slot)),
        }
    }

    fn finish(&mut self, slot: Slot) -> Result<(), CallError> {
        let n = slot.number as usize;
        if !flush(&mut self.targets[n], &self.rt) {
            return Err(raise(&mut self.faults, slot));
        }
        self.finished[n] = true;
        Ok(())
    }
}

fn targets<F>() -> [Target<F>; 9]
    ensures { result ≡ no_targets }
{
    [
        Target::Nothing,
        Target::Nothing,
        Target::Nothing,
        Target::Nothing,
        Target::Nothing,
        Target::Nothing,
        Target::Nothing,
        Target::Nothing,
        Target::Output,
    ]
}

fn no_bytes() -> [History; 9]
    ensures { result ≡ [] ∷ [] ∷ [] ∷ [] ∷ [] ∷ [] ∷ [] ∷ [] ∷ [] ∷ [] }
{
    [
        History::new(),
        History::new(),
        History::new(),
        History::new(),
        History::new(),
        History::new(),
        History::new(),
        History::new(),
        History::new(),
    ]
}

/// How many bytes a file gave, or none where it failed.
fn read_from<F: Read>(file: &mut Option<F>, buf: &mut [u8]) -> Option<usize>
    ensures within { IfSome result (λ n. n ≤ length buf.new) }
    ensures some { IfSome result (λ n. Moves (left_in F.remaining file.old) (left_in F.remaining file.new) n buf.new) }
    ensures none { IsNone result → StaysKnown (left_in F.remaining file.old) (left_in F.remaining file.new) }
{
    match file {
        Some(open) => open.read(buf).ok(),
        None => None,
    }
}

/// How many bytes were taken, at least one of a piece that isn't empty, or none where it failed.
fn write_to<R: Print, F: Write>(target: &mut Target<F>, rt: &R, piece: &[u8]) -> Option<usize>
    ensures within { IfSome result (λ n. n ≤ length piece.now) }
    ensures some { IfSome result (λ n. 0 < length piece.now → 0 < n) }
    ensures told { IfSome result (λ n. Grows (held_in F.contents target.old) (held_in F.contents target.new) (take n piece.now)) }
    ensures none { IsNone result → StaysKnown (held_in F.contents target.old) (held_in F.contents target.new) }
{
    let result = match target {
        Target::File(open) => open.write(piece),
        Target::Output => io::writer(rt).write(piece),
        Target::Nothing => return None,
    };
    match result {
        Ok(count) if count > 0 || piece.is_empty() => Some(count),
        _ => None,
    }
}

fn flush<R: Print, F: Write>(target: &mut Target<F>, rt: &R) -> bool
    ensures { StaysKnown (held_in F.contents target.old) (held_in F.contents target.new) }
{
    match target {
        Target::File(open) => open.flush().is_ok(),
        Target::Output => io::writer(rt).flush().is_ok(),
        Target::Nothing => false,
    }
}
