// A trimmed proof, written.
ghost use Rattle.std.specs.Prelude.{◌≡◌, ◌≤◌, List, length, IsTrue, IfOk};
ghost use Rattle.sr_model.specs.Meeting.{Step};
ghost use Rattle.sr_model.specs.Writing.{written_items};
ghost use Rattle.sr_trimming.specs.From.{AreFrom};
ghost use Rattle.sr_trimming.specs.Backward.{AreLinked};
ghost use Rattle.sr_trimming.specs.Trimmed.{LeanByNeed};
ghost use Rattle.sr_trimming.specs.Placing.{placed};
ghost use Rattle.sr_trimming.specs.Reordered.{AreStepsRewritten};
ghost use Rattle.sr_load.specs.Loaded.{all_lines, all_in, next_of};
ghost use Rattle.sr_desk.specs.Outside.{OnlyWrites, HasCause, can_write};
ghost use Rattle.sr_placing.specs.Placing.{steps_of, placing_of};
ghost use Rattle.sr_placing.specs.Counting.{counted};
ghost use Rattle.sr_placing.specs.Sinking.{SendsAll};

use crate::buffer::Buffer;
use crate::bytes::Bytes;
use crate::length::Length;
use crate::placing::Placing;
use crate::sink::Sink;
use crate::step::{put_deletion, put_last, put_step};
use sr_base::{ByteList, Form, NoMemory};
use sr_desk::{CallError, Desk, Slot};
use sr_load::Loaded;
use sr_steps::StepTable;
use std::alloc::Global;

/// The trimmed proof: first the deletion of the formula's clauses that aren't cited, then the steps, each but the last with the
/// deletion of what it is the last to cite. A step's clause has its pivot first.
fn put_lsr<L: Loaded, O, S: Sink<O>>(
    form: Form,
    sink: &mut S,
    out: &mut O,
    loaded: &L,
    steps: &StepTable,
    placing: &Placing,
)
    requires can { S.can_put sink.old out.old }
    requires linked { AreLinked (length (L.state loaded.now).formula.clauses) (steps_of (L.state loaded.now) steps.now) }
    requires from { AreFrom (L.state loaded.now).formula.clauses (all_lines (L.state loaded.now)) (steps_of (L.state loaded.now) steps.now) }
    requires lean { LeanByNeed (all_in (L.state loaded.now)) (steps_of (L.state loaded.now) steps.now) }
    requires small { next_of (L.state loaded.now) ≤ 2147483647 }
    requires placed { placing.now ≡ placing_of (L.state loaded.now).formula.clauses (steps_of (L.state loaded.now) steps.now) }
    ensures { (ts : List Step) × AreStepsRewritten (steps_of (L.state loaded.now) steps.now) ts
        × S.puts sink.old out.old sink.new out.new (written_items form (placed (L.state loaded.now).formula.clauses ts)) }
{
    put_deletion(form, sink, out, loaded.formula().count(), placing.uncited());
    let last = steps.len() - 1;
    for i in 0..last {
        put_step(form, sink, out, loaded, steps, i);
        put_deletion(form, sink, out, steps.id(i), placing.drops(i));
    }
    put_last(form, sink, out, steps, last);
}

/// The length of the trimmed proof in bytes; it stays at 2^64 - 1 once it is there. It takes no memory.
pub fn lsr_length<L: Loaded>(form: Form, loaded: &L, steps: &StepTable, placing: &Placing) -> u64
    requires linked { AreLinked (length (L.state loaded.now).formula.clauses) (steps_of (L.state loaded.now) steps.now) }
    requires from { AreFrom (L.state loaded.now).formula.clauses (all_lines (L.state loaded.now)) (steps_of (L.state loaded.now) steps.now) }
    requires lean { LeanByNeed (all_in (L.state loaded.now)) (steps_of (L.state loaded.now) steps.now) }
    requires small { next_of (L.state loaded.now) ≤ 2147483647 }
    requires placed { placing.now ≡ placing_of (L.state loaded.now).formula.clauses (steps_of (L.state loaded.now) steps.now) }
    ensures { (ts : List Step) → AreStepsRewritten (steps_of (L.state loaded.now) steps.now) ts
        → result ≡ counted (length (written_items form (placed (L.state loaded.now).formula.clauses ts))) }
{
    let mut length = Length::new();
    put_lsr(form, &mut length, &mut (), loaded, steps, placing);
    length.count()
}

/// The bytes of the trimmed proof.
pub fn lsr_bytes<L: Loaded>(
    alloc: Global,
    form: Form,
    loaded: &L,
    steps: &StepTable,
    placing: &Placing,
) -> Result<ByteList, NoMemory>
    requires linked { AreLinked (length (L.state loaded.now).formula.clauses) (steps_of (L.state loaded.now) steps.now) }
    requires from { AreFrom (L.state loaded.now).formula.clauses (all_lines (L.state loaded.now)) (steps_of (L.state loaded.now) steps.now) }
    requires lean { LeanByNeed (all_in (L.state loaded.now)) (steps_of (L.state loaded.now) steps.now) }
    requires small { next_of (L.state loaded.now) ≤ 2147483647 }
    requires placed { placing.now ≡ placing_of (L.state loaded.now).formula.clauses (steps_of (L.state loaded.now) steps.now) }
    ensures { IfOk result (λ bytes. (ts : List Step) × AreStepsRewritten (steps_of (L.state loaded.now) steps.now) ts
        × (bytes ≡ written_items form (placed (L.state loaded.now).formula.clauses ts))) }
{
    let mut bytes = Bytes::new(alloc);
    put_lsr(form, &mut bytes, &mut (), loaded, steps, placing);
    bytes.into_list()
}

/// Writes the trimmed proof to a slot. No memory is taken.
///
/// # Errors
///
/// [`CallError`] where a call failed. A prefix of the proof was sent then.
pub fn write_lsr<L: Loaded, D: Desk>(
    form: Form,
    loaded: &L,
    steps: &StepTable,
    placing: &Placing,
    buffer: &mut Buffer,
    desk: &mut D,
    slot: Slot,
) -> Result<(), CallError>
    requires can { IsTrue (can_write (D.outside desk.old) slot.number) }
    requires linked { AreLinked (length (L.state loaded.now).formula.clauses) (steps_of (L.state loaded.now) steps.now) }
    requires from { AreFrom (L.state loaded.now).formula.clauses (all_lines (L.state loaded.now)) (steps_of (L.state loaded.now) steps.now) }
    requires lean { LeanByNeed (all_in (L.state loaded.now)) (steps_of (L.state loaded.now) steps.now) }
    requires small { next_of (L.state loaded.now) ≤ 2147483647 }
    requires placed { placing.now ≡ placing_of (L.state loaded.now).formula.clauses (steps_of (L.state loaded.now) steps.now) }
    ensures sends { (ts : List Step) × AreStepsRewritten (steps_of (L.state loaded.now) steps.now) ts
        × SendsAll slot.number (D.outside desk.old) (D.outside desk.new) (written_items form (placed (L.state loaded.now).formula.clauses ts)) result }
    ensures only { OnlyWrites slot.number (D.outside desk.old) (D.outside desk.new) }
    ensures cause { HasCause slot.number (D.outside desk.old) (D.outside desk.new) result }
{
    buffer.begin(slot);
    put_lsr(form, buffer, desk, loaded, steps, placing);
    buffer.end(desk)
}
