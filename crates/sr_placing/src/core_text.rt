// The core, written.
ghost use Rattle.std.specs.Prelude.{◌≡◌, ◌<◌, ◌^◌, ◌++◌, List, All, length, map, decimal, IsTrue, IfOk};
ghost use Rattle.sr_base.specs.Literal.{number};
ghost use Rattle.sr_model.specs.Meeting.{Step};
ghost use Rattle.sr_model.specs.Writing.{number_line, written_formula, selected};
ghost use Rattle.sr_desk.specs.Outside.{OnlyWrites, HasCause, can_write};
ghost use Rattle.sr_trimming.specs.Citing.{core};
ghost use Rattle.sr_cnf.specs.Written.{IsNumberOf, header};
ghost use Rattle.sr_placing.specs.Placing.{placing_of};
ghost use Rattle.sr_placing.specs.Counting.{counted};
ghost use Rattle.sr_placing.specs.Sinking.{SendsAll};

use crate::buffer::Buffer;
use crate::bytes::Bytes;
use crate::length::Length;
use crate::placing::Placing;
use crate::sink::Sink;
use crate::spelling::{put_decimal, put_end};
use crate::step::put_literals;
use sr_base::{ByteList, ClauseId, Form, Lit, NoMemory};
use sr_desk::{CallError, Desk, Slot};
use sr_wit::Formula;
use std::alloc::Global;

/// The line with the numbers of variables and of clauses.
fn put_header<O, S: Sink<O>>(sink: &mut S, out: &mut O, vars: u32, count: usize)
    requires can { S.can_put sink.old out.old }
    requires few { count < 2 ^ 63 }
    ensures { S.puts sink.old out.old sink.new out.new (header vars count) }
{
    sink.put(out, b"p cnf ");
    put_decimal(sink, out, u64::from(vars));
    sink.put(out, b" ");
    put_decimal(sink, out, count as u64);
    sink.put(out, b"\n");
}

/// The line of a clause.
fn put_line<O, S: Sink<O>>(sink: &mut S, out: &mut O, lits: &[Lit])
    requires { S.can_put sink.old out.old }
    ensures { S.puts sink.old out.old sink.new out.new (number_line (map number lits.now)) }
{
    put_literals(Form::Text, sink, out, lits);
    put_end(Form::Text, sink, out);
}

/// The clauses of these numbers, as a formula over as many variables.
fn put_clauses<O, S: Sink<O>>(sink: &mut S, out: &mut O, formula: &Formula, ids: &[ClauseId])
    requires can { S.can_put sink.old out.old }
    requires numbers { All (IsNumberOf formula.now) ids.now }
    ensures { S.puts sink.old out.old sink.new out.new (written_formula (selected formula.now ids.now)) }
{
    put_header(sink, out, formula.vars(), ids.len());
    for id in ids {
        put_line(sink, out, formula.clause(*id));
    }
}

/// The core: the formula's clauses that the steps cite, as they stood, under the formula's number of variables.
fn put_core<O, S: Sink<O>>(sink: &mut S, out: &mut O, formula: &Formula, placing: &Placing)
    requires can { S.can_put sink.old out.old }
    requires placed { (ss : List Step) × (placing.now ≡ placing_of formula.now.clauses ss) }
    ensures { (ss : List Step) → placing.now ≡ placing_of formula.now.clauses ss
        → S.puts sink.old out.old sink.new out.new (written_formula (record { vars = formula.now.vars; clauses = core formula.now.clauses ss })) }
{
    put_clauses(sink, out, formula, placing.core());
}

/// The length of the core's text in bytes; it stays at 2^64 - 1 once it is there. It takes no memory.
pub fn core_length(formula: &Formula, placing: &Placing) -> u64
    requires { (ss : List Step) × (placing.now ≡ placing_of formula.now.clauses ss) }
    ensures { (ss : List Step) → placing.now ≡ placing_of formula.now.clauses ss
        → result ≡ counted (length (written_formula (record { vars = formula.now.vars; clauses = core formula.now.clauses ss }))) }
{
    let mut length = Length::new();
    put_core(&mut length, &mut (), formula, placing);
    length.count()
}

/// The text of the core.
pub fn core_bytes(alloc: Global, formula: &Formula, placing: &Placing) -> Result<ByteList, NoMemory>
    requires { (ss : List Step) × (placing.now ≡ placing_of formula.now.clauses ss) }
    ensures { (ss : List Step) → placing.now ≡ placing_of formula.now.clauses ss
        → IfOk result (λ bytes. bytes ≡ written_formula (record { vars = formula.now.vars; clauses = core formula.now.clauses ss })) }
{
    let mut bytes = Bytes::new(alloc);
    put_core(&mut bytes, &mut (), formula, placing);
    bytes.into_list()
}

/// Writes the core to a slot. No memory is taken.
///
/// # Errors
///
/// [`CallError`] where a call failed. A prefix of the text was sent then.
pub fn write_core<D: Desk>(
    formula: &Formula,
    placing: &Placing,
    buffer: &mut Buffer,
    desk: &mut D,
    slot: Slot,
) -> Result<(), CallError>
    requires can { IsTrue (can_write (D.outside desk.old) slot.number) }
    requires placed { (ss : List Step) × (placing.now ≡ placing_of formula.now.clauses ss) }
    ensures sends { (ss : List Step) → placing.now ≡ placing_of formula.now.clauses ss
        → SendsAll slot.number (D.outside desk.old) (D.outside desk.new) (written_formula (record { vars = formula.now.vars; clauses = core formula.now.clauses ss })) result }
    ensures only { OnlyWrites slot.number (D.outside desk.old) (D.outside desk.new) }
    ensures cause { HasCause slot.number (D.outside desk.old) (D.outside desk.new) result }
{
    buffer.begin(slot);
    put_core(buffer, desk, formula, placing);
    buffer.end(desk)
}
