// Items, written.
ghost use Rattle.std.specs.Prelude.{◌≡◌, ◌∷◌, ◌++◌, [], pos, map, All, OnOk, IfOk};
ghost use Rattle.sr_model.specs.Judging.{stepped, dropped};
ghost use Rattle.sr_model.specs.Writing.{groups_written, step_numbers, written_item};
ghost use Rattle.sr_wit.specs.LsrItems.{item_of};
ghost use Rattle.sr_scan.specs.Written.{written_numbers};
ghost use Rattle.sr_lsr.specs.Written.{IsSmall, IsSmallGroup, IsSmallStep, IsSmallItem, step_start, drop_start};

use sr_base::{ByteList, Form, NoMemory};
use sr_lemma::put_clause;
use sr_scan::{put_end, put_number};
use sr_wit::{GroupList, LsrItem, Step};
use std::alloc::Global;

/// So many bytes are taken at once: few items are longer.
const ROOM: usize = 128;

fn put_ids(form: Form, out: &mut ByteList, ids: &[u32]) -> Result<(), NoMemory>
    requires { All IsSmall ids.now }
    ensures { OnOk result (out.new ≡ out.old ++ written_numbers form (map pos ids.now)) }
{
    for id in ids {
        put_number(form, out, i64::from(*id))?;
    }
    Ok(())
}

/// A group is the number of its clause, negative, and its hints.
fn put_group(form: Form, out: &mut ByteList, id: u32, hints: &[u32]) -> Result<(), NoMemory>
    requires { IsSmallGroup (id, hints.now) }
    ensures { OnOk result (out.new ≡ out.old ++ written_numbers form (groups_written ((id, hints.now) ∷ []))) }
{
    put_number(form, out, -i64::from(id))?;
    put_ids(form, out, hints)
}

fn put_groups(form: Form, out: &mut ByteList, groups: &GroupList) -> Result<(), NoMemory>
    requires { All IsSmallGroup groups.now }
    ensures { OnOk result (out.new ≡ out.old ++ written_numbers form (groups_written groups.now)) }
{
    for i in 0..groups.len() {
        put_group(form, out, groups.id(i), groups.hints(i))?;
    }
    Ok(())
}

/// The numbers of a step, up to its last `0`.
fn put_step(form: Form, out: &mut ByteList, step: &Step) -> Result<(), NoMemory>
    requires { IsSmallStep step.now }
    ensures { OnOk result (out.new ≡ out.old ++ written_numbers form (pos step.now.id ∷ step_numbers step.now)) }
{
    put_number(form, out, i64::from(step.id()))?;
    put_clause(form, out, step.clause().lits(), step.witness())?;
    put_number(form, out, 0)?;
    put_ids(form, out, step.prefix().as_slice())?;
    put_groups(form, out, step.groups())
}

/// In binary the byte `61` (hexadecimal) tells a step.
fn put_step_start(form: Form, out: &mut ByteList) -> Result<(), NoMemory>
    ensures { OnOk result (out.new ≡ out.old ++ step_start form) }
{
    match form {
        Form::Text => Ok(()),
        Form::Binary => out.push(b'a'),
    }
}

/// In text a number and `d` tell a deletion, and in binary the byte `64` (hexadecimal).
fn put_drop_start(form: Form, out: &mut ByteList, id: u32) -> Result<(), NoMemory>
    requires { IsSmall id }
    ensures { OnOk result (out.new ≡ out.old ++ drop_start form id) }
{
    match form {
        Form::Text => {
            put_number(form, out, i64::from(id))?;
            out.push(b'd')?;
            out.push(b' ')
        }
        Form::Binary => out.push(b'd'),
    }
}

fn step_bytes(alloc: Global, form: Form, step: &Step) -> Result<ByteList, NoMemory>
    requires { IsSmallStep step.now }
    ensures { IfOk result (λ bytes. bytes ≡ written_item form (stepped step.now)) }
{
    let mut out = ByteList::with_capacity(alloc, ROOM)?;
    put_step_start(form, &mut out)?;
    put_step(form, &mut out, step)?;
    put_end(form, &mut out)?;
    Ok(out)
}

fn drop_bytes(alloc: Global, form: Form, id: u32, ids: &[u32]) -> Result<ByteList, NoMemory>
    requires id { IsSmall id }
    requires ids { All IsSmall ids.now }
    ensures { IfOk result (λ bytes. bytes ≡ written_item form (dropped id ids.now)) }
{
    let mut out = ByteList::with_capacity(alloc, ROOM)?;
    put_drop_start(form, &mut out, id)?;
    put_ids(form, &mut out, ids)?;
    put_end(form, &mut out)?;
    Ok(out)
}

/// The bytes of an item.
///
/// In text a step is its number, its literals with those of its witness and `0`, its prefix, each group as
/// the number of its clause, negative, and its hints, and `0`; a deletion is its number, `d`, the numbers and
/// `0`. They are parted by spaces, with a line feed at the end. In binary the same numbers stand behind the
/// byte `61` or `64` (hexadecimal), each in its shortest spelling, and a deletion has no number of its own.
/// The one error is want of memory.
pub fn item_bytes(alloc: Global, form: Form, item: &LsrItem) -> Result<ByteList, NoMemory>
    requires { IsSmallItem (item_of item.now) }
    ensures { IfOk result (λ bytes. bytes ≡ written_item form (item_of item.now)) }
{
    match item {
        LsrItem::Step(step) => step_bytes(alloc, form, step),
        LsrItem::Drop { id, ids } => drop_bytes(alloc, form, *id, ids.as_slice()),
    }
}
