// Lines, written.
ghost use Rattle.std.specs.Prelude.{◌≡◌, ◌++◌, OnOk, IfOk};
ghost use Rattle.std.specs.Option.{option_copied};
ghost use Rattle.sr_model.specs.Writing.{literals_written, written_line};
ghost use Rattle.sr_lemma.specs.Lines.{line_of};
ghost use Rattle.sr_scan.specs.Written.{written_numbers, written_end};
ghost use Rattle.sr_dsr.specs.Written.{written_start};

use sr_base::{ByteList, Form, Lit, NoMemory};
use sr_lemma::{DsrLine, put_clause};
use sr_scan::put_end;
use sr_wit::Subst;
use std::alloc::Global;

/// Adds what stands at the begin of a line: in binary `61` (hexadecimal) for a lemma and `64` for a deletion,
/// in text `d` and a space for a deletion.
fn put_start(form: Form, out: &mut ByteList, is_deletion: bool) -> Result<(), NoMemory>
    ensures { OnOk result (out.new ≡ out.old ++ written_start form is_deletion) }
{
    match form {
        Form::Text => {
            if is_deletion {
                out.push(b'd')?;
                out.push(b' ')?;
            }
            Ok(())
        }
        Form::Binary => out.push(if is_deletion { b'd' } else { b'a' }),
    }
}

/// The bytes of a line of these parts.
fn parts_bytes(
    alloc: Global,
    form: Form,
    is_deletion: bool,
    clause: &[Lit],
    witness: Option<&Subst>,
) -> Result<ByteList, NoMemory>
    ensures { IfOk result
        (λ bytes. bytes ≡ written_start form is_deletion ++ written_numbers form (literals_written clause.now
        (option_copied witness.entry)) ++ written_end form) }
{
    let mut out = ByteList::new(alloc);
    put_start(form, &mut out, is_deletion)?;
    put_clause(form, &mut out, clause, witness)?;
    put_end(form, &mut out)?;
    Ok(out)
}

/// The bytes of a line.
///
/// In text: the literals, then with a witness the pivot and the other literals that it makes true, then
/// where it has maps the pivot again and each variable with its image, and `0`, parted by spaces and with a
/// line feed at the end. A deletion is `d`, the literals and `0`. In binary the same numbers stand behind
/// the byte `61` or `64`, each in its shortest spelling. The one error is want of memory.
pub fn line_bytes(alloc: Global, form: Form, line: &DsrLine) -> Result<ByteList, NoMemory>
    ensures { IfOk result (λ bytes. bytes ≡ written_line form (line_of line.now)) }
{
    match line {
        DsrLine::Add(lemma) => {
            parts_bytes(
                alloc,
                form,
                false,
                lemma.clause.lits(),
                lemma.witness.as_ref(),
            )
        }
        DsrLine::Del(clause) => parts_bytes(alloc, form, true, clause.lits(), None),
    }
}
