// Writing a formula.
ghost use Rattle.std.specs.Prelude.{◌≡◌, ◌≤◌, ◌<◌, ◌^◌, ◌∷◌, ◌++◌, [], All, length, codes, decimal, map, OnOk, IfOk};
ghost use Rattle.sr_base.specs.Literal.{number};
ghost use Rattle.sr_model.specs.Writing.{number_line, written_formula, selected};
ghost use Rattle.sr_cnf.specs.Written.{IsNumberOf, header};

use sr_base::{ByteList, Form, Lit, NoMemory};
use sr_scan::{put_end, put_literals, put_number_text};
use sr_wit::Formula;
use std::alloc::Global;

/// Adds the line with the numbers of variables and of clauses.
fn put_header(out: &mut ByteList, vars: u32, count: usize) -> Result<(), NoMemory>
    requires { count < 2 ^ 63 }
    ensures { OnOk result (out.new ≡ out.old ++ header vars count) }
{
    out.extend(b"p cnf ")?;
    put_number_text(out, i64::from(vars))?;
    out.push(b' ')?;
    put_number_text(out, count as i64)?;
    out.push(b'\n')
}

/// Adds the line of a clause.
fn put_line(out: &mut ByteList, lits: &[Lit]) -> Result<(), NoMemory>
    ensures { OnOk result (out.new ≡ out.old ++ number_line (map number lits.now)) }
{
    put_literals(Form::Text, out, lits)?;
    put_end(Form::Text, out)
}

/// The text of the clauses of these numbers, in the DIMACS CNF format: `p cnf`, the formula's number of variables and
/// the number of clauses that are chosen; then a line for each of these, in the order of the numbers, with its literals
/// and `0` parted by single spaces. The one error is want of memory.
pub fn write_formula(alloc: Global, formula: &Formula, ids: &[u32]) -> Result<ByteList, NoMemory>
    requires { All (IsNumberOf formula.now) ids.now }
    ensures { IfOk result (λ bytes. bytes ≡ written_formula (selected formula.now ids.now)) }
{
    let mut out = ByteList::new(alloc);
    put_header(&mut out, formula.vars(), ids.len())?;
    for id in ids {
        put_line(&mut out, formula.clause(*id))?;
    }
    Ok(out)
}
