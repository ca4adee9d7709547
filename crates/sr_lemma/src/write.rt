// The numbers of items, written one after another.
ghost use Rattle.std.specs.Prelude.{◌≡◌, ◌≤◌, ◌∷◌, ◌++◌, [], Some, unsigned_abs, OnOk, OnErr};
ghost use Rattle.std.specs.Option.{option_copied};
ghost use Rattle.sr_model.specs.Writing.{flat, maps_written, witness_written, literals_written};
ghost use Rattle.sr_scan.specs.Written.{written_numbers, written_literals};

use sr_base::{ByteList, Form, Lit, NoMemory};
use sr_scan::{put_literal, put_literals};
use sr_wit::Subst;

fn put_pairs(form: Form, out: &mut ByteList, maps: &[(Lit, Lit)]) -> Result<(), NoMemory>
    ensures ok { OnOk result (out.new ≡ out.old ++ written_literals form (flat maps.now)) }
    ensures err { OnErr result (out.new ≡ out.old) }
{
    let before = out.as_slice().len();
    for map in maps {
        if put_pair(form, out, map.0, map.1).is_err() {
            out.truncate(before);
            return Err(NoMemory);
        }
    }
    Ok(())
}

fn put_pair(form: Form, out: &mut ByteList, from: Lit, to: Lit) -> Result<(), NoMemory>
    ensures ok { OnOk result (out.new ≡ out.old ++ written_literals form (from ∷ to ∷ [])) }
    ensures err { OnErr result (out.new ≡ out.old) }
{
    let before = out.as_slice().len();
    put_literal(form, out, from)?;
    if put_literal(form, out, to).is_err() {
        out.truncate(before);
        return Err(NoMemory);
    }
    Ok(())
}

/// Where there are maps, the pivot and these.
fn put_maps(form: Form, out: &mut ByteList, pivot: Lit, maps: &[(Lit, Lit)]) -> Result<(), NoMemory>
    ensures ok { OnOk result (out.new ≡ out.old ++ written_literals form (maps_written pivot maps.now)) }
    ensures err { OnErr result (out.new ≡ out.old) }
{
    if maps.is_empty() {
        return Ok(());
    }
    let before = out.as_slice().len();
    put_literal(form, out, pivot)?;
    if put_pairs(form, out, maps).is_err() {
        out.truncate(before);
        return Err(NoMemory);
    }
    Ok(())
}

/// The pivot and the other literals that become true.
fn put_trues(form: Form, out: &mut ByteList, pivot: Lit, assigned: &[Lit]) -> Result<(), NoMemory>
    ensures ok { OnOk result (out.new ≡ out.old ++ written_literals form (pivot ∷ assigned.now)) }
    ensures err { OnErr result (out.new ≡ out.old) }
{
    let before = out.as_slice().len();
    put_literal(form, out, pivot)?;
    if put_literals(form, out, assigned).is_err() {
        out.truncate(before);
        return Err(NoMemory);
    }
    Ok(())
}

fn put_witness(form: Form, out: &mut ByteList, witness: &Subst) -> Result<(), NoMemory>
    ensures ok { OnOk result (out.new ≡ out.old ++ written_literals form (witness_written (Some witness.now))) }
    ensures err { OnErr result (out.new ≡ out.old) }
{
    let before = out.as_slice().len();
    put_trues(form, out, witness.pivot(), witness.assigned())?;
    if put_maps(form, out, witness.pivot(), witness.maps()).is_err() {
        out.truncate(before);
        return Err(NoMemory);
    }
    Ok(())
}

/// Adds the literals of a clause, and with a witness those that it makes true, from the pivot on, and where
/// it has maps, the pivot again and these. Nothing was added where memory lacks.
pub fn put_clause(
    form: Form,
    out: &mut ByteList,
    clause: &[Lit],
    witness: Option<&Subst>,
) -> Result<(), NoMemory>
    ensures ok { OnOk result (out.new ≡ out.old ++ written_numbers form (literals_written clause.now (option_copied witness.entry))) }
    ensures err { OnErr result (out.new ≡ out.old) }
{
    let before = out.as_slice().len();
    put_literals(form, out, clause)?;
    let Some(witness) = witness else {
        return Ok(());
    };
    if put_witness(form, out, witness).is_err() {
        out.truncate(before);
        return Err(NoMemory);
    }
    Ok(())
}
