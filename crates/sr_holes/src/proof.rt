// The proof of the pigeonhole principle by swaps, line after line.
ghost use Rattle.std.specs.Prelude.{◌≡◌, ◌+◌, ◌-◌, ◌≤◌, ◌++◌, ◌∷◌, [], map, OnOk, IfOk};
ghost use Rattle.sr_model.specs.Writing.{flat, written_line, written_lines};
ghost use Rattle.sr_scan.specs.Written.{written_literals};
ghost use Rattle.sr_holes.specs.Holes.{in_hole, from_to, exchange, swap, swap_line, unit_line, lines_at, pigeonhole_proof};
ghost use Rattle.sr_holes.specs.Places.{IsPlace, taken_over};

use crate::literals::{MOST_HOLES, put_in_hole, put_not_in_hole};
use sr_base::{ByteList, Form, NoMemory};
use sr_scan::put_end;
use std::alloc::Global;

/// Adds the map from the literal that one pigeon sits in a hole to that of another.
fn put_map(out: &mut ByteList, holes: u32, from: u32, to: u32, hole: u32) -> Result<(), NoMemory>
    requires from { IsPlace holes from hole }
    requires to { IsPlace holes to hole }
    ensures { OnOk result (out.new ≡ out.old ++ written_literals Form.Text (in_hole holes from hole ∷ in_hole holes to hole ∷ [])) }
{
    put_in_hole(out, holes, from, hole)?;
    put_in_hole(out, holes, to, hole)
}

/// Adds the maps that exchange two pigeons in a hole.
fn put_exchange(
    out: &mut ByteList,
    holes: u32,
    pigeon: u32,
    other: u32,
    hole: u32,
) -> Result<(), NoMemory>
    requires place { IsPlace holes pigeon hole }
    requires other { IsPlace holes other hole }
    ensures { OnOk result (out.new ≡ out.old ++ written_literals Form.Text (flat (exchange holes pigeon other hole))) }
{
    put_map(out, holes, pigeon, other, hole)?;
    put_map(out, holes, other, pigeon, hole)
}

/// Adds the swap of a pigeon with the last one that is left at a hole, in the holes below.
fn put_swap(out: &mut ByteList, holes: u32, hole: u32, pigeon: u32) -> Result<(), NoMemory>
    requires place { IsPlace holes pigeon hole }
    ensures { OnOk result (out.new ≡ out.old ++ written_literals Form.Text (flat (swap holes pigeon (hole + 1) (hole - 1)))) }
{
    for below in 1..hole {
        put_exchange(out, holes, pigeon, hole + 1, below)?;
    }
    Ok(())
}

/// Adds the literals that a pigeon doesn't sit in a hole, and that the last one that is left there does.
fn put_taken_over(out: &mut ByteList, holes: u32, hole: u32, pigeon: u32) -> Result<(), NoMemory>
    requires { IsPlace holes pigeon hole }
    ensures { OnOk result (out.new ≡ out.old ++ written_literals Form.Text (taken_over holes hole pigeon)) }
{
    put_not_in_hole(out, holes, pigeon, hole)?;
    put_in_hole(out, holes, hole + 1, hole)
}

/// Adds the lemma that where a pigeon sits in a hole, the last one that is left there does, with the swap as its witness.
fn put_swap_line(out: &mut ByteList, holes: u32, hole: u32, pigeon: u32) -> Result<(), NoMemory>
    requires place { IsPlace holes pigeon hole }
    requires second { 2 ≤ hole }
    ensures { OnOk result (out.new ≡ out.old ++ written_line Form.Text (swap_line holes hole pigeon)) }
{
    put_taken_over(out, holes, hole, pigeon)?;
    put_taken_over(out, holes, hole, pigeon)?;
    put_not_in_hole(out, holes, pigeon, hole)?;
    put_swap(out, holes, hole, pigeon)?;
    put_end(Form::Text, out)
}

/// Adds the lemma that a pigeon doesn't sit in a hole.
fn put_unit_line(out: &mut ByteList, holes: u32, hole: u32, pigeon: u32) -> Result<(), NoMemory>
    requires { IsPlace holes pigeon hole }
    ensures { OnOk result (out.new ≡ out.old ++ written_line Form.Text (unit_line holes hole pigeon)) }
{
    put_not_in_hole(out, holes, pigeon, hole)?;
    put_end(Form::Text, out)
}

/// Adds the lemmas with swaps at a hole, one for each pigeon that is left but the last.
fn put_swap_lines(out: &mut ByteList, holes: u32, hole: u32) -> Result<(), NoMemory>
    requires few { holes ≤ MOST_HOLES }
    requires second { 2 ≤ hole }
    requires last { hole ≤ holes }
    ensures { OnOk result (out.new ≡ out.old ++ written_lines Form.Text (map (swap_line holes hole) (from_to 1 hole))) }
{
    for pigeon in 1..hole + 1 {
        put_swap_line(out, holes, hole, pigeon)?;
    }
    Ok(())
}

/// Adds the lemmas that these pigeons don't sit in the hole.
fn put_unit_lines(out: &mut ByteList, holes: u32, hole: u32) -> Result<(), NoMemory>
    requires few { holes ≤ MOST_HOLES }
    requires last { hole ≤ holes }
    ensures { OnOk result (out.new ≡ out.old ++ written_lines Form.Text (map (unit_line holes hole) (from_to 1 hole))) }
{
    for pigeon in 1..hole + 1 {
        put_unit_line(out, holes, hole, pigeon)?;
    }
    Ok(())
}

/// Adds the lemmas after which a hole is left to one pigeon.
fn put_lines_at(out: &mut ByteList, holes: u32, hole: u32) -> Result<(), NoMemory>
    requires few { holes ≤ MOST_HOLES }
    requires second { 2 ≤ hole }
    requires last { hole ≤ holes }
    ensures { OnOk result (out.new ≡ out.old ++ written_lines Form.Text (lines_at holes hole)) }
{
    put_swap_lines(out, holes, hole)?;
    put_unit_lines(out, holes, hole)
}

/// The text of a proof that the formula of [`holes_formula`](crate::holes_formula) has no solution: lemmas of which half have
/// witnesses that swap two pigeons, from the last hole down to the second. The one error is want of memory.
pub fn holes_proof(alloc: Global, holes: u32) -> Result<ByteList, NoMemory>
    requires low { 2 ≤ holes }
    requires high { holes ≤ MOST_HOLES }
    ensures { IfOk result (λ bytes. bytes ≡ written_lines Form.Text (pigeonhole_proof holes)) }
{
    let mut out = ByteList::new(alloc);
    for hole in (2..holes + 1).rev() {
        put_lines_at(&mut out, holes, hole)?;
    }
    Ok(out)
}
