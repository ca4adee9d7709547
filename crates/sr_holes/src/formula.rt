// The formula of the pigeonhole principle, clause after clause.
ghost use Rattle.std.specs.Prelude.{◌≡◌, ◌+◌, ◌≤◌, ◌<◌, ◌++◌, length, map, flat_map, OnOk, IfOk};
ghost use Rattle.sr_base.specs.Literal.{number};
ghost use Rattle.sr_model.specs.Writing.{number_line, clause_lines, written_formula};
ghost use Rattle.sr_holes.specs.Holes.{from_to, in_some_hole, not_both, not_with_later, at_most_one, pigeonhole_formula};
ghost use Rattle.sr_holes.specs.Places.{IsPlace, header};

use crate::literals::{MOST_HOLES, put_in_hole, put_not_in_hole};
use sr_base::{ByteList, Form, NoMemory};
use sr_scan::{put_end, put_number_text};
use std::alloc::Global;

/// Adds the clause that a pigeon sits in a hole.
fn put_some_hole(out: &mut ByteList, holes: u32, pigeon: u32) -> Result<(), NoMemory>
    requires most { holes ≤ MOST_HOLES }
    requires first { 1 ≤ pigeon }
    requires last { pigeon ≤ holes + 1 }
    ensures { OnOk result (out.new ≡ out.old ++ number_line (map number (in_some_hole holes pigeon))) }
{
    for hole in 1..holes + 1 {
        put_in_hole(out, holes, pigeon, hole)?;
    }
    put_end(Form::Text, out)
}

/// Adds the clauses that each pigeon sits in a hole.
fn put_pigeons(out: &mut ByteList, holes: u32) -> Result<(), NoMemory>
    requires { holes ≤ MOST_HOLES }
    ensures { OnOk result (out.new ≡ out.old ++ clause_lines (map (in_some_hole holes) (from_to 1 (holes + 1)))) }
{
    for pigeon in 1..holes + 2 {
        put_some_hole(out, holes, pigeon)?;
    }
    Ok(())
}

/// Adds the clause that two pigeons don't both sit in a hole.
fn put_not_both(
    out: &mut ByteList,
    holes: u32,
    hole: u32,
    pigeon: u32,
    other: u32,
) -> Result<(), NoMemory>
    requires place { IsPlace holes pigeon hole }
    requires other { IsPlace holes other hole }
    ensures { OnOk result (out.new ≡ out.old ++ number_line (map number (not_both holes hole pigeon other))) }
{
    put_not_in_hole(out, holes, pigeon, hole)?;
    put_not_in_hole(out, holes, other, hole)?;
    put_end(Form::Text, out)
}

/// Adds the clauses that a pigeon doesn't share a hole with a later one.
fn put_not_with_later(
    out: &mut ByteList,
    holes: u32,
    hole: u32,
    pigeon: u32,
) -> Result<(), NoMemory>
    requires { IsPlace holes pigeon hole }
    ensures { OnOk result (out.new ≡ out.old ++ clause_lines (not_with_later holes hole pigeon)) }
{
    for other in pigeon + 1..holes + 2 {
        put_not_both(out, holes, hole, pigeon, other)?;
    }
    Ok(())
}

/// Adds the clauses that no two pigeons sit in a hole.
fn put_at_most_one(out: &mut ByteList, holes: u32, hole: u32) -> Result<(), NoMemory>
    requires most { holes ≤ MOST_HOLES }
    requires first { 1 ≤ hole }
    requires last { hole ≤ holes }
    ensures { OnOk result (out.new ≡ out.old ++ clause_lines (at_most_one holes hole)) }
{
    for pigeon in 1..holes + 1 {
        put_not_with_later(out, holes, hole, pigeon)?;
    }
    Ok(())
}

/// Adds the clauses that no two pigeons sit in the same hole.
fn put_holes(out: &mut ByteList, holes: u32) -> Result<(), NoMemory>
    requires { holes ≤ MOST_HOLES }
    ensures { OnOk result (out.new ≡ out.old ++ clause_lines (flat_map (at_most_one holes) (from_to 1 holes))) }
{
    for hole in 1..holes + 1 {
        put_at_most_one(out, holes, hole)?;
    }
    Ok(())
}

/// How many clauses the formula has.
fn clause_count(holes: u32) -> u32
    requires { holes ≤ MOST_HOLES }
    ensures { result ≡ length (pigeonhole_formula holes).clauses }
{
    let pairs = holes * (holes + 1) / 2;
    holes + 1 + holes * pairs
}

/// Adds the line with the numbers of variables and of clauses.
fn put_header(out: &mut ByteList, vars: u32, count: u32) -> Result<(), NoMemory>
    ensures { OnOk result (out.new ≡ out.old ++ header vars count) }
{
    out.extend(b"p cnf ")?;
    put_number_text(out, i64::from(vars))?;
    out.push(b' ')?;
    put_number_text(out, i64::from(count))?;
    out.push(b'\n')
}

/// The text of the formula that n + 1 pigeons sit in n holes, no two in the same one, in the DIMACS CNF format.
///
/// The holes are numbered from 1 on, and so are the pigeons. The variable (p - 1) n + h is true where pigeon p sits in hole h.
/// First each pigeon has a clause with all of its holes; then each hole has a clause for each two pigeons. The one error is want
/// of memory.
pub fn holes_formula(alloc: Global, holes: u32) -> Result<ByteList, NoMemory>
    requires low { 2 ≤ holes }
    requires high { holes ≤ MOST_HOLES }
    ensures { IfOk result (λ bytes. bytes ≡ written_formula (pigeonhole_formula holes)) }
{
    let mut out = ByteList::new(alloc);
    put_header(&mut out, holes * (holes + 1), clause_count(holes))?;
    put_pigeons(&mut out, holes)?;
    put_holes(&mut out, holes)?;
    Ok(out)
}
