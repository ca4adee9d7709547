// A memory from end to end.
ghost use Rattle.std.specs.Prelude.{◌≡◌, true};
ghost use Rattle.sr_arena.specs.Cells.{IsHeld};

use crate::{ClauseMem, Cref, CrefMap, MOST_USED, Steps};
use sr_base::{AddError, Limits, Lit};
use std::marker::Brand;
use std::sync::ledger::{Blank, Ledger};
use std::test::Fail;

fn add(mem: &mut ClauseMem, a: i64, b: i64, number: u32) -> Result<Cref, Fail> {
    let a = Lit::new(a).ok_or("no literal")?;
    let b = Lit::new(b).ok_or("no literal")?;
    Ok(add_all(mem, &[a, b], number)?)
}

fn add_all(mem: &mut ClauseMem, lits: &[Lit], number: u32) -> Result<Cref, AddError> {
    if mem.used_cells() > MOST_USED {
        return Err(AddError::NoMemory);
    }
    mem.add(lits, number)
}

/// Whether a reference names a held clause: it is one of those that a walk comes to.
fn is_held(mem: &ClauseMem, at: Cref) -> bool
    ensures { result ≡ true → IsHeld mem.now at }
{
    let mut next = mem.next(None);
    while let Some(here) = next {
        if here == at {
            return true;
        }
        next = mem.next(next);
    }
    false
}

fn free(mem: &mut ClauseMem, at: Cref) {
    if is_held(mem, at) {
        mem.free(at);
    }
}

fn set_mark(mem: &mut ClauseMem, at: Cref) {
    if is_held(mem, at) {
        mem.set_mark(at, true);
    }
}

fn set_flag(mem: &mut ClauseMem, at: Cref) {
    if is_held(mem, at) {
        mem.set_flag(at, true);
    }
}

fn renumber(mem: &mut ClauseMem, at: Cref, number: u32) {
    if is_held(mem, at) {
        mem.set_number(at, number);
    }
}

/// What a memory tells of a clause: the numbers of its first two literals, its number, its mark and its flag.
type Told = (i64, i64, u32, bool, bool);

/// What is told of a clause; zeros where there is none.
fn told<L: Ledger>(mem: &ClauseMem, at: Option<Cref>, steps: &mut Steps<L>) -> Told {
    if let Some(at) = at {
        if is_held(mem, at) {
            let number = mem.number(at);
            let marked = mem.mark(at);
            let flagged = mem.flag(at);
            if let [a, b] = mem.lits(at, steps) {
                return (a.value(), b.value(), number, marked, flagged);
            }
        }
    }
    (0, 0, 0, false, false)
}

fn told_once<L: Ledger>(mem: &ClauseMem, at: Option<Cref>, blank: Blank) -> Told
    requires name { blank.name ≡ L.name }
    requires parts { blank.parts ≡ L.parts }
    requires one { blank.parts ≡ 1 }
{
    let mut steps = Steps::<L>::new(blank);
    told(mem, at, &mut steps)
}

fn read(mem: &ClauseMem, at: Option<Cref>) -> Told {
    told_once::<Brand>(mem, at, Blank::new(1))
}

#[test]
fn compaction_keeps_held_clauses(rt: HostRuntime) -> Result<(), Fail> {
    let mut mem = ClauseMem::new(rt.alloc(), &Limits::shipped());
    let front = add(&mut mem, 1, 2, 7)?;
    let middle = add(&mut mem, -1, 3, 8)?;
    let back = add(&mut mem, -2, -3, 9)?;
    set_mark(&mut mem, back);
    set_flag(&mut mem, front);
    renumber(&mut mem, back, 4_294_967_295);
    assert_eq!(rt; (mem.held_cells(), mem.used_cells()), (18, 18));
    free(&mut mem, middle);
    assert_eq!(rt; (mem.held_cells(), mem.used_cells()), (12, 18));
    assert_eq!(rt; mem.next(None), Some(front));
    let mut moved = CrefMap::new(rt.alloc());
    mem.compact(&mut moved)?;
    assert_eq!(rt; (mem.held_cells(), mem.used_cells()), (12, 12));
    assert_eq!(rt; moved.get(middle), None);
    assert_eq!(rt; read(&mem, moved.get(front)), (1, 2, 7, false, true));
    assert_eq!(rt;
        read(&mem, moved.get(back)),
        (-2, -3, 4_294_967_295, true, false)
    );
    Ok(())
}

#[test]
fn cells_are_limited(rt: HostRuntime) -> Result<(), Fail> {
    let limits = Limits::new(9, 9, 11, 9).ok_or("no limits")?;
    let mut mem = ClauseMem::new(rt.alloc(), &limits);
    let first = add(&mut mem, 1, 2, 1)?;
    let lit = Lit::new(3).ok_or("no literal")?;
    assert_eq!(rt; add_all(&mut mem, &[lit, lit], 2), Err(AddError::Cells));
    assert_eq!(rt; add_all(&mut mem, &[lit], 2).is_ok(), true);
    free(&mut mem, first);
    assert_eq!(rt; (mem.held_cells(), mem.used_cells()), (5, 11));
    Ok(())
}
