// Following hints (after LRAT): a hint names a clause all of whose literals but one are false, and the one that is left
// follows. One pass over the clause finds it, and ends early at a second one.
ghost use Rattle.std.specs.Prelude.{◌≡◌, ◌++◌, false, List, IfOk, IfSome, OnOk};
ghost use Rattle.std.specs.Option.{option_copied};
ghost use Rattle.sr_base.specs.Literal.{Literal, compl};
ghost use Rattle.sr_model.specs.Substitution.{has_pair};
ghost use Rattle.sr_model.specs.Chain.{clauses, open_literals, hint_of_clause, closes_before, chain};
ghost use Rattle.sr_check.specs.Trail.{CoversAll, CoversClauses};
ghost use Rattle.sr_check.specs.Ends.{open_end, hint_end, chain_end, first_clause, KeepsFront};

use crate::live::LiveClauses;
use crate::trail::Trail;
use sr_base::{Cause, Lit, NoMemory};

/// The literals of a clause that aren't false.
enum Open {
    Nothing,
    One(Lit),
    More,
}

/// What one hint does.
enum Hint {
    Closes,
    Adds(Lit),
    Misleads(Cause),
}

/// How a chain ends; where it is unclosed the literals are those of the trail.
#[derive(Clone, Copy)]
pub enum End {
    Closed,
    Unclosed,
    Faulty(Cause),
}

/// Assumes the complements of literals, and follows hints.
pub fn refute(
    strict: bool,
    live: &LiveClauses,
    trail: &mut Trail,
    lits: &[Lit],
    hints: &[u32],
) -> Result<End, NoMemory>
    requires { CoversClauses trail.old.room (clauses live.now) }
    ensures end { IfOk result (λ e. chain strict live.now (trail.old.lits ++ compl lits.now) hints.now ≡ chain_end e trail.new.lits) }
    ensures open { IfOk result (λ e. e ≡ End.Unclosed → has_pair trail.new.lits ≡ false) }
    ensures front { KeepsFront trail.old trail.new }
{
    assume(trail, lits)?;
    follow(strict, live, trail, hints)
}

/// Assumes the complements of literals.
pub fn assume(trail: &mut Trail, lits: &[Lit]) -> Result<(), NoMemory>
    ensures ok { OnOk result (trail.new.lits ≡ trail.old.lits ++ compl lits.now) }
    ensures front { KeepsFront trail.old trail.new }
{
    for l in lits {
        trail.add(l.neg())?;
    }
    Ok(())
}

/// Follows hints in order. Strict checking refuses a hint that stands after the conflict.
///
/// The next hint's clause is looked up before a clause is read, so that both wait for memory at once.
fn follow(
    strict: bool,
    live: &LiveClauses,
    trail: &mut Trail,
    hints: &[u32],
) -> Result<End, NoMemory>
    requires { CoversClauses trail.old.room (clauses live.now) }
    ensures end { IfOk result (λ e. chain strict live.now trail.old.lits hints.now ≡ chain_end e trail.new.lits) }
    ensures open { IfOk result (λ e. e ≡ End.Unclosed → has_pair trail.new.lits ≡ false) }
    ensures front { KeepsFront trail.old trail.new }
{
    if trail.has_pair() {
        return Ok(closed_before(strict, hints));
    }
    let mut ahead = first_clause(live, hints);
    for (i, number) in hints.iter().enumerate() {
        let clause = ahead;
        ahead = first_clause(live, &hints[i + 1..]);
        match follow_one(clause, trail, *number) {
            Hint::Closes => return Ok(closed_before(strict, &hints[i + 1..])),
            Hint::Adds(l) => trail.add(l)?,
            Hint::Misleads(cause) => return Ok(End::Faulty(cause)),
        }
    }
    Ok(End::Unclosed)
}

/// How a chain ends that closes with these hints left.
fn closed_before(strict: bool, left: &[u32]) -> End
    ensures { (b : List Literal) → closes_before strict left.now ≡ chain_end result b }
{
    match left {
        [next, ..] if strict => End::Faulty(Cause::HintAfter(*next)),
        _ => End::Closed,
    }
}

/// The clause that the first hint names.
#[inline(always)]
fn first_clause<'a>(live: &LiveClauses<'a>, hints: &[u32]) -> Option<&'a [Lit]>
    ensures { option_copied result ≡ first_clause live.now hints.now }
{
    match hints {
        [number, ..] => live.get(*number),
        [] => None,
    }
}

/// What a hint does that names this clause.
#[inline(always)]
fn follow_one(clause: Option<&[Lit]>, trail: &Trail, number: u32) -> Hint
    requires { IfSome clause (λ c. CoversAll trail.now.room c.now) }
    ensures { hint_end result ≡ hint_of_clause trail.now.lits number (option_copied clause.entry) }
{
    match clause {
        None => Hint::Misleads(Cause::DeadHint(number)),
        Some(lits) => match open_of(trail, lits) {
            Open::Nothing => Hint::Closes,
            Open::One(l) => Hint::Adds(l),
            Open::More => Hint::Misleads(Cause::NotUnit(number)),
        },
    }
}

/// The literals that aren't false.
#[inline]
fn open_of(trail: &Trail, lits: &[Lit]) -> Open
    requires { CoversAll trail.now.room lits.now }
    ensures { result ≡ open_end (open_literals trail.now.lits lits.now) }
{
    let mut found = None;
    for l in lits {
        if !trail.is_false(*l) {
            if found.is_some() {
                return Open::More;
            }
            found = Some(*l);
        }
    }
    match found {
        None => Open::Nothing,
        Some(l) => Open::One(l),
    }
}
