// A run of `check` on two files in memory, and what it is to answer.
ghost use Rattle.std.specs.Prelude.{◌≡◌, IfOk, OnOk};
ghost use Rattle.sr_desk.specs.MemoryView.{outside_of, memory_of};

use sr_base::Limits;
use sr_cli::run_with;
use sr_desk::MemoryDesk;
use std::alloc::Global;
use std::test::Fail;

/// Four clauses that allow none of the four assignments of two variables.
pub(crate) const FOUR: &str = "p cnf 2 4\n1 2 0\n-1 2 0\n1 -2 0\n-1 -2 0\n";
/// A proof of `FOUR`.
pub(crate) const FOUR_PROOF: &str = "5 2 0 1 2 0\n6 0 5 3 4 0\n";
/// A formula over six variables in which 1 and 2 differ, and the rest doesn't care which of them is true.
pub(crate) const SIX: &str =
    "p cnf 6 12\n1 2 0\n-1 -2 0\n-1 3 0\n-2 4 0\n-3 5 6 0\n-3 5 -6 0\n-3 -5 6 0\n-3 -5 -6 0\n-4 5 6 0\n-4 5 -6 0\n-4 -5 6 0\n-4 -5 -6 0\n";

/// The files `f` and `p`, further words of the command line, and the status and the report that they are to give.
#[derive(Clone, Copy)]
pub(crate) struct Case<'a> {
    pub formula: &'a str,
    pub proof: &'a str,
    pub more: &'a [&'a str],
    pub status: u8,
    pub report: &'a str,
}

impl<'a> Case<'a> {
    /// A run without further words.
    pub(crate) fn new(formula: &'a str, proof: &'a str, status: u8, report: &'a str) -> Case<'a> {
        Case {
            formula,
            proof,
            more: &[],
            status,
            report,
        }
    }

    /// A run on `FOUR`.
    pub(crate) fn four(proof: &'a str, status: u8, report: &'a str) -> Case<'a> {
        Case::new(FOUR, proof, status, report)
    }
}

/// A desk with the files `f` and `p`, which moves at most `piece` bytes at once.
pub(crate) fn desk_of(
    alloc: Global,
    formula: &str,
    proof: &str,
    piece: usize,
) -> Result<MemoryDesk, Fail>
    ensures { IfOk result (λ d. (outside_of d).begun ≡ 0) }
{
    let mut desk = MemoryDesk::new(alloc)?;
    desk.put_file("f", formula.as_bytes())?;
    desk.put_file("p", proof.as_bytes())?;
    desk.piece(piece);
    desk.restart();
    Ok(desk)
}

/// The status of a run of these words, where it printed the report.
pub(crate) fn status_of(
    alloc: Global,
    limits: &Limits,
    words: &[&str],
    desk: &mut MemoryDesk,
) -> Result<u8, Fail>
    requires { (outside_of desk.old).begun ≡ 0 }
{
    let mut list: Vec<String> = Vec::new(alloc);
    for word in words {
        list.push(String::from_str(alloc, word)?)?;
    }
    Ok(run_with(alloc, limits, list.as_slice(), desk).status())
}

/// The last line of a report that says why in the lines before it, which begin with `c `; nothing of another report.
pub(crate) fn last_line(report: &str) -> &str {
    let mut has_reason = false;
    let mut last = "";
    for line in report.split_inclusive('\n') {
        if !last.is_empty() {
            return "";
        }
        if line.starts_with("c ") {
            has_reason = true;
        } else {
            last = line;
        }
    }
    if has_reason { last } else { "" }
}

/// Whether a run with this status printed this: of a rejection or a refusal the last line, else all.
fn is_printed(status: u8, report: &str, printed: &str) -> bool {
    match status {
        1..=5 => last_line(printed) == report,
        _ => printed == report,
    }
}

/// Fails where the run doesn't end with this status, or doesn't print this report, before which reasons may stand.
pub(crate) fn wants(status: u8, report: &str, got: u8, printed: &[u8]) -> Result<(), Fail> {
    let printed = str::from_utf8(printed).unwrap_or("no UTF-8");
    if got == status && is_printed(status, report, printed) {
        return Ok(());
    }
    Err(Fail::new(format_args!(
        "status {got} and {printed:?}, where {status} and {report:?} is wanted"
    )))
}

/// Runs a case with reads of one byte, of a thousand, and of all that there is.
pub(crate) fn answers(alloc: Global, limits: &Limits, case: &Case<'_>) -> Result<(), Fail> {
    for piece in [1, 1000, usize::MAX] {
        let mut desk = desk_of(alloc, case.formula, case.proof, piece)?;
        let mut words: Vec<&str> = Vec::new(alloc);
        for word in ["check", "f", "p"] {
            words.push(word)?;
        }
        for word in case.more {
            words.push(word)?;
        }
        let status = status_of(alloc, limits, words.as_slice(), &mut desk)?;
        wants(case.status, case.report, status, desk.out_bytes())?;
    }
    Ok(())
}

/// Runs cases with the limits of the program.
pub(crate) fn all_answer(alloc: Global, cases: &[Case<'_>]) -> Result<(), Fail> {
    for case in cases {
        answers(alloc, &Limits::shipped(), case)?;
    }
    Ok(())
}
