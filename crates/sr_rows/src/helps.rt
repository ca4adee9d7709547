// What help shows, to the last byte.
use crate::case::status_of;
use sr_base::Limits;
use sr_desk::MemoryDesk;
use std::alloc::Global;
use std::test::Fail;

const GENERAL: [&str; 24] = [
    "sr checks proofs that SAT solvers write. Where it says \"s VERIFIED UNSAT\", no",
    "assignment satisfies the formula. trim checks a proof by lemmas, as solvers",
    "write it (DRAT, DPR or DSR), and writes what is needed of it as a proof with",
    "hints. check judges a proof with hints (LRAT or LSR). demo makes an example.",
    "",
    "sr check FORMULA PROOF [--strict] [--stats] [--proof-form text|binary]",
    "sr trim FORMULA PROOF [--lsr FILE] [--core FILE] [--keep-units] [--stats] [--proof-form text|binary] [--lsr-form text|binary]",
    "sr demo N [--formula FILE] [--proof FILE] [--lsr FILE] [--core FILE] [--stats]",
    "sr help COMMAND",
    "    says what a command does, and what its options mean",
    "sr --version",
    "    says which version of sr this is",
    "",
    "The status, and the last line of the report:",
    "  0  s VERIFIED UNSAT: no assignment satisfies the formula. Or help is shown",
    "  1  s REJECTED ..., s NO EMPTY CLAUSE: the proof is rejected",
    "  2  e usage ...: the words of the command line are refused",
    "  3  e text ...: a file isn't spelled as its format asks",
    "  4  e limit ...: a limit is passed",
    "  5  e source ...: a file can't be read",
    "  6  none, or cut short: a file or standard output can't be written",
    "  7  none: memory ran out",
    "  9  none: the words of the command line can't be had from the system",
    "Lines before the last one begin with c, and say what was counted, or why.",
];

const CHECK: [&str; 17] = [
    "sr check FORMULA PROOF [--strict] [--stats] [--proof-form text|binary]",
    "",
    "Judges a proof with hints, in LSR or LRAT, against a formula in DIMACS. It reads",
    "the proof up to the first step with the empty clause. FORMULA or PROOF may be a",
    "pipe, such as /dev/stdin.",
    "",
    "--strict             also refuses hints after the conflict, groups that no",
    "                     clause needs, groups that come twice, and deletions of",
    "                     clauses that aren't live",
    "--stats              where the proof is verified, prints counts first: of the",
    "                     formula's clauses, and of the steps and hints that were",
    "                     judged",
    "--proof-form binary  the proof is in binary; else it is in text",
    "",
    "The status is 0 where the proof is verified: no assignment satisfies the",
    "formula. It is 1 where the proof is rejected, and more where nothing is known",
    "of it. sr help has the rest.",
];

const TRIM: [&str; 20] = [
    "sr trim FORMULA PROOF [--lsr FILE] [--core FILE] [--keep-units] [--stats] [--proof-form text|binary] [--lsr-form text|binary]",
    "",
    "Checks a proof by lemmas, in DRAT, DPR or DSR, against a formula in DIMACS, from",
    "the conflict back to the first line. It skips lemmas that nothing needs. FORMULA",
    "or PROOF may be a pipe, such as /dev/stdin.",
    "",
    "--lsr FILE           writes the trimmed proof there, with hints, in LSR",
    "--core FILE          writes the needed clauses of the formula there, in DIMACS",
    "--keep-units         passes over the deletion of a clause that has become a",
    "                     unit, as many DRAT checkers do",
    "--stats              where the proof is verified, prints counts first: of the",
    "                     formula's clauses, those of the core, the lemmas that were",
    "                     loaded, the steps and hints that are written, and the",
    "                     deletions that were passed over",
    "--proof-form binary  the proof is in binary; else it is in text",
    "--lsr-form binary    the trimmed proof is written in binary; else in text",
    "",
    "The status is 0 where the proof is verified: no assignment satisfies the",
    "formula. It is 1 where the proof is rejected, and more where nothing is known",
    "of it, or where a file can't be written. sr help has the rest.",
];

const DEMO: [&str; 14] = [
    "sr demo N [--formula FILE] [--proof FILE] [--lsr FILE] [--core FILE] [--stats]",
    "",
    "Makes the formula of the pigeonhole principle for N holes and its short proof by",
    "swaps of pigeons, and trims that proof. N is a number from 2 to 60.",
    "",
    "--formula FILE  writes the formula there, in DIMACS",
    "--proof FILE    writes the proof that is trimmed there, in DSR",
    "--lsr FILE      writes the trimmed proof there, with hints, in LSR",
    "--core FILE     writes the needed clauses of the formula there, in DIMACS",
    "--stats         prints all that trim counts; without it demo prints the holes,",
    "                the clauses and the lemmas",
    "",
    "The status is 0 where the proof is verified: no assignment satisfies the",
    "formula. sr help has the rest.",
];

const VERSION: [&str; 1] = ["sr 0.3.0"];

/// What stands after these lines.
fn after_lines<'a>(text: &'a str, lines: &[&str]) -> Option<&'a str> {
    let mut rest = text;
    for line in lines {
        rest = rest.strip_prefix(*line)?;
        rest = rest.strip_prefix('\n')?;
    }
    Some(rest)
}

/// Fails where one of these calls doesn't show these lines and nothing else, with the status 0.
fn shows(alloc: Global, calls: &[&[&str]], lines: &[&str]) -> Result<(), Fail> {
    for words in calls {
        let mut desk = MemoryDesk::new(alloc)?;
        let got = status_of(alloc, &Limits::shipped(), words, &mut desk)?;
        let printed = str::from_utf8(desk.out_bytes()).unwrap_or("no UTF-8");
        if got != 0 || after_lines(printed, lines) != Some("") {
            return Err(Fail::new(format_args!("status {got} and {printed:?}")));
        }
    }
    Ok(())
}

#[test]
fn help_is_shown_where_it_is_asked_for(rt: HostRuntime) -> Result<(), Fail> {
    let alloc = rt.alloc();
    let general: [&[&str]; 6] = [
        &["help"],
        &["help", "help"],
        &["--help"],
        &["-h"],
        &["--help", "check", "f", "p"],
        &["-h", "--other"],
    ];
    let check: [&[&str]; 5] = [
        &["help", "check"],
        &["check", "--help"],
        &["check", "f", "f", "--other", "-h"],
        &["check", "f", "p", "--proof-form", "--help"],
        &["check", "--", "-h"],
    ];
    let trim: [&[&str]; 3] = [
        &["help", "trim"],
        &["trim", "-h"],
        &["trim", "f", "p", "--lsr", "l", "--help"],
    ];
    let demo: [&[&str]; 3] = [
        &["help", "demo"],
        &["demo", "--help"],
        &["demo", "2", "-h", "--lsr", "l"],
    ];
    let version: [&[&str]; 3] = [&["--version"], &["-V"], &["--version", "check"]];
    shows(alloc, &general, &GENERAL)?;
    shows(alloc, &check, &CHECK)?;
    shows(alloc, &trim, &TRIM)?;
    shows(alloc, &demo, &DEMO)?;
    shows(alloc, &version, &VERSION)
}
