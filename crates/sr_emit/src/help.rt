// The texts of help.
ghost use Rattle.std.specs.Prelude.{◌≡◌, IfOk, map, string_bytes};
ghost use Rattle.sr_emit.specs.Help.{help_text, synopsis, text_lines};

use crate::topic::Topic;
use std::alloc::{AllocError, Global};

const GENERAL_SYNOPSIS: &str = "sr check|trim|demo|help ...";

const CHECK_SYNOPSIS: &str =
    "sr check FORMULA PROOF [--strict] [--stats] [--proof-form text|binary]";

const TRIM_SYNOPSIS: &str =
    "sr trim FORMULA PROOF [--lsr FILE] [--core FILE] [--keep-units] [--stats] [--proof-form text|binary] [--lsr-form text|binary]";

const DEMO_SYNOPSIS: &str =
    "sr demo N [--formula FILE] [--proof FILE] [--lsr FILE] [--core FILE] [--stats]";

const VERSION_SYNOPSIS: &str = "sr --version";

const GENERAL_HELP: [&str; 24] = [
    "sr checks proofs that SAT solvers write. Where it says \"s VERIFIED UNSAT\", no",
    "assignment satisfies the formula. trim checks a proof by lemmas, as solvers",
    "write it (DRAT, DPR or DSR), and writes what is needed of it as a proof with",
    "hints. check judges a proof with hints (LRAT or LSR). demo makes an example.",
    "",
    CHECK_SYNOPSIS,
    TRIM_SYNOPSIS,
    DEMO_SYNOPSIS,
    "sr help COMMAND",
    "    says what a command does, and what its options mean",
    "sr --version",
    "    says which version of sr this is",
    "",
    "The status, and the last line of the report:",
    "  0  s VERIFIED UNSAT: no assignment satisfies the formula. Or help is shown",
    "  1  s REJECTED ..., s NO EMPTY CLAUSE: the proof is rejected",
    "  2  e usage ...: the words of the command line are refused",
    "  3  e text ...: a file isn't spelled as its format asks",
    "  4  e limit ...: a limit is passed",
    "  5  e source ...: a file can't be read",
    "  6  none, or cut short: a file or standard output can't be written",
    "  7  none: memory ran out",
    "  9  none: the words of the command line can't be had from the system",
    "Lines before the last one begin with c, and say what was counted, or why.",
];

const CHECK_HELP: [&str; 17] = [
    CHECK_SYNOPSIS,
    "",
    "Judges a proof with hints, in LSR or LRAT, against a formula in DIMACS. It reads",
    "the proof up to the first step with the empty clause. FORMULA or PROOF may be a",
    "pipe, such as /dev/stdin.",
    "",
    "--strict             also refuses hints after the conflict, groups that no",
    "                     clause needs, groups that come twice, and deletions of",
    "                     clauses that aren't live",
    "--stats              where the proof is verified, prints counts first: of the",
    "                     formula's clauses, and of the steps and hints that were",
    "                     judged",
    "--proof-form binary  the proof is in binary; else it is in text",
    "",
    "The status is 0 where the proof is verified: no assignment satisfies the",
    "formula. It is 1 where the proof is rejected, and more where nothing is known",
    "of it. sr help has the rest.",
];

const TRIM_HELP: [&str; 20] = [
    TRIM_SYNOPSIS,
    "",
    "Checks a proof by lemmas, in DRAT, DPR or DSR, against a formula in DIMACS, from",
    "the conflict back to the first line. It skips lemmas that nothing needs. FORMULA",
    "or PROOF may be a pipe, such as /dev/stdin.",
    "",
    "--lsr FILE           writes the trimmed proof there, with hints, in LSR",
    "--core FILE          writes the needed clauses of the formula there, in DIMACS",
    "--keep-units         passes over the deletion of a clause that has become a",
    "                     unit, as many DRAT checkers do",
    "--stats              where the proof is verified, prints counts first: of the",
    "                     formula's clauses, those of the core, the lemmas that were",
    "                     loaded, the steps and hints that are written, and the",
    "                     deletions that were passed over",
    "--proof-form binary  the proof is in binary; else it is in text",
    "--lsr-form binary    the trimmed proof is written in binary; else in text",
    "",
    "The status is 0 where the proof is verified: no assignment satisfies the",
    "formula. It is 1 where the proof is rejected, and more where nothing is known",
    "of it, or where a file can't be written. sr help has the rest.",
];

const DEMO_HELP: [&str; 14] = [
    DEMO_SYNOPSIS,
    "",
    "Makes the formula of the pigeonhole principle for N holes and its short proof by",
    "swaps of pigeons, and trims that proof. N is a number from 2 to 60.",
    "",
    "--formula FILE  writes the formula there, in DIMACS",
    "--proof FILE    writes the proof that is trimmed there, in DSR",
    "--lsr FILE      writes the trimmed proof there, with hints, in LSR",
    "--core FILE     writes the needed clauses of the formula there, in DIMACS",
    "--stats         prints all that trim counts; without it demo prints the holes,",
    "                the clauses and the lemmas",
    "",
    "The status is 0 where the proof is verified: no assignment satisfies the",
    "formula. sr help has the rest.",
];

/// The words that the command takes.
#[tactic(auto, unfolding(crate::specs::Help::synopsis))]
pub(crate) fn synopsis_of(topic: Topic) -> &'static str
    ensures { result.now ≡ synopsis topic }
{
    match topic {
        Topic::General => GENERAL_SYNOPSIS,
        Topic::Check => CHECK_SYNOPSIS,
        Topic::Trim => TRIM_SYNOPSIS,
        Topic::Demo => DEMO_SYNOPSIS,
        Topic::Version => VERSION_SYNOPSIS,
    }
}

/// Lines, each of which is ended by a line feed.
fn joined(alloc: Global, lines: &[&str]) -> Result<String, AllocError>
    ensures { IfOk result (λ s. string_bytes s ≡ text_lines (map (λ l. l.now) lines.now)) }
{
    let mut text = String::new(alloc);
    for line in lines {
        text.push_str(line)?;
        text.push_str("\n")?;
    }
    Ok(text)
}

/// What help shows about a topic.
#[tactic(auto, unfolding(crate::specs::Help::synopsis, crate::specs::Help::help_lines, crate::specs::Help::help_text))]
pub(crate) fn help_of(alloc: Global, topic: Topic) -> Result<String, AllocError>
    ensures { IfOk result (λ s. string_bytes s ≡ help_text topic) }
{
    match topic {
        Topic::General => joined(alloc, &GENERAL_HELP),
        Topic::Check => joined(alloc, &CHECK_HELP),
        Topic::Trim => joined(alloc, &TRIM_HELP),
        Topic::Demo => joined(alloc, &DEMO_HELP),
        Topic::Version => joined(alloc, &["sr 0.3.0"]),
    }
}
