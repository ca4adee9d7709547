// What is printed where a run isn't verified, to the last byte: the reason, and then the last line.
use crate::case::{FOUR, SIX, desk_of, status_of};
use sr_base::{Limits, MOST_BYTES, MOST_CELLS, MOST_IDS, MOST_VARS};
use std::alloc::Global;
use std::test::Fail;

/// A file beside `f` with the formula: a name with a line feed and quotes.
const ODD: &str = "odd\n\"f\"";

/// Fails where a run doesn't end with this status, or prints anything else.
fn prints(
    alloc: Global,
    limits: &Limits,
    files: (&str, &str),
    words: &[&str],
    status: u8,
    output: &str,
) -> Result<(), Fail> {
    let mut desk = desk_of(alloc, files.0, files.1, 1000)?;
    desk.put_file(ODD, files.0.as_bytes())?;
    desk.restart();
    let got = status_of(alloc, limits, words, &mut desk)?;
    let printed = str::from_utf8(desk.out_bytes()).unwrap_or("no UTF-8");
    if got == status && printed == output {
        return Ok(());
    }
    Err(Fail::new(format_args!(
        "status {got} and {printed:?}, where {status} and {output:?} is wanted"
    )))
}

const WORDS: [(&[&str], &str); 23] = [
    (
        &[],
        "c no command is given: these are check, trim, demo and help.\nc usage: sr check|trim|demo|help ...\ne usage no-command\n",
    ),
    (
        &["prove", "f"],
        "c the first word is no command of sr: these are check, trim, demo and help.\nc usage: sr check|trim|demo|help ...\ne usage unknown-command\n",
    ),
    (
        &["help", "prove"],
        "c the first word is no command of sr: these are check, trim, demo and help.\nc usage: sr check|trim|demo|help ...\ne usage unknown-command\n",
    ),
    (
        &["help", "--help"],
        "c the first word is no command of sr: these are check, trim, demo and help.\nc usage: sr check|trim|demo|help ...\ne usage unknown-command\n",
    ),
    (
        &["help", "check", "trim"],
        "c the command doesn't know a word or an option, or a word is spare.\nc usage: sr check|trim|demo|help ...\ne usage words\n",
    ),
    (
        &["check", "f", "p", "--other"],
        "c the command doesn't know a word or an option, or a word is spare.\nc usage: sr check FORMULA PROOF [--strict] [--stats] [--proof-form text|binary]\ne usage words\n",
    ),
    (
        &["check", "f", "p", "q"],
        "c the command doesn't know a word or an option, or a word is spare.\nc usage: sr check FORMULA PROOF [--strict] [--stats] [--proof-form text|binary]\ne usage words\n",
    ),
    (
        &["check", "f"],
        "c a word that the command needs is missing.\nc usage: sr check FORMULA PROOF [--strict] [--stats] [--proof-form text|binary]\ne usage words\n",
    ),
    (
        &["check", "f", "p", "--stats", "--stats"],
        "c an option is given twice.\nc usage: sr check FORMULA PROOF [--strict] [--stats] [--proof-form text|binary]\ne usage words\n",
    ),
    (
        &["check", "f", "p", "--proof-form"],
        "c an option lacks its value.\nc usage: sr check FORMULA PROOF [--strict] [--stats] [--proof-form text|binary]\ne usage words\n",
    ),
    (
        &["check", "f", "p", "--strict=yes"],
        "c an option that takes no value has one.\nc usage: sr check FORMULA PROOF [--strict] [--stats] [--proof-form text|binary]\ne usage words\n",
    ),
    (
        &["check", "f", "p", "--proof-form", "xml"],
        "c the name of a form is text or binary.\nc usage: sr check FORMULA PROOF [--strict] [--stats] [--proof-form text|binary]\ne usage words\n",
    ),
    (
        &["check", "f", "f"],
        "c two of the files have one name.\nc usage: sr check FORMULA PROOF [--strict] [--stats] [--proof-form text|binary]\ne usage same-name\n",
    ),
    (
        &["trim", "f", "p", "-x"],
        "c the command doesn't know a word or an option, or a word is spare.\nc usage: sr trim FORMULA PROOF [--lsr FILE] [--core FILE] [--keep-units] [--stats] [--proof-form text|binary] [--lsr-form text|binary]\ne usage words\n",
    ),
    (
        &["trim"],
        "c a word that the command needs is missing.\nc usage: sr trim FORMULA PROOF [--lsr FILE] [--core FILE] [--keep-units] [--stats] [--proof-form text|binary] [--lsr-form text|binary]\ne usage words\n",
    ),
    (
        &["trim", "f", "p", "--core", "k", "--core", "m"],
        "c an option is given twice.\nc usage: sr trim FORMULA PROOF [--lsr FILE] [--core FILE] [--keep-units] [--stats] [--proof-form text|binary] [--lsr-form text|binary]\ne usage words\n",
    ),
    (
        &["trim", "f", "p", "--lsr"],
        "c an option lacks its value.\nc usage: sr trim FORMULA PROOF [--lsr FILE] [--core FILE] [--keep-units] [--stats] [--proof-form text|binary] [--lsr-form text|binary]\ne usage words\n",
    ),
    (
        &["trim", "f", "p", "--lsr-form", "xml"],
        "c the name of a form is text or binary.\nc usage: sr trim FORMULA PROOF [--lsr FILE] [--core FILE] [--keep-units] [--stats] [--proof-form text|binary] [--lsr-form text|binary]\ne usage words\n",
    ),
    (
        &["trim", "f", "p", "--lsr", "f"],
        "c two of the files have one name.\nc usage: sr trim FORMULA PROOF [--lsr FILE] [--core FILE] [--keep-units] [--stats] [--proof-form text|binary] [--lsr-form text|binary]\ne usage same-name\n",
    ),
    (
        &["demo", "2", "3"],
        "c the command doesn't know a word or an option, or a word is spare.\nc usage: sr demo N [--formula FILE] [--proof FILE] [--lsr FILE] [--core FILE] [--stats]\ne usage words\n",
    ),
    (
        &["demo"],
        "c a word that the command needs is missing.\nc usage: sr demo N [--formula FILE] [--proof FILE] [--lsr FILE] [--core FILE] [--stats]\ne usage words\n",
    ),
    (
        &["demo", "61"],
        "c N is a number from 2 to 60.\nc usage: sr demo N [--formula FILE] [--proof FILE] [--lsr FILE] [--core FILE] [--stats]\ne usage words\n",
    ),
    (
        &["demo", "2", "--lsr", "l", "--core", "l"],
        "c two of the files have one name.\nc usage: sr demo N [--formula FILE] [--proof FILE] [--lsr FILE] [--core FILE] [--stats]\ne usage same-name\n",
    ),
];

#[test]
fn refused_words_are_told_what_is_wrong(rt: HostRuntime) -> Result<(), Fail> {
    for (words, output) in WORDS {
        prints(rt.alloc(), &Limits::shipped(), (FOUR, ""), words, 2, output)?;
    }
    Ok(())
}

/// A formula, a proof, the words, and the status and the output that they are to give.
const FILES: [(&str, &str, &[&str], u8, &str); 30] = [
    (
        FOUR,
        "5 2 0 1 2 0\n6 0 3 4 0\n",
        &["check", "f", "p"],
        1,
        "c proof \"p\": a hint has to name a clause of which all literals but one are false by then, and two or more of this one's aren't.\ns REJECTED step 6 not-unit 3\n",
    ),
    (
        FOUR,
        "5 2 0 1 9 0\n",
        &["check", "f", "p"],
        1,
        "c proof \"p\": a hint has to name a clause that is live, and this one's isn't.\ns REJECTED step 5 dead-hint 9\n",
    ),
    (
        FOUR,
        "4 2 0 1 2 0\n",
        &["check", "f", "p"],
        1,
        "c proof \"p\": the number of a step has to be above all numbers of clauses before it, and this one's isn't.\ns REJECTED step 4 not-new\n",
    ),
    (
        FOUR,
        "5 0 0\n",
        &["check", "f", "p"],
        1,
        "c proof \"p\": the hints of a step with the empty clause have to end in a conflict, and these don't.\ns REJECTED step 5 unclosed\n",
    ),
    (
        FOUR,
        "5 2 0 2 0\n",
        &["check", "f", "p"],
        1,
        "c proof \"p\": the hints for a clause that the witness changes have to end in a conflict, and these don't.\ns REJECTED step 5 group-unclosed 3\n",
    ),
    (
        FOUR,
        "5 2 0 1 2 3 0\n",
        &["check", "f", "p", "--strict"],
        1,
        "c proof \"p\": under strict checking no hint may stand after the conflict, and one does.\ns REJECTED step 5 hint-after 3\n",
    ),
    (
        FOUR,
        "5 2 0 1 2 -3 1 0\n",
        &["check", "f", "p", "--strict"],
        1,
        "c proof \"p\": under strict checking a group has to be for a clause that needs one, and this one's doesn't.\ns REJECTED step 5 group-spare 3\n",
    ),
    (
        SIX,
        "12 d 2 0\n13 -1 -1 2 -1 3 4 4 3 0 -4 3 -5 9 -5 9 -6 10 -7 11 -8 12 -9 5 -10 6 -11 7 -12 8 0\n",
        &["check", "f", "p", "--strict"],
        1,
        "c proof \"p\": under strict checking a clause may have one group, and this one has a second.\ns REJECTED step 13 group-twice 5\n",
    ),
    (
        FOUR,
        "5 d 9 0\n",
        &["check", "f", "p", "--strict"],
        1,
        "c proof \"p\": under strict checking a deletion has to name clauses that are live, and one of these isn't.\ns REJECTED step 5 dead-drop 9\n",
    ),
    (
        FOUR,
        "5 2 0 1 2 0\n",
        &["check", "f", "p"],
        1,
        "c proof \"p\": it ends, and no step has the empty clause.\ns NO EMPTY CLAUSE\n",
    ),
    (
        "p cnf 1 1\n2 0\n",
        "",
        &["check", "odd\n\"f\"", "p"],
        3,
        "c formula \"odd??f?\": a variable here is above the number of variables in the header, at the byte 10, counted from 0.\ne text formula above-header 10\n",
    ),
    (
        "p cnf 1 2\n1 0\n",
        "",
        &["check", "f", "p"],
        3,
        "c formula \"f\": it has more or fewer clauses than its header says, at the byte 14, counted from 0.\ne text formula wrong-count 14\n",
    ),
    (
        "1 0\n",
        "",
        &["check", "f", "p"],
        3,
        "c formula \"f\": a formula begins with a header such as p cnf 2 3, and this one does not, at the byte 0, counted from 0.\ne text formula no-header 0\n",
    ),
    (
        "p cnf 1 1\n1",
        "",
        &["check", "f", "p"],
        3,
        "c formula \"f\": it ends in the middle of a clause or an item, at the byte 11, counted from 0.\ne text formula unended 11\n",
    ),
    (
        FOUR,
        "9223372036854775808 0 0\n",
        &["check", "f", "p"],
        3,
        "c proof \"p\": a number here is above what the format allows, at the byte 0, counted from 0.\ne text proof too-wide 0\n",
    ),
    (
        FOUR,
        "5 2 d 0\n",
        &["check", "f", "p"],
        3,
        "c proof \"p\": this word can't stand here, at the byte 4, counted from 0.\ne text proof bad-word 4\n",
    ),
    (
        FOUR,
        "0 2 0 0\n",
        &["check", "f", "p"],
        3,
        "c proof \"p\": a number is wanted here, and this is none or one that can't stand here, at the byte 0, counted from 0.\ne text proof bad-number 0\n",
    ),
    (
        FOUR,
        "5 1 1 -2 1 2 0 0\n",
        &["check", "f", "p"],
        3,
        "c proof \"p\": a witness that maps variables ends here, and its last literal has no image, at the byte 13, counted from 0.\ne text proof odd-map 13\n",
    ),
    (
        FOUR,
        "5 1 1 -2 1 2 1 0 0\n",
        &["check", "f", "p"],
        3,
        "c proof \"p\": a witness that maps variables ends here, and one variable has two images, at the byte 15, counted from 0.\ne text proof twice 15\n",
    ),
    (
        FOUR,
        "5 16777216 0 0\n",
        &["check", "f", "p"],
        4,
        "c proof \"p\": it passes the limit of variables.\ne limit proof vars\n",
    ),
    (
        FOUR,
        "2147483648 2 0 0\n",
        &["check", "f", "p"],
        4,
        "c proof \"p\": it passes the limit of numbers of clauses.\ne limit proof ids\n",
    ),
    (
        FOUR,
        "",
        &["check", "g", "p"],
        5,
        "c formula \"g\": it can't be opened or read.\ne source formula\n",
    ),
    (
        FOUR,
        "",
        &["check", "f", "q\n\"r\""],
        5,
        "c proof \"q??r?\": it can't be opened or read.\ne source proof\n",
    ),
    (
        FOUR,
        "d 1 2 0\n2 0\n",
        &["trim", "f", "p"],
        1,
        "c proof \"p\": a lemma that the refutation needs isn't redundant: the clause that is named shows it.\ns REJECTED lemma 5 against 3\n",
    ),
    (
        "p cnf 1 1\n1 0\n",
        "0\n",
        &["trim", "f", "p"],
        1,
        "c proof \"p\": an empty lemma comes where unit propagation over the clauses before it finds no conflict.\ns REJECTED lemma 2 empty\n",
    ),
    (
        "p cnf 1 1\n1 0\n",
        "",
        &["trim", "odd\n\"f\"", "p"],
        1,
        "c proof \"p\": it ends before unit propagation finds a conflict.\ns NO EMPTY CLAUSE\n",
    ),
    (
        SIX,
        "-1 -1 2",
        &["trim", "odd\n\"f\"", "p", "--lsr", "l"],
        3,
        "c proof \"p\": it ends in the middle of a clause or an item, at the byte 7, counted from 0.\ne text proof unended 7\n",
    ),
    (
        "p cnf 1 1\n2 0\n",
        "",
        &["trim", "odd\n\"f\"", "p"],
        3,
        "c formula \"odd??f?\": a variable here is above the number of variables in the header, at the byte 10, counted from 0.\ne text formula above-header 10\n",
    ),
    (
        FOUR,
        "",
        &["trim", "g", "p"],
        5,
        "c formula \"g\": it can't be opened or read.\ne source formula\n",
    ),
    (
        FOUR,
        "",
        &["trim", "f", "q\n\"r\"", "--core", "k"],
        5,
        "c proof \"q??r?\": it can't be opened or read.\ne source proof\n",
    ),
];

#[test]
fn files_are_named_with_what_is_wrong(rt: HostRuntime) -> Result<(), Fail> {
    for (formula, proof, words, status, output) in FILES {
        prints(
            rt.alloc(),
            &Limits::shipped(),
            (formula, proof),
            words,
            status,
            output,
        )?;
    }
    Ok(())
}

/// Limits of variables, numbers, cells and bytes, a formula, a proof, the words, and the output.
const LIMITS: [(u32, u32, u32, u64, &str, &str, &[&str], &str); 8] = [
    (
        1,
        MOST_IDS,
        MOST_CELLS,
        MOST_BYTES,
        FOUR,
        "2 0\n",
        &["trim", "f", "p"],
        "c formula \"f\": it passes the limit of variables.\ne limit formula vars\n",
    ),
    (
        MOST_VARS,
        4,
        MOST_CELLS,
        MOST_BYTES,
        FOUR,
        "2 0\n",
        &["trim", "f", "p"],
        "c formula \"f\": it passes the limit of numbers of clauses.\ne limit formula ids\n",
    ),
    (
        MOST_VARS,
        MOST_IDS,
        28,
        MOST_BYTES,
        FOUR,
        "2 0\n",
        &["trim", "f", "p"],
        "c proof \"p\": it passes the limit of memory for clauses.\ne limit proof cells\n",
    ),
    (
        MOST_VARS,
        MOST_IDS,
        MOST_CELLS,
        37,
        FOUR,
        "2 0\n",
        &["check", "f", "p"],
        "c formula \"f\": it passes the limit of bytes of a file.\ne limit formula bytes\n",
    ),
    (
        MOST_VARS,
        MOST_IDS,
        MOST_CELLS,
        11,
        "p cnf 0 1\n0",
        "",
        &["trim", "f", "p", "--lsr", "l", "--core", "k\"\n"],
        "c core \"k??\": it passes the limit of bytes of a file.\ne limit core bytes\n",
    ),
    (
        MOST_VARS,
        MOST_IDS,
        MOST_CELLS,
        158,
        SIX,
        "-1 -1 2 -1 3 4 4 3 0\n5 0\n",
        &["trim", "f", "p", "--lsr", "l", "--core", "k"],
        "c lsr \"l\": it passes the limit of bytes of a file.\ne limit lsr bytes\n",
    ),
    (
        5,
        MOST_IDS,
        MOST_CELLS,
        MOST_BYTES,
        FOUR,
        "",
        &["demo", "2", "--formula", "f", "--lsr", "l"],
        "c formula: it passes the limit of variables.\ne limit formula vars\n",
    ),
    (
        6,
        MOST_IDS,
        MOST_CELLS,
        60,
        FOUR,
        "",
        &["demo", "2", "--formula", "f"],
        "c formula: it passes the limit of bytes of a file.\ne limit formula bytes\n",
    ),
];

#[test]
fn files_that_pass_a_limit_are_named(rt: HostRuntime) -> Result<(), Fail> {
    for (vars, ids, cells, bytes, formula, proof, words, output) in LIMITS {
        let limits = Limits::new(vars, ids, cells, bytes).ok_or("no limits")?;
        prints(rt.alloc(), &limits, (formula, proof), words, 4, output)?;
    }
    Ok(())
}
