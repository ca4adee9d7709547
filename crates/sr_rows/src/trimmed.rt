// What `trim` writes, to the last byte. The order of a chain is free, and in some places a longer chain serves as well.
use crate::case::{FOUR, SIX, desk_of, status_of};
use crate::trims::{SIX_LEMMAS, is_verified};
use sr_base::Limits;
use sr_desk::MemoryDesk;
use std::alloc::Global;
use std::test::Fail;

/// A part of a text.
#[derive(Clone, Copy)]
enum Part<'a> {
    /// One of these.
    One(&'a [&'a str]),
    /// All of these, in any order.
    All(&'a [&'a str]),
}

/// What stands after one of these words.
fn after_one<'a>(text: &'a str, words: &[&str]) -> Option<&'a str> {
    for word in words {
        if let Some(rest) = text.strip_prefix(*word) {
            return Some(rest);
        }
    }
    None
}

/// A bit for each of the words with which the text begins.
fn first_words(text: &str, words: &[&str]) -> u32 {
    let mut found = 0u32;
    let mut bit = 1u32;
    for word in words {
        if text.starts_with(*word) {
            found |= bit;
        }
        bit = bit.wrapping_mul(2);
    }
    found
}

/// What stands after all of these words, none of which begins another.
fn after_all<'a>(text: &'a str, words: &[&str]) -> Option<&'a str> {
    let mut rest = text;
    let mut seen = 0u32;
    for _ in words {
        let first = first_words(rest, words);
        if seen & first != 0 {
            return None;
        }
        seen |= first;
        rest = after_one(rest, words)?;
    }
    Some(rest)
}

fn after<'a>(text: &'a str, part: &Part<'_>) -> Option<&'a str> {
    match part {
        Part::One(words) => after_one(text, words),
        Part::All(words) => after_all(text, words),
    }
}

/// Whether these bytes are these parts, one after another.
fn is_made_of(bytes: &[u8], parts: &[Part<'_>]) -> bool {
    let mut rest = str::from_utf8(bytes).unwrap_or("no UTF-8");
    for part in parts {
        match after(rest, part) {
            Some(after) => rest = after,
            None => return false,
        }
    }
    rest.is_empty()
}

/// A formula and a proof with the report, the proof by hints and the core that `trim` makes of them.
#[derive(Clone, Copy)]
struct Row<'a> {
    formula: &'a str,
    proof: &'a str,
    more: &'a [&'a str],
    report: &'a [Part<'a>],
    lsr: &'a [Part<'a>],
    core: &'a str,
}

/// Fails where a file isn't what it should be.
fn are_written(row: &Row<'_>, desk: &MemoryDesk) -> Result<(), Fail> {
    let lsr = desk.file_bytes("l").ok_or("no proof by hints")?;
    let core = desk.file_bytes("k").ok_or("no core")?;
    if is_made_of(lsr, row.lsr)
        && core == row.core.as_bytes()
        && is_made_of(desk.out_bytes(), row.report)
    {
        return Ok(());
    }
    let formula = row.formula;
    let proof = row.proof;
    let lsr = str::from_utf8(lsr).unwrap_or("no UTF-8");
    let report = str::from_utf8(desk.out_bytes()).unwrap_or("no UTF-8");
    Err(Fail::new(format_args!("{lsr:?} and {report:?} for {formula:?} and {proof:?}")))
}

/// Fails where a run on a row doesn't write what it should, or what is verified.
fn run_row(alloc: Global, row: &Row<'_>, piece: usize) -> Result<(), Fail> {
    let mut desk = desk_of(alloc, row.formula, row.proof, piece)?;
    let mut words: Vec<&str> = Vec::new(alloc);
    for word in ["trim", "f", "p", "--lsr", "l", "--core", "k", "--stats"] {
        words.push(word)?;
    }
    for word in row.more {
        words.push(word)?;
    }
    let status = status_of(alloc, &Limits::shipped(), words.as_slice(), &mut desk)?;
    if status != 0 {
        return Err(Fail::new(format_args!("status {status}")));
    }
    are_written(row, &desk)?;
    is_verified(alloc, &mut desk, "text")
}

fn run_rows(alloc: Global, rows: &[Row<'_>]) -> Result<(), Fail> {
    for row in rows {
        for piece in [1, 8, 1000] {
            run_row(alloc, row, piece)?;
        }
    }
    Ok(())
}

/// The step of a unit and that of the empty clause, over the four clauses of two variables.
const TWO_STEPS: &[Part<'static>] = &[
    Part::One(&["5 2 0 "]),
    Part::All(&["1 ", "2 "]),
    Part::One(&["0\n5 d 1 2 0\n6 0 "]),
    Part::All(&["5 ", "3 ", "4 "]),
    Part::One(&["0\n"]),
];

const FOUR_AND_ANOTHER: &str = "p cnf 4 5\n1 2 0\n-1 2 0\n1 -2 0\n-1 -2 0\n3 4 0\n";

const FOUR_AND_A_COPY: &str = "p cnf 2 5\n1 2 0\n-1 2 0\n1 -2 0\n-1 -2 0\n2 1 0\n";

const LEMMAS: [Row<'static>; 7] = [
    Row {
        formula: "p cnf 0 1\n0\n",
        proof: "",
        more: &[],
        report: &[Part::One(&[
            "c clauses 1\nc core 1\nc lemmas 0\nc steps 1\nc hints 1\nc passed 0\ns VERIFIED UNSAT\n",
        ])],
        lsr: &[Part::One(&["2 0 1 0\n"])],
        core: "p cnf 0 1\n0\n",
    },
    Row {
        formula: "p cnf 1 2\n1 0\n-1 0\n",
        proof: "",
        more: &[],
        report: &[Part::One(&[
            "c clauses 2\nc core 2\nc lemmas 0\nc steps 1\nc hints 2\nc passed 0\ns VERIFIED UNSAT\n",
        ])],
        lsr: &[
            Part::One(&["3 0 "]),
            Part::All(&["1 ", "2 "]),
            Part::One(&["0\n"]),
        ],
        core: "p cnf 1 2\n1 0\n-1 0\n",
    },
    Row {
        formula: FOUR,
        proof: "2 0\n0\n",
        more: &[],
        report: &[Part::One(&[
            "c clauses 4\nc core 4\nc lemmas 1\nc steps 2\nc hints 5\nc passed 0\ns VERIFIED UNSAT\n",
        ])],
        lsr: TWO_STEPS,
        core: FOUR,
    },
    Row {
        formula: FOUR,
        proof: "2 2 0\n",
        more: &[],
        report: &[Part::One(&[
            "c clauses 4\nc core 4\nc lemmas 1\nc steps 2\nc hints 5\nc passed 0\ns VERIFIED UNSAT\n",
        ])],
        lsr: TWO_STEPS,
        core: FOUR,
    },
    Row {
        formula: FOUR,
        proof: "3 3 0\n2 0\n",
        more: &[],
        report: &[Part::One(&[
            "c clauses 4\nc core 4\nc lemmas 2\nc steps 2\nc hints 5\nc passed 0\ns VERIFIED UNSAT\n",
        ])],
        lsr: &[
            Part::One(&["6 2 0 "]),
            Part::All(&["1 ", "2 "]),
            Part::One(&["0\n6 d 1 2 0\n7 0 "]),
            Part::All(&["6 ", "3 ", "4 "]),
            Part::One(&["0\n"]),
        ],
        core: FOUR,
    },
    Row {
        formula: FOUR_AND_ANOTHER,
        proof: "-4 0\n2 0\n",
        more: &[],
        report: &[Part::One(&[
            "c clauses 5\nc core 4\nc lemmas 2\nc steps 2\nc hints 5\nc passed 0\ns VERIFIED UNSAT\n",
        ])],
        lsr: &[
            Part::One(&["5 d 5 0\n7 2 0 "]),
            Part::All(&["1 ", "2 "]),
            Part::One(&["0\n7 d 1 2 0\n8 0 "]),
            Part::All(&["7 ", "3 ", "4 "]),
            Part::One(&["0\n"]),
        ],
        core: "p cnf 4 4\n1 2 0\n-1 2 0\n1 -2 0\n-1 -2 0\n",
    },
    Row {
        formula: FOUR_AND_A_COPY,
        proof: "d 1 2 0\n2 0\n",
        more: &[],
        report: &[Part::One(&[
            "c clauses 5\nc core 4\nc lemmas 1\nc steps 2\nc hints 5\nc passed 0\ns VERIFIED UNSAT\n",
        ])],
        lsr: &[
            Part::One(&["5 d 5 0\n6 2 0 "]),
            Part::All(&["1 ", "2 "]),
            Part::One(&["0\n6 d 1 2 0\n7 0 "]),
            Part::All(&["6 ", "3 ", "4 "]),
            Part::One(&["0\n"]),
        ],
        core: FOUR,
    },
];

#[test]
fn lemmas_by_propagation_are_written(rt: HostRuntime) -> Result<(), Fail> {
    run_rows(rt.alloc(), &LEMMAS)
}

const PASSED_OVER: &[Part<'static>] = &[Part::One(&[
    "c clauses 4\nc core 4\nc lemmas 1\nc steps 2\nc hints 5\nc passed 1\ns VERIFIED UNSAT\n",
])];

const UNIT: &str = "p cnf 3 5\n1 0\n-1 2 3 0\n-1 2 -3 0\n-1 -2 3 0\n-1 -2 -3 0\n";

const REASON: &str = "p cnf 4 6\n1 0\n-1 2 0\n-2 3 4 0\n-2 3 -4 0\n-2 -3 4 0\n-2 -3 -4 0\n";

const DELETIONS: [Row<'static>; 4] = [
    Row {
        formula: FOUR,
        proof: "d 1 3 0\n2 0\n",
        more: &[],
        report: PASSED_OVER,
        lsr: TWO_STEPS,
        core: FOUR,
    },
    Row {
        formula: FOUR,
        proof: "d 0\n2 0\n",
        more: &[],
        report: PASSED_OVER,
        lsr: TWO_STEPS,
        core: FOUR,
    },
    Row {
        formula: UNIT,
        proof: "d 1 0\n2 0\n",
        more: &["--keep-units"],
        report: &[Part::One(&[
            "c clauses 5\nc core 5\nc lemmas 1\nc steps 2\nc hints 7\nc passed 1\ns VERIFIED UNSAT\n",
        ])],
        lsr: &[
            Part::One(&["6 2 0 "]),
            Part::All(&["1 ", "2 ", "3 "]),
            Part::One(&["0\n6 d 2 3 0\n7 0 "]),
            Part::All(&["6 ", "1 ", "4 ", "5 "]),
            Part::One(&["0\n"]),
        ],
        core: UNIT,
    },
    Row {
        formula: REASON,
        proof: "d -1 2 0\n3 0\n",
        more: &["--keep-units"],
        report: &[Part::One(&[
            "c clauses 6\nc core 6\nc lemmas 1\nc steps 2\nc hints 9\nc passed 1\ns VERIFIED UNSAT\n",
        ])],
        lsr: &[
            Part::One(&["7 3 0 "]),
            Part::All(&["1 ", "2 ", "3 ", "4 "]),
            Part::One(&["0\n7 d 3 4 0\n8 0 "]),
            Part::All(&["7 ", "1 ", "2 ", "5 ", "6 "]),
            Part::One(&["0\n"]),
        ],
        core: REASON,
    },
];

#[test]
fn deletions_that_are_passed_over_change_nothing(rt: HostRuntime) -> Result<(), Fail> {
    run_rows(rt.alloc(), &DELETIONS)
}

const SIX_REPORT: &[Part<'static>] = &[
    Part::One(&["c clauses 12\nc core 11\nc lemmas 2\nc steps 3\nc hints "]),
    Part::One(&["20", "21", "22", "23", "24"]),
    Part::One(&["\nc passed 0\ns VERIFIED UNSAT\n"]),
];

const SIX_STEPS: &[Part<'static>] = &[
    Part::One(&["12 d 2 0\n13 -1 -1 2 -1 3 4 4 3 0 -4 3 -5 "]),
    Part::One(&["9 ", "3 5 "]),
    Part::One(&["-6 "]),
    Part::One(&["10 ", "3 6 "]),
    Part::One(&["-7 "]),
    Part::One(&["11 ", "3 7 "]),
    Part::One(&["-8 "]),
    Part::One(&["12 ", "3 8 "]),
    Part::One(&["-9 5 -10 6 -11 7 -12 8 0\n13 d 3 5 6 7 8 0\n14 5 0 "]),
    Part::All(&["13 ", "1 ", "4 ", "9 ", "10 "]),
    Part::One(&["0\n14 d 9 10 0\n15 0 "]),
    Part::All(&["13 ", "1 ", "4 ", "14 ", "11 ", "12 "]),
    Part::One(&["0\n"]),
];

const SIX_CORE: &str =
    "p cnf 6 11\n1 2 0\n-1 3 0\n-2 4 0\n-3 5 6 0\n-3 5 -6 0\n-3 -5 6 0\n-3 -5 -6 0\n-4 5 6 0\n-4 5 -6 0\n-4 -5 6 0\n-4 -5 -6 0\n";

const WITNESSES: [Row<'static>; 2] = [
    Row {
        formula: SIX,
        proof: SIX_LEMMAS,
        more: &[],
        report: SIX_REPORT,
        lsr: SIX_STEPS,
        core: SIX_CORE,
    },
    Row {
        formula: SIX,
        proof: "-1 -1 2 -1 3 4 4 3 0\n5 0\nzzz\n",
        more: &[],
        report: SIX_REPORT,
        lsr: SIX_STEPS,
        core: SIX_CORE,
    },
];

#[test]
fn lemmas_with_witnesses_are_written(rt: HostRuntime) -> Result<(), Fail> {
    run_rows(rt.alloc(), &WITNESSES)
}

const SIX_BINARY: [u8; 13] = [
    0x61, 0x03, 0x03, 0x04, 0x03, 0x06, 0x08, 0x08, 0x06, 0x00, 0x61, 0x0a, 0x00,
];

/// The first two items of the proof by hints in binary: a deletion, and a step up to its groups.
const SIX_STEPS_BINARY: [u8; 14] = [
    0x64, 0x04, 0x00, 0x61, 0x1a, 0x03, 0x03, 0x04, 0x03, 0x06, 0x08, 0x08, 0x06, 0x00,
];

/// Fails where the proof by hints isn't written in a form as it should be.
fn is_in_form(desk: &MemoryDesk, form: &str) -> Result<(), Fail> {
    let lsr = desk.file_bytes("l").ok_or("no proof by hints")?;
    let good = if form == "binary" {
        lsr.starts_with(&SIX_STEPS_BINARY)
    } else {
        is_made_of(lsr, SIX_STEPS)
    };
    if good {
        return Ok(());
    }
    Err(Fail::new(format_args!("other bytes than in {form}")))
}

/// Trims a proof in one form into one in another.
fn run_forms(alloc: Global, proof: &[u8], from: &str, to: &str, piece: usize) -> Result<(), Fail> {
    let mut desk = desk_of(alloc, SIX, "", piece)?;
    desk.put_file("p", proof)?;
    desk.restart();
    let words = [
        "trim",
        "f",
        "p",
        "--proof-form",
        from,
        "--lsr",
        "l",
        "--lsr-form",
        to,
    ];
    let status = status_of(alloc, &Limits::shipped(), &words, &mut desk)?;
    if status != 0 {
        return Err(Fail::new(format_args!("status {status}")));
    }
    is_in_form(&desk, to)?;
    is_verified(alloc, &mut desk, to)
}

#[test]
fn each_form_is_read_and_written(rt: HostRuntime) -> Result<(), Fail> {
    for piece in [1, 8, 1000] {
        for to in ["text", "binary"] {
            run_forms(rt.alloc(), SIX_LEMMAS.as_bytes(), "text", to, piece)?;
            run_forms(rt.alloc(), &SIX_BINARY, "binary", to, piece)?;
        }
    }
    Ok(())
}
