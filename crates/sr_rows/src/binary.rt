// Proofs in binary.
use crate::case::{FOUR, status_of, wants};
use sr_base::Limits;
use sr_desk::MemoryDesk;
use std::alloc::Global;
use std::test::Fail;

const VERIFIED: &str = "s VERIFIED UNSAT\n";

/// The steps `5 2 0 1 2 0` and `6 0 5 3 4 0`.
const PROOF: [u8; 14] = [
    0x61, 0x0a, 0x04, 0x00, 0x02, 0x04, 0x00, 0x61, 0x0c, 0x00, 0x0a, 0x06, 0x08, 0x00,
];

/// Runs `check` on `FOUR` and a proof in binary, read byte by byte and in pieces of a thousand.
fn answers(
    alloc: Global,
    more: &[&str],
    proof: &[u8],
    status: u8,
    report: &str,
) -> Result<(), Fail> {
    for piece in [1, 1000] {
        let mut desk = MemoryDesk::new(alloc)?;
        desk.put_file("f", FOUR.as_bytes())?;
        desk.put_file("p", proof)?;
        desk.piece(piece);
        desk.restart();
        let mut words: Vec<&str> = Vec::new(alloc);
        for word in ["check", "f", "p", "--proof-form", "binary"] {
            words.push(word)?;
        }
        for word in more {
            words.push(word)?;
        }
        let got = status_of(alloc, &Limits::shipped(), words.as_slice(), &mut desk)?;
        wants(status, report, got, desk.out_bytes())?;
    }
    Ok(())
}

#[test]
fn a_binary_proof_may_end_only_between_its_items(rt: HostRuntime) -> Result<(), Fail> {
    let alloc = rt.alloc();
    for n in 0..14 {
        let front = PROOF.get(..n).ok_or("no front")?;
        if n % 7 == 0 {
            answers(alloc, &[], front, 1, "s NO EMPTY CLAUSE\n")?;
        } else {
            let unended = format!(in alloc; "e text proof unended {n}\n")?;
            answers(alloc, &[], front, 3, unended.as_str())?;
        }
    }
    answers(
        alloc,
        &["--stats"],
        &PROOF,
        0,
        "c clauses 4\nc steps 2\nc hints 5\ns VERIFIED UNSAT\n",
    )
}

#[test]
fn numbers_in_binary_end_where_limits_say(rt: HostRuntime) -> Result<(), Fail> {
    let alloc = rt.alloc();
    let long = [
        0x61, 0x0a, 0x84, 0x00, 0x00, 0x02, 0x04, 0x00, 0x61, 0x0c, 0x00, 0x0a, 0x06, 0x08, 0x00,
    ];
    let endless = [
        0x61, 0x80, 0x80, 0x80, 0x80, 0x80, 0x80, 0x80, 0x80, 0x80, 0x80,
    ];
    let widest = [
        0x61, 0x80, 0x80, 0x80, 0x80, 0x80, 0x80, 0x80, 0x80, 0x80, 0x01,
    ];
    let wider = [
        0x61, 0x80, 0x80, 0x80, 0x80, 0x80, 0x80, 0x80, 0x80, 0x80, 0x02,
    ];
    let cases: [(&[u8], u8, &str); 11] = [
        (&long, 0, VERIFIED),
        (&endless, 3, "e text proof too-wide 1\n"),
        (&widest, 4, "e limit proof ids\n"),
        (&wider, 3, "e text proof too-wide 1\n"),
        (&[0x62], 3, "e text proof bad-word 0\n"),
        (&[0x61, 0x01, 0x00], 3, "e text proof bad-number 1\n"),
        (&[0x61, 0x00, 0x00], 3, "e text proof bad-number 1\n"),
        (&[0x61, 0x80], 3, "e text proof unended 2\n"),
        (&[0x64, 0x03, 0x00], 3, "e text proof bad-number 1\n"),
        (
            &[0x61, 0x0a, 0x04, 0x00, 0x02, 0x05, 0x03, 0x00],
            1,
            "s REJECTED step 5 group-unclosed 4\n",
        ),
        (&[0x64, 0x12, 0x00], 1, "s NO EMPTY CLAUSE\n"),
    ];
    for (proof, status, report) in cases {
        answers(alloc, &[], proof, status, report)?;
    }
    answers(
        alloc,
        &["--strict"],
        &[0x64, 0x12, 0x00],
        1,
        "s REJECTED step 0 dead-drop 9\n",
    )
}
