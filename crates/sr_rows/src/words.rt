// Words of the command line.
use crate::case::{FOUR, FOUR_PROOF, desk_of, status_of, wants};
use sr_base::Limits;
use std::test::Fail;

#[test]
fn words_are_taken_or_refused(rt: HostRuntime) -> Result<(), Fail> {
    let alloc = rt.alloc();
    let verified = "s VERIFIED UNSAT\n";
    let refused = "e usage words\n";
    let cases: [(&[&str], u8, &str); 14] = [
        (&["check", "f", "f"], 2, "e usage same-name\n"),
        (&[], 2, "e usage no-command\n"),
        (&["prove"], 2, "e usage unknown-command\n"),
        (&["prove", "f", "p"], 2, "e usage unknown-command\n"),
        (&["check", "f"], 2, refused),
        (&["check", "f", "p", "q"], 2, refused),
        (&["check", "f", "p", "--other"], 2, refused),
        (&["check", "f", "p", "--stats", "--stats"], 2, refused),
        (&["check", "f", "p", "--proof-form", "xml"], 2, refused),
        (&["check", "f", "f", "--other"], 2, refused),
        (&["check", "--strict", "f", "p"], 0, verified),
        (&["check", "f", "--proof-form", "text", "p"], 0, verified),
        (&["check", "f", "--proof-form=text", "p"], 0, verified),
        (&["check", "--", "f", "p"], 0, verified),
    ];
    for (words, status, report) in cases {
        let mut desk = desk_of(alloc, FOUR, FOUR_PROOF, 1000)?;
        let got = status_of(alloc, &Limits::shipped(), words, &mut desk)?;
        wants(status, report, got, desk.out_bytes())?;
    }
    Ok(())
}
