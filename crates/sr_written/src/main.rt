//! The program `sr` once more, for a stored run that writes files. After the run it reads the files that were read and those that were
//! written again, and shows each.
#![tactic(auto)]

use sr_end::{Ended, end};
use std::fs;
use std::io::{self, Print, Write};
use std::rt::Files;

/// Shows the bytes that a file holds, after its name.
fn show(rt: &(impl Files + Print + AllocGlobal), name: &str) -> io::Result<()> {
    println!(rt; "file {name}")?;
    let bytes = fs::read(rt, name)?;
    io::writer(rt).write_all(bytes.as_slice())
}

/// The files that the words of the stored run name.
fn show_files(rt: &(impl Files + Print + AllocGlobal)) -> io::Result<()> {
    show(rt, "formula")?;
    show(rt, "proof")?;
    show(rt, "out.lsr")?;
    show(rt, "out.core")
}

fn main(rt: HostRuntime) -> Ended {
    let ended = end(rt);
    if show_files(&rt).is_err() {
        let _ = println!(&rt; "a file isn't there");
    }
    ended
}
