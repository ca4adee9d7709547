//! Reads a proof and writes it again, in text or in binary: `sr_copy KIND FROM TO FILE`, where KIND is `lsr` or `dsr`,
//! FROM is `text` or `binary`, and TO is one of these two; or `items`, which reads alone. What is written goes to standard
//! output.
//!
//! It is there to measure reading and writing alone. The status is 0 where the whole file was read and written, 2 for
//! other words, 3 where the file spells no such proof, 5 where reading fails, 6 where writing does, and 7 for want of memory.
#![tactic(auto)]

mod copying;
mod output;

use copying::{CopyStop, Kind, copy_file};
use output::Target;
use sr_base::Form;
use sr_desk::HostDesk;
use std::alloc::Global;
use std::env;
use std::env::Env;
use std::process::ExitCode;

/// What the words ask for.
#[derive(Clone, Copy)]
struct Request<'a> {
    kind: Kind,
    from: Form,
    target: Target,
    name: &'a str,
}

fn kind_named(word: &str) -> Option<Kind> {
    match word {
        "lsr" => Some(Kind::Lsr),
        "dsr" => Some(Kind::Dsr),
        _ => None,
    }
}

fn form_named(word: &str) -> Option<Form> {
    match word {
        "text" => Some(Form::Text),
        "binary" => Some(Form::Binary),
        _ => None,
    }
}

fn target_named(word: &str) -> Option<Target> {
    match word {
        "items" => Some(Target::Read),
        _ => match form_named(word) {
            Some(form) => Some(Target::Written(form)),
            None => None,
        },
    }
}

/// What the words ask for; none where they ask for nothing.
fn request_of(words: &[String]) -> Option<Request<'_>> {
    let [kind, from, to, name] = words else {
        return None;
    };
    let kind = kind_named(kind.as_str())?;
    let from = form_named(from.as_str())?;
    let target = target_named(to.as_str())?;
    Some(Request {
        kind,
        from,
        target,
        name: name.as_str(),
    })
}

/// The words of the command line without the program's name.
fn words(rt: &(impl Env + AllocGlobal)) -> Option<Vec<String>> {
    let alloc: Global = rt.alloc();
    env::args(rt).ok()?.skip(1).collect(alloc).ok()
}

fn main(rt: HostRuntime) -> ExitCode {
    let Some(words) = words(&rt) else {
        return ExitCode::from(7);
    };
    let Some(request) = request_of(words.as_slice()) else {
        return ExitCode::from(2);
    };
    let alloc = rt.alloc();
    let mut desk = HostDesk::new(rt);
    match copy_file(
        alloc,
        request.kind,
        request.from,
        request.target,
        request.name,
        &mut desk,
    ) {
        Ok(()) => ExitCode::from(0),
        Err(CopyStop::Spelling) => ExitCode::from(3),
        Err(CopyStop::Source) => ExitCode::from(5),
        Err(CopyStop::Sink) => ExitCode::from(6),
        Err(CopyStop::NoMemory) => ExitCode::from(7),
    }
}
