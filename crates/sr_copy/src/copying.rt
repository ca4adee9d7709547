// Proofs, read and written item by item or line by line.
ghost use Rattle.std.specs.Prelude.{◌≡◌};
ghost use Rattle.sr_desk.specs.Next.{Stands};

use crate::output::{Output, Target};
use sr_base::{Form, InputError, Limits};
use sr_desk::{ByteReader, Desk};
use sr_dsr::LineReader;
use sr_lsr::ItemReader;
use std::alloc::Global;

/// Steps with hints, or lemmas.
#[derive(Clone, Copy)]
pub enum Kind {
    Lsr,
    Dsr,
}

/// Why a proof isn't copied.
#[derive(Clone, Copy)]
pub enum CopyStop {
    Spelling,
    Source,
    Sink,
    NoMemory,
}

fn stop_of(error: InputError) -> CopyStop {
    match error {
        InputError::Text { .. } => CopyStop::Spelling,
        InputError::Limit(_) => CopyStop::Spelling,
        InputError::Source => CopyStop::Source,
        InputError::NoMemory => CopyStop::NoMemory,
    }
}

/// Copies all items.
fn copy_items<D: Desk>(
    alloc: Global,
    reader: &mut ItemReader,
    desk: &mut D,
    out: &mut Output,
) -> Result<(), CopyStop>
    requires { Stands reader.old.reader (D.outside desk.old) }
{
    let limits = Limits::shipped();
    'items: loop {
        let item = match reader.next(desk, &limits) {
            Ok(Some(item)) => item,
            Ok(None) => return out.send(desk),
            Err(error) => return Err(stop_of(error)),
        };
        out.put_item(alloc, &item, desk)?;
        reader.reuse(item);
    }
}

/// Copies all lines.
fn copy_lines<D: Desk>(
    alloc: Global,
    reader: &mut LineReader,
    desk: &mut D,
    out: &mut Output,
) -> Result<(), CopyStop>
    requires { Stands reader.old.reader (D.outside desk.old) }
{
    let limits = Limits::shipped();
    'lines: loop {
        let line = match reader.next(desk, &limits) {
            Ok(Some(line)) => line,
            Ok(None) => return out.send(desk),
            Err(error) => return Err(stop_of(error)),
        };
        out.put_line(alloc, &line, desk)?;
        reader.reuse(line);
    }
}

/// Copies the proof of a file to standard output.
pub fn copy_file<D: Desk>(
    alloc: Global,
    kind: Kind,
    from: Form,
    target: Target,
    name: &str,
    desk: &mut D,
) -> Result<(), CopyStop>
    requires { (D.outside desk.old).begun ≡ 0 }
{
    let Ok(slot) = desk.begin_read(name) else {
        return Err(CopyStop::Source);
    };
    let Ok(bytes) = ByteReader::new(alloc, slot, Limits::shipped().bytes()) else {
        return Err(CopyStop::NoMemory);
    };
    let mut out = Output::new(alloc, target);
    match kind {
        Kind::Lsr => {
            let Ok(mut reader) = ItemReader::new(alloc, from, bytes) else {
                return Err(CopyStop::NoMemory);
            };
            copy_items(alloc, &mut reader, desk, &mut out)
        }
        Kind::Dsr => {
            let Ok(mut reader) = LineReader::new(alloc, from, bytes) else {
                return Err(CopyStop::NoMemory);
            };
            copy_lines(alloc, &mut reader, desk, &mut out)
        }
    }
}
