// Lines of proofs by lemmas, read and written again in both forms.
ghost use Rattle.sr_desk.specs.MemoryView.{outside_of};
ghost use Rattle.sr_desk.specs.Next.{Stands};

use sr_base::{ByteList, Form, InputError, LimitKind, Limits, TextKind};
use sr_desk::{ByteReader, Desk, MemoryDesk};
use sr_dsr::{LineReader, line_bytes};
use std::alloc::Global;
use std::test::Fail;

/// A proof in one form, and the same proof in the other.
#[derive(Clone, Copy)]
struct Pair<'a> {
    text: &'a [u8],
    binary: &'a [u8],
}

/// The lines that a reader has still to give, written in a form; or why one isn't read.
fn write_again(
    alloc: Global,
    to: Form,
    reader: &mut LineReader,
    desk: &mut MemoryDesk,
) -> Result<Result<ByteList, InputError>, Fail>
    requires { Stands reader.old.reader (outside_of desk.old) }
{
    let limits = Limits::shipped();
    let mut out = ByteList::new(alloc);
    'lines: loop {
        match reader.next(desk, &limits) {
            Err(error) => return Ok(Err(error)),
            Ok(None) => return Ok(Ok(out)),
            Ok(Some(line)) => {
                let bytes = line_bytes(alloc, to, &line).map_err(|_| "no memory")?;
                out.extend(bytes.as_slice()).map_err(|_| "no memory")?;
                reader.reuse(line);
            }
        }
    }
}

/// Reads the lines of a file from first to last, and writes them.
fn rewritten(
    alloc: Global,
    from: Form,
    to: Form,
    bytes: &[u8],
    piece: usize,
) -> Result<Result<ByteList, InputError>, Fail> {
    let mut desk = MemoryDesk::new(alloc)?;
    desk.put_file("p", bytes)?;
    desk.piece(piece);
    desk.restart();
    let slot = desk.begin_read("p").map_err(|_| "no file")?;
    let bytes = ByteReader::new(alloc, slot, Limits::shipped().bytes())?;
    let mut reader = LineReader::new(alloc, from, bytes)?;
    write_again(alloc, to, &mut reader, &mut desk)
}

/// Fails where the lines aren't read, or aren't written as these bytes.
fn gives(alloc: Global, from: Form, to: Form, bytes: &[u8], wanted: &[u8]) -> Result<(), Fail> {
    for piece in [1, 1000] {
        match rewritten(alloc, from, to, bytes, piece)? {
            Ok(out) => {
                if out.as_slice() != wanted {
                    return Err(Fail::new(format_args!("other bytes than {wanted:?}")));
                }
            }
            Err(fault) => return Err(Fail::new(format_args!("{fault:?}"))),
        }
    }
    Ok(())
}

/// Fails where reading the lines doesn't end with this fault.
fn fails(alloc: Global, form: Form, bytes: &[u8], wanted: InputError) -> Result<(), Fail> {
    for piece in [1, 1000] {
        match rewritten(alloc, form, form, bytes, piece)? {
            Ok(_) => return Err(Fail::new(format_args!("read, where {wanted:?} is wanted"))),
            Err(fault) => {
                if fault != wanted {
                    return Err(Fail::new(format_args!("{fault:?}, where {wanted:?} is wanted")));
                }
            }
        }
    }
    Ok(())
}

const PROOF: Pair<'static> = Pair {
    text: b"-1 -1 2 -1 3 4 4 3 0\n5 0\n",
    binary: &[
        0x61, 0x03, 0x03, 0x04, 0x03, 0x06, 0x08, 0x08, 0x06, 0x00, 0x61, 0x0a, 0x00,
    ],
};

const DELETION: Pair<'static> = Pair {
    text: b"d 1 2 0\n64 0\n0\n",
    binary: &[0x64, 0x02, 0x04, 0x00, 0x61, 0x80, 0x01, 0x00, 0x61, 0x00],
};

#[test]
fn lines_are_written_as_they_were_read(rt: HostRuntime) -> Result<(), Fail> {
    let alloc = rt.alloc();
    for pair in [PROOF, DELETION] {
        gives(alloc, Form::Text, Form::Text, pair.text, pair.text)?;
        gives(alloc, Form::Text, Form::Binary, pair.text, pair.binary)?;
        gives(alloc, Form::Binary, Form::Text, pair.binary, pair.text)?;
        gives(alloc, Form::Binary, Form::Binary, pair.binary, pair.binary)?;
    }
    Ok(())
}

#[test]
fn repeats_are_written_once(rt: HostRuntime) -> Result<(), Fail> {
    let alloc = rt.alloc();
    let text = Form::Text;
    gives(alloc, text, text, b"-1 2 -1 -1 0", b"-1 2 -1 0\n")?;
    gives(alloc, text, text, b"d 1 1 2 0", b"d 1 2 0\n")?;
    gives(
        alloc,
        text,
        text,
        b"c a comment\n 1\t2 2\r\n 0\nc",
        b"1 2 0\n",
    )
}

#[test]
fn lines_that_are_no_lines_have_their_places(rt: HostRuntime) -> Result<(), Fail> {
    let alloc = rt.alloc();
    let cases: [(Form, &[u8], TextKind, u64); 9] = [
        (Form::Text, b"-1 -1 2", TextKind::Unended, 7),
        (Form::Text, b"1 1 -2 1 2 3 0\n", TextKind::Twice, 13),
        (Form::Text, b"1 1 -2 1 2 0\n", TextKind::OddMap, 11),
        (Form::Text, b"1 1 -1 1 2 0\n", TextKind::OddMap, 11),
        (Form::Text, b"d d 0\n", TextKind::BadWord, 2),
        (Form::Binary, &[0x62], TextKind::BadWord, 0),
        (Form::Binary, &[0x61, 0x01, 0x00], TextKind::BadNumber, 1),
        (Form::Binary, &[0x61, 0x80], TextKind::Unended, 2),
        (Form::Binary, &[0x64, 0x02], TextKind::Unended, 2),
    ];
    for (form, bytes, kind, place) in cases {
        fails(alloc, form, bytes, InputError::Text { kind, place })?;
    }
    fails(
        alloc,
        Form::Text,
        b"16777216 0\n",
        InputError::Limit(LimitKind::Vars),
    )
}
