// Items of files in memory, read and written again.
ghost use Rattle.sr_desk.specs.Next.{Stands};
ghost use Rattle.sr_wit.specs.LsrItems.{item_of};
ghost use Rattle.sr_lsr.specs.Written.{IsSmallItem};

use crate::{ItemReader, item_bytes};
use sr_base::{ByteList, Form, InputError, Limits, TextKind};
use sr_desk::{ByteReader, CallKind, Desk, MemoryDesk};
use sr_wit::LsrItem;
use std::alloc::Global;
use std::test::Fail;

/// Six lines: deletions, a step with a witness and groups, and steps by their prefix alone.
const TEXT: &str = "12 d 2 0\n\
    13 -1 -1 2 -1 3 4 4 3 0 -4 3 -5 9 -6 10 -7 11 -8 12 -9 5 -10 6 -11 7 -12 8 0\n\
    13 d 3 5 6 7 8 0\n\
    14 5 0 13 1 4 9 10 0\n\
    14 d 9 10 0\n\
    15 0 13 1 4 14 11 12 0\n";

/// The same items where deletions have no number.
const UNNUMBERED: &str = "0 d 2 0\n\
    13 -1 -1 2 -1 3 4 4 3 0 -4 3 -5 9 -6 10 -7 11 -8 12 -9 5 -10 6 -11 7 -12 8 0\n\
    0 d 3 5 6 7 8 0\n\
    14 5 0 13 1 4 9 10 0\n\
    0 d 9 10 0\n\
    15 0 13 1 4 14 11 12 0\n";

/// And these in binary.
const BINARY: &[u8] = b"d\x04\0\
    a\x1a\x03\x03\x04\x03\x06\x08\x08\x06\0\x09\x06\x0b\x12\x0d\x14\x0f\x16\
    \x11\x18\x13\x0a\x15\x0c\x17\x0e\x19\x10\0\
    d\x06\x0a\x0c\x0e\x10\0\
    a\x1c\x0a\0\x1a\x02\x08\x12\x14\0\
    d\x12\x14\0\
    a\x1e\0\x1a\x02\x08\x1c\x16\x18\0";

fn add(alloc: Global, form: Form, item: &LsrItem, out: &mut ByteList) -> Result<(), InputError>
    requires { IsSmallItem (item_of item.now) }
{
    match item_bytes(alloc, form, item) {
        Ok(bytes) if out.extend(bytes.as_slice()).is_ok() => Ok(()),
        _ => Err(InputError::NoMemory),
    }
}

/// The items that a reader gives, written one after another.
fn rewritten<D: Desk>(
    alloc: Global,
    form: Form,
    reader: &mut ItemReader,
    desk: &mut D,
) -> Result<ByteList, InputError>
    requires { Stands reader.old.reader (D.outside desk.old) }
{
    let limits = Limits::shipped();
    let mut out = ByteList::new(alloc);
    'items: loop {
        let item = match reader.next(desk, &limits) {
            Ok(Some(item)) => item,
            Ok(None) => return Ok(out),
            Err(error) => return Err(error),
        };
        add(alloc, form, &item, &mut out)?;
        reader.reuse(item);
    }
}

/// The items of a file in the first form, written in the second; at most `piece` bytes are read at once.
fn answer(
    alloc: Global,
    forms: (Form, Form),
    bytes: &[u8],
    piece: usize,
) -> Result<Result<ByteList, InputError>, Fail> {
    let mut desk = MemoryDesk::new(alloc)?;
    desk.put_file("p", bytes)?;
    desk.piece(piece);
    let slot = desk.begin_read("p")?;
    let bytes = ByteReader::new(alloc, slot, Limits::shipped().bytes())?;
    let mut reader = ItemReader::new(alloc, forms.0, bytes)?;
    Ok(rewritten(alloc, forms.1, &mut reader, &mut desk))
}

#[test]
fn items_are_written_as_they_are_read(rt: HostRuntime) -> Result<(), Fail> {
    let alloc = rt.alloc();
    for piece in [1, 1000] {
        for (forms, bytes, wanted) in [
            ((Form::Text, Form::Text), TEXT.as_bytes(), TEXT.as_bytes()),
            ((Form::Text, Form::Binary), TEXT.as_bytes(), BINARY),
            ((Form::Binary, Form::Binary), BINARY, BINARY),
            ((Form::Binary, Form::Text), BINARY, UNNUMBERED.as_bytes()),
        ] {
            let out = answer(alloc, forms, bytes, piece)?.map_err(|fault| Fail::new(format_args!(
                "{fault:?}"
            )))?;
            assert!(rt; out.as_slice() == wanted);
        }
    }
    Ok(())
}

#[test]
fn faults_have_their_places(rt: HostRuntime) -> Result<(), Fail> {
    let alloc = rt.alloc();
    for piece in [1, 1000] {
        for (form, bytes, kind, place) in [
            (
                Form::Text,
                "5 1 1 -2 1 2 1 0 0\n".as_bytes(),
                TextKind::Twice,
                15,
            ),
            (
                Form::Text,
                "5 1 1 -2 1 2 0 0\n".as_bytes(),
                TextKind::OddMap,
                13,
            ),
            (Form::Text, "5 d -1 0\n".as_bytes(), TextKind::BadNumber, 4),
            (Form::Text, "5 1 0 -2 3".as_bytes(), TextKind::Unended, 10),
            (Form::Binary, b"a\0\0\0", TextKind::BadNumber, 1),
            (Form::Binary, b"d\x02\x03\0", TextKind::BadNumber, 2),
            (Form::Binary, b"a\x0a\0\x02", TextKind::Unended, 4),
            (Form::Binary, b"d\0\n", TextKind::BadWord, 2),
        ] {
            match answer(alloc, (form, form), bytes, piece)? {
                Err(InputError::Text { kind: k, place: p }) => {
                    assert!(rt; k == kind && p == place);
                }
                _ => return Err(Fail::new(format_args!("{kind:?} at {place} is wanted"))),
            }
        }
    }
    Ok(())
}

/// How many items of a file are read byte by byte before a read fails, the one with this number.
fn items_before_failure(alloc: Global, bytes: &[u8], nth: u32) -> Result<u32, Fail> {
    let limits = Limits::shipped();
    let mut desk = MemoryDesk::new(alloc)?;
    desk.put_file("p", bytes)?;
    desk.piece(1);
    desk.refuse(CallKind::Read, nth)?;
    let slot = desk.begin_read("p")?;
    let bytes = ByteReader::new(alloc, slot, limits.bytes())?;
    let mut reader = ItemReader::new(alloc, Form::Text, bytes)?;
    match reader.next(&mut desk, &limits) {
        Ok(Some(_)) => {}
        Err(InputError::Source) => return Ok(0),
        _ => return Err(Fail::from("an item or a failed read is wanted")),
    }
    match reader.next(&mut desk, &limits) {
        Ok(Some(_)) => {}
        Err(InputError::Source) => return Ok(1),
        _ => return Err(Fail::from("an item or a failed read is wanted")),
    }
    match reader.next(&mut desk, &limits) {
        Err(InputError::Source) => Ok(2),
        _ => Err(Fail::from("a failed read is wanted")),
    }
}

/// An item that the bytes before it decide is given, and where it isn't decided the failed read is told.
#[test]
fn a_failed_read_has_its_place(rt: HostRuntime) -> Result<(), Fail> {
    let alloc = rt.alloc();
    let two = b"9 d 2 0\n9 d 3 0\n";
    for (nth, items) in [(1, 0), (4, 0), (8, 0), (9, 1), (16, 1), (17, 2)] {
        let given = items_before_failure(alloc, two, nth)?;
        assert!(rt; given == items);
    }
    Ok(())
}
