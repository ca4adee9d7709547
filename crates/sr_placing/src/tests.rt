// Parts of items, and files through a buffer.
ghost use Rattle.std.specs.Prelude.{◌≡◌, All, length, IsTrue, IfOk};
ghost use Rattle.sr_desk.specs.Outside.{can_write};
ghost use Rattle.sr_lsr.specs.Written.{IsSmall};

use crate::buffer::Buffer;
use crate::bytes::Bytes;
use crate::chains::NumberLists;
use crate::length::Length;
use crate::placing::{Placing, parted};
use crate::spelling::put_number;
use crate::step::{put_deletion, put_hints, put_last, put_pivot_first, put_witness};
use crate::uses::last_uses;
use sr_base::{ByteList, Form, Lit, NoMemory};
use sr_desk::{CallKind, Desk, MemoryDesk};
use sr_steps::StepTable;
use sr_wit::Subst;
use std::alloc::Global;
use std::test::Fail;

/// A number as it is written in text.
const NUMBER: &[u8] = b"1234567 ";

/// So many numbers are written through the buffer, more than it holds.
const MANY: u32 = 20_000;

fn is(bytes: &ByteList, wanted: &[u8]) -> bool {
    bytes.as_slice() == wanted
}

fn deleted(alloc: Global, form: Form, ids: &[u32]) -> Result<ByteList, NoMemory>
    requires { All IsSmall ids.now }
{
    let mut bytes = Bytes::new(alloc);
    put_deletion(form, &mut bytes, &mut (), 12, ids);
    bytes.into_list()
}

#[test]
fn deletions_are_written(rt: HostRuntime) -> Result<(), Fail> {
    let alloc = rt.alloc();
    assert!(rt; is(&deleted(alloc, Form::Text, &[2, 300])?, b"12 d 2 300 0\n"));
    assert!(rt;
        is(
            &deleted(alloc, Form::Binary, &[2, 300])?,
            b"d\x04\xd8\x04\0"
        )
    );
    assert!(rt; deleted(alloc, Form::Text, &[])?.as_slice().is_empty());
    Ok(())
}

fn last_step(alloc: Global, form: Form) -> Result<ByteList, NoMemory> {
    let mut steps = StepTable::new(alloc);
    steps.push(15, &[13, 1, 14])?;
    let mut bytes = Bytes::new(alloc);
    put_last(form, &mut bytes, &mut (), &steps, 0);
    bytes.into_list()
}

#[test]
fn the_last_step_is_empty(rt: HostRuntime) -> Result<(), Fail> {
    let alloc = rt.alloc();
    assert!(rt; is(&last_step(alloc, Form::Text)?, b"15 0 13 1 14 0\n"));
    assert!(rt; is(&last_step(alloc, Form::Binary)?, b"a\x1e\0\x1a\x02\x1c\0"));
    Ok(())
}

fn hints_of_groups(alloc: Global, form: Form) -> Result<ByteList, NoMemory> {
    let mut steps = StepTable::new(alloc);
    steps.begin(13)?;
    steps.add_group(4, &[3])?;
    steps.add_group(5, &[9, 1])?;
    let mut bytes = Bytes::new(alloc);
    put_hints(form, &mut bytes, &mut (), &steps, 0);
    bytes.into_list()
}

#[test]
fn groups_begin_with_negative_numbers(rt: HostRuntime) -> Result<(), Fail> {
    let alloc = rt.alloc();
    assert!(rt; is(&hints_of_groups(alloc, Form::Text)?, b"0 -4 3 -5 9 1 0\n"));
    assert!(rt;
        is(
            &hints_of_groups(alloc, Form::Binary)?,
            b"\0\x09\x06\x0b\x12\x02\0"
        )
    );
    Ok(())
}

fn literal(x: i64) -> Result<Lit, Fail> {
    Ok(Lit::new(x).ok_or(NoMemory)?)
}

#[test]
fn the_pivot_comes_first(rt: HostRuntime) -> Result<(), Fail> {
    let mut bytes = Bytes::new(rt.alloc());
    let lits = [literal(1)?, literal(-2)?, literal(3)?];
    put_pivot_first(Form::Text, &mut bytes, &mut (), literal(-2)?, &lits);
    assert!(rt; is(&bytes.into_list()?, b"-2 1 3 "));
    Ok(())
}

#[test]
fn a_witness_has_its_pivot(rt: HostRuntime) -> Result<(), Fail> {
    let alloc = rt.alloc();
    let pivot = literal(-1)?;
    let maps = [(literal(3)?, literal(4)?), (literal(4)?, literal(3)?)];
    let Ok(witness) = Subst::from_parts(alloc, pivot, &[literal(2)?], &maps) else {
        return Err(Fail::from(NoMemory));
    };
    let mut bytes = Bytes::new(alloc);
    put_witness(Form::Text, &mut bytes, &mut (), pivot, Some(&witness));
    put_witness(Form::Text, &mut bytes, &mut (), pivot, None);
    assert!(rt; is(&bytes.into_list()?, b"-1 2 -1 3 4 4 3 -1 "));
    Ok(())
}

#[test]
fn numbers_are_listed_by_their_marks(rt: HostRuntime) -> Result<(), Fail> {
    let mut marks = [0, 2, 1, 2, 0, 2];
    let mut heads = [0, 0];
    let lists = NumberLists::of_marks(rt.alloc(), &mut marks, &mut heads)?;
    assert!(rt; lists.list(0) == [2].as_slice());
    assert!(rt; lists.list(1) == [1, 3, 5].as_slice());
    Ok(())
}

/// Two steps over five clauses, of which the last isn't cited.
fn two_steps(alloc: Global) -> Result<Placing, NoMemory>
    ensures { IfOk result (λ p. length p.drops ≡ 2) }
{
    let mut steps = StepTable::new(alloc);
    steps.push(7, &[6, 3, 4])?;
    steps.push(6, &[1, 2])?;
    let uses = last_uses(alloc, 7, &steps)?;
    parted(alloc, 5, uses, 2)
}

#[test]
fn clauses_go_after_their_last_use(rt: HostRuntime) -> Result<(), Fail> {
    let placing = two_steps(rt.alloc())?;
    assert!(rt; placing.uncited() == [5].as_slice());
    assert!(rt; placing.core() == [1, 2, 3, 4].as_slice());
    assert!(rt; placing.drops(0) == [1, 2].as_slice());
    assert!(rt; placing.drops(1) == [3, 4, 6].as_slice());
    Ok(())
}

fn put_many<D: Desk>(buffer: &mut Buffer, desk: &mut D)
    requires { IsTrue (can_write (D.outside desk.old) buffer.old.slot) }
    ensures { IsTrue (can_write (D.outside desk.new) buffer.new.slot) }
{
    for _ in 0..MANY {
        put_number(Form::Text, buffer, desk, 1_234_567);
    }
}

/// What is in a file after many numbers were written to it; whether that succeeded.
fn written(alloc: Global, refused: u32) -> Result<(MemoryDesk, bool), Fail> {
    let mut desk = MemoryDesk::new(alloc)?;
    let mut buffer = Buffer::new(alloc)?;
    if refused > 0 {
        desk.refuse(CallKind::Write, refused)?;
    }
    let slot = desk.begin_write("f")?;
    buffer.begin(slot);
    put_many(&mut buffer, &mut desk);
    let sent = buffer.end(&mut desk).is_ok();
    Ok((desk, sent))
}

#[test]
fn a_file_is_written_through_the_buffer(rt: HostRuntime) -> Result<(), Fail> {
    let (desk, sent) = written(rt.alloc(), 0)?;
    assert!(rt; sent);
    let bytes = desk.file_bytes("f").unwrap_or(&[]);
    assert!(rt; bytes.len() == 160_000);
    assert!(rt; bytes.chunks(8).all(|piece| piece == NUMBER));
    Ok(())
}

#[test]
fn nothing_is_sent_after_a_fault(rt: HostRuntime) -> Result<(), Fail> {
    for (refused, length) in [(1, 0), (2, 65_536), (3, 131_072)] {
        let (desk, sent) = written(rt.alloc(), refused)?;
        assert!(rt; !sent);
        let bytes = desk.file_bytes("f").unwrap_or(&[]);
        assert!(rt; bytes.len() == length);
        assert!(rt; bytes.chunks(8).all(|piece| piece == NUMBER));
    }
    Ok(())
}

#[test]
fn a_length_is_that_of_what_is_put(rt: HostRuntime) -> Result<(), Fail> {
    let mut length = Length::new();
    put_number(Form::Text, &mut length, &mut (), -120);
    put_number(Form::Binary, &mut length, &mut (), 64);
    assert!(rt; length.count() == 7);
    Ok(())
}
